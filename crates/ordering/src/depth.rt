// A depth-first search over the entries of the dual. An entry is closed when all that it depends on was met, so that the entries
// in the order in which they are closed come after those they depend on, wherever there is no cycle.
use crate::numbers::{lay, short};
use arrays::get;

// The rows and where each starts; for each row that was met the place to go on from; the open rows; and the closed ones, in their order.
#[derive(Drop)]
struct Search<'a> {
    entries: &'a [u16],
    starts: &'a [u16],
    places: [Option<u16>; 513],
    path: [u16; 513],
    depth: usize,
    order: &'a mut [u16],
    closed: usize,
}

impl<'a> Search<'a> {
    // Whether a number of a row is the literal not(o) of an objective literal o whose row was not met. The numbers that open clauses
    // are even.
    fn leads_on(&self, number: usize) -> bool {
        number % 2 == 1 && matches!(self.places.get(number / 2), Some(None))
    }

    // Opens a row as the last, unless it was met: its literals stand from its third number on.
    fn open(&mut self, row: usize) {
        if row < 513 && self.depth < 513 && self.places[row].is_none() {
            self.places[row] = Some(short(get(self.starts, row, 0) + 2));
            self.path[self.depth] = short(row);
            self.depth += 1;
        }
    }

    // Closes a row, the last that is open.
    fn close(&mut self, row: usize) {
        lay(self.order, self.closed, row);
        self.closed = self.closed.saturating_add(1);
        self.depth = self.depth.saturating_sub(1);
    }

    // The last open row.
    fn last_open(&self) -> Option<usize> {
        let last = self.depth.checked_sub(1)?;
        Some(get(&self.path, last, 0))
    }

    // Where a row ends.
    fn row_end(&self, row: usize) -> usize {
        let start = get(self.starts, row, 0);
        start + 2 + get(self.entries, start + 1, 0)
    }

    // The next row that a row depends on and that was not met; its number is the row's place then.
    fn advance(&mut self, row: usize) -> Option<usize> {
        let place = (*self.places.get(row)?)?;
        // By index: what lies past the end of the array is asked for, too.
        for at in usize::from(place)..self.row_end(row) {
            let number = get(self.entries, at, 0);
            if self.leads_on(number) {
                self.places[row] = Some(short(at));
                return Some(number / 2);
            }
        }
        None
    }

    // Closes a row and all that it leads to: each step opens the next row that the last open one depends on, or closes that one. Each of
    // at most 513 rows is opened once and closed once, so that 1,026 steps are enough.
    fn visit(&mut self, row: usize) {
        self.open(row);
        for _ in 0..1026 {
            let Some(last) = self.last_open() else {
                return;
            };
            match self.advance(last) {
                Some(next) => self.open(next),
                None => self.close(last),
            }
        }
    }
}

// The first `count` rows in the order in which the search closes them.
pub(crate) fn finishing_order(entries: &[u16], starts: &[u16], order: &mut [u16], count: usize) {
    let mut search = Search {
        entries,
        starts,
        places: [None; 513],
        path: [0; 513],
        depth: 0,
        order,
        closed: 0,
    };
    // A number of the problem: the row.
    for row in 0..count {
        search.visit(row);
    }
}
