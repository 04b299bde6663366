// Parts of the visits to rows. A part is settled for itself: no row up to its end asks for the head of a row after it. Without rings each
// row is a part; the rows of a ring are in one.
#![tactic(auto)]

ghost use Rattle.std.specs.Prelude.{◌≡◌, ◌≤◌, ◌<◌, length};
ghost use Rattle.parts.specs.Parts.{parity, place_of, ends_part, Unmarked, Marked, Parted, PartEnd};
ghost use Rattle.parts.specs.Reaches.{Lasts, Within, RowReaches};

use arrays::{get, put};

// What is visited. A rule asks for o by the number 2o of o, an entry by the 2o + 1 of not(o).
#[derive(Clone, Copy, PartialEq, Eq, Debug)]
pub enum RowKind {
    Rule,
    Entry,
}

impl RowKind {
    // The parity of the numbers that ask.
    fn parity(self) -> usize
        ensures { result ≡ parity self }
    {
        match self {
            RowKind::Rule => 0,
            RowKind::Entry => 1,
        }
    }
}

// What is added to a visit that a part ends with. The mark stands in the number itself, so that a pass reads a single array.
const MARK: u16 = 32768;

// Where the row of a visit starts.
#[tactic(auto, unfolding(crate::specs::Parts::place_of))]
pub fn place_of(visit: u16) -> usize
    ensures { result ≡ place_of visit }
{
    usize::from(visit % MARK)
}

// Whether a part ends with a visit.
#[tactic(auto, unfolding(crate::specs::Parts::ends_part))]
fn ends_part(visit: u16) -> bool
    ensures { result ≡ ends_part visit }
{
    MARK <= visit
}

// The end of the part that begins at a visit.
pub fn part_end(visits: &[u16], start: usize) -> usize
    requires { start < length visits.now }
    ensures { PartEnd visits.now start result }
{
    match visits[start..].iter().position(|visit| ends_part(*visit)) {
        Some(last) => start + last + 1,
        None => visits.len(),
    }
}

// For each head the number of visits up to the last one to a row of that head.
fn find_lasts(numbers: &[u16], visits: &[u16], lasts: &mut [u16], count: usize)
    requires { (count ≤ 1280) × (count ≤ length visits.now) }
    ensures { Lasts count numbers.now visits.now lasts.new count }
{
    for (i, visit) in visits[..count].iter().enumerate() {
        let head = get(numbers, place_of(*visit), 0);
        put(lasts, head, (i + 1) as u16);
    }
}

// How far a number asks, or `reach` where that is further.
fn further(lasts: &[u16], kind: RowKind, count: usize, number: usize, reach: usize) -> usize
    requires { count ≤ 1280 }
    ensures { (reach ≤ result) × Within (parity kind) count lasts.now number result }
{
    if number % 2 != kind.parity() {
        return reach;
    }
    reach.max(get(lasts, number / 2, count as u16))
}

// How far a row asks, or `least` where that is further.
fn reach_of(
    numbers: &[u16],
    lasts: &[u16],
    kind: RowKind,
    count: usize,
    place: usize,
    least: usize,
) -> usize
    requires { (count ≤ 1280) × (place < 32768) }
    ensures { (least ≤ result) × RowReaches (parity kind) count numbers.now lasts.now place result }
{
    let size = get(numbers, place + 1, 0);
    let mut reach = least;
    // By index: what lies past the end of the array is asked for, too.
    for at in 0..size {
        let number = get(numbers, place + 2 + at, 0);
        reach = further(lasts, kind, count, number, reach);
    }
    reach
}

// A visit, marked where a part ends with it.
fn mark(visit: u16, ends: bool) -> u16
    requires { visit < 32768 }
    ensures { (place_of result ≡ visit) × (ends_part result ≡ ends) }
{
    if ends { visit + MARK } else { visit }
}

// Marks the visits that a part ends with: those that no row so far reaches beyond. The count, since more may be lent than there are visits.
pub fn mark_parts(numbers: &[u16], kind: RowKind, visits: &mut [u16], count: usize)
    requires { (count ≤ 1280) × ((count ≤ length visits.old) × Unmarked count visits.old) }
    ensures { Parted (parity kind) count numbers.now visits.new × Marked count visits.old visits.new }
{
    let mut lasts = [0u16; 513];
    find_lasts(numbers, visits, &mut lasts, count);
    let mut reach: usize = 0;
    // By index: a visit is marked where the reach is no further than the visits up to it.
    for i in 0..count {
        reach = reach_of(numbers, &lasts, kind, count, place_of(visits[i]), reach);
        visits[i] = mark(visits[i], reach <= i + 1);
    }
}
