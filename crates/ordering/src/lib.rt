// The order in which the passes visit the rows. A row that is visited after those it depends on lets a pass end early, but any
// order will do that visits every row: one is searched for and tested, and where it fails the rows are visited in their own order.
#![tactic(auto)]

mod counting;
mod depth;
mod numbers;

ghost use Rattle.std.specs.Prelude.{◌≡◌, true, ℕ, ◌≤◌, ◌<◌, length, get_or};
ghost use Rattle.ordering.specs.Orders.{Ordered, Written, own, start_at, Visited};

use arrays::get;
use counting::sort_by_rank;
use depth::finishing_order;
use numbers::lay;

// The place of each row in an order. Here and below the count is lent with the slices, since these may be longer.
fn invert(order: &[u16], ranks: &mut [u16], count: usize) {
    // An index: it is what is laid.
    for i in 0..count {
        lay(ranks, get(order, i, 0), i);
    }
}

// The test: every place has a row, and every row stands where its rank says.
fn is_order(order: &[u16], ranks: &[u16], count: usize) -> bool
    requires { (count ≤ length order.now) × (count ≤ length ranks.now) }
    ensures { result ≡ true → Ordered count order.now ranks.now }
{
    // An index: the test is of the place.
    for k in 0..count {
        let row = usize::from(order[k]);
        let rank = usize::from(ranks[k]);
        if count <= row || count <= rank || usize::from(order[rank]) != k {
            return false;
        }
    }
    true
}

// The rows' own order, and their ranks in it.
fn count_up(numbers: &mut [u16], count: usize)
    requires { (count ≤ 1280) × (count ≤ length numbers.old) }
    ensures { Written own count numbers.old numbers.new }
{
    // An index: it is what is written.
    for i in 0..count {
        numbers[i] = i as u16;
    }
}

// An order that fails the test gives way to the rows' own.
fn settle(order: &mut [u16], ranks: &mut [u16], count: usize)
    requires { (count ≤ 1280) × ((count ≤ length order.old) × (count ≤ length ranks.old)) }
    ensures { Ordered count order.new ranks.new }
{
    if !is_order(order, ranks, count) {
        count_up(order, count);
        count_up(ranks, count);
    }
}

// The start of each row, in the given order.
fn visit(order: &[u16], starts: &[u16], visits: &mut [u16], count: usize)
    requires { (count ≤ length order.now)
        × ((count ≤ length starts.now)
        × ((count ≤ length visits.old)
        × ((k : ℕ) → k < count → get_or order.now k 0 < count))) }
    ensures { Written (start_at order.now starts.now) count visits.old visits.new }
{
    // An index: the order is read and the visits are written at it.
    for i in 0..count {
        let row = usize::from(order[i]);
        visits[i] = starts[row];
    }
}

// The rows in an order that nothing is known of, or in their own; `ranks` has the place of each row in the one taken.
fn visit_rows(
    order: &mut [u16],
    starts: &[u16],
    ranks: &mut [u16],
    visits: &mut [u16],
    count: usize,
)
    requires { (count ≤ 1280)
        × ((count ≤ length order.old)
        × ((count ≤ length starts.now)
        × ((count ≤ length ranks.old)
        × (count ≤ length visits.old)))) }
    ensures { Visited count starts.now visits.old visits.new }
{
    invert(order, ranks, count);
    settle(order, ranks, count);
    visit(order, starts, visits, count);
}

// The entries of the dual, each after those it depends on where there is no cycle. `starts` has the place of each
// entry's row, `ranks` gets its rank in the order of visits. Not one with `order_rules`: another search, other sizes, and there the ranks are of no use.
fn order_entries(
    entries: &[u16],
    starts: &[u16],
    ranks: &mut [u16],
    visits: &mut [u16],
    count: usize,
)
    requires { (count ≤ 513)
        × ((count ≤ length starts.now)
        × ((count ≤ length ranks.old)
        × (count ≤ length visits.old))) }
    ensures { Visited count starts.now visits.old visits.new }
{
    let mut order = [0u16; 513];
    finishing_order(entries, starts, &mut order, count);
    visit_rows(&mut order, starts, ranks, visits, count);
}

// The rules by the ranks of their heads, those of one head in their own order.
fn order_rules(rules: &[u16], starts: &[u16], ranks: &[u16], visits: &mut [u16], count: usize)
    requires { (count ≤ 1280) × ((count ≤ length starts.now) × (count ≤ length visits.old)) }
    ensures { Visited count starts.now visits.old visits.new }
{
    let mut order = [0u16; 1280];
    let mut places = [0u16; 1280];
    sort_by_rank(rules, starts, ranks, &mut order, count);
    visit_rows(&mut order, starts, &mut places, visits, count);
}

// Both: first the entries, whose ranks then order the rules. The counts, since what is lent may be longer than there are rows.
pub fn order_rows(
    entries: &[u16],
    entry_starts: &[u16],
    entry_visits: &mut [u16],
    judged: usize,
    rules: &[u16],
    rule_starts: &[u16],
    rule_visits: &mut [u16],
    folds: usize,
)
    requires { (judged ≤ 513)
        × ((folds ≤ 1280)
        × ((judged ≤ length entry_starts.now)
        × ((judged ≤ length entry_visits.old)
        × ((folds ≤ length rule_starts.now)
        × (folds ≤ length rule_visits.old))))) }
    ensures { Visited judged entry_starts.now entry_visits.old entry_visits.new
        × Visited folds rule_starts.now rule_visits.old rule_visits.new }
{
    let mut ranks = [0u16; 513];
    order_entries(entries, entry_starts, &mut ranks, entry_visits, judged);
    order_rules(rules, rule_starts, &ranks, rule_visits, folds);
}
