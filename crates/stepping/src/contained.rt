// Which of 64 scenarios that follow one another contain the assumptions of a found entry: a lane for each scenario, base + l in lane l.
ghost use Rattle.std.specs.Prelude.{◌≤◌, length};
ghost use Rattle.stepping.specs.Containing.{DigitTable, EntryLanes, LanesLeft, NewToFirst};

use digits::digit_lanes;

// Three words for each digit: word d of digit i has the lanes in which an entry whose digit i is d may be contained, so all of them for d = 0.
fn digit_table(k: usize, base: u64) -> [[u64; 3]; 16]
    requires { k ≤ 16 }
    ensures { DigitTable k base result }
{
    let mut table = [[u64::MAX; 3]; 16];
    let mut power: u64 = 1;
    // An index: row i is of digit i.
    for i in 0..k {
        let words = digit_lanes(base, power);
        table[i] = [u64::MAX, words.assumed, words.ruled];
        power *= 3;
    }
    table
}

// Those of some lanes whose scenario contains an entry's assumptions. Digits that are all zero assume nothing.
fn entry_lanes(k: usize, table: &[[u64; 3]; 16], entry: u32, lanes: u64) -> u64
    requires { k ≤ 16 }
    ensures { EntryLanes k table.now entry lanes result }
{
    let mut word = lanes;
    let mut rest = entry;
    for words in &table[..k] {
        if rest == 0 || word == 0 {
            return word;
        }
        word &= words[(rest % 3) as usize];
        rest /= 3;
    }
    word
}

// Those of some lanes whose scenario contains none of the entries.
fn lanes_left(k: usize, entries: &[u32], table: &[[u64; 3]; 16], lanes: u64) -> u64
    requires { k ≤ 16 }
    ensures { LanesLeft k table.now entries.now lanes result }
{
    let mut left = lanes;
    for entry in entries {
        if left == 0 {
            return left;
        }
        left &= !entry_lanes(k, table, *entry, left);
    }
    left
}

// The lanes of the explanations that contain none of the first `entries` of a list.
#[derive(Clone, Copy)]
pub struct NewLanes {
    pub lanes: u64,
    pub entries: usize,
}

// Those of the scenarios from `base` on. A table serves where `count` of them are more than a few, where there are explanations and found entries, and
// up to 16 digits.
pub(crate) fn new_lanes(
    k: usize,
    found: &[u32],
    base: u32,
    count: usize,
    explained: u64,
) -> NewLanes
    ensures { NewToFirst k base found.now (length found.now) explained result }
{
    if explained == 0 || count < 4 || found.is_empty() || k > 16 {
        return NewLanes {
            lanes: explained,
            entries: 0,
        };
    }
    let table = digit_table(k, u64::from(base));
    NewLanes {
        lanes: lanes_left(k, found, &table, explained),
        entries: found.len(),
    }
}
