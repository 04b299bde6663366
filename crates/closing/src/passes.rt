// What closing T and closing F share: the rows that are visited are put to use part by part, by passes until one changes nothing.
ghost use Rattle.std.specs.Prelude.{Bool, List, ℕ, ◌<◌, length, get_or};
ghost use Rattle.parts.specs.Parts.{place_of};
ghost use Rattle.closing.specs.Passes.{Passing, Ran, PartRan, Settled};

use parts::{part_end, place_of};

// Rows that 64 sets are closed by.
pub trait Rows {
    // What one at a place needs, what it does to the sets, and what is left to be done.
    ghost Stands: { Self → ℕ → Type 0 };

    ghost Puts: { Self → ℕ → List ℕ → List ℕ → Bool → Type 0 };

    ghost left_over: { List ℕ → ℕ };

    // Puts the row at a place to use. Says whether it changed a word.
    fn put(&self, place: usize, words: &mut [u64; 513]) -> bool
        requires { Stands self.now place }
        ensures does { Puts self.now place words.old words.new result }
        ensures goes_on { Passing left_over words.old words.new result };
}

// Each row once, and whether one of them changed a word. The visits are no field of the rows: those of a part are a part of them.
fn pass<R: Rows>(rows: &R, visits: &[u16], words: &mut [u64; 513]) -> bool
    requires { (i : ℕ) → i < length visits.now → R.Stands rows.now (place_of (get_or visits.now i 0)) }
    ensures does { Ran (R.Puts rows.now) visits.now words.old (length visits.now) words.new result }
    ensures goes_on { Passing R.left_over words.old words.new result }
{
    let mut changed = false;
    for visit in visits {
        changed |= rows.put(place_of(*visit), words);
    }
    changed
}

// The rows of a part: passes until one changes nothing. A single row needs one.
fn settle_part<R: Rows>(rows: &R, visits: &[u16], words: &mut [u64; 513])
    requires { (i : ℕ) → i < length visits.now → R.Stands rows.now (place_of (get_or visits.now i 0)) }
    ensures { PartRan (R.Puts rows.now) visits.now words.old words.new }
{
    if let [visit] = visits {
        rows.put(place_of(*visit), words);
        return;
    }
    while pass(rows, visits, words) {}
}

// The rows of all visits, part by part.
pub fn settle<R: Rows>(rows: &R, visits: &[u16], words: &mut [u64; 513])
    requires { (i : ℕ) → i < length visits.now → R.Stands rows.now (place_of (get_or visits.now i 0)) }
    ensures { Settled (R.Puts rows.now) visits.now words.old (length visits.now) words.new }
{
    let mut start = 0;
    // From part to part: they are of different lengths.
    while start < visits.len() {
        let end = part_end(visits, start);
        settle_part(rows, &visits[start..end], words);
        start = end;
    }
}
