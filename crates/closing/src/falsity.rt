// Falsity from the entries of the dual, in sixty-four scenarios at once: "F(j+1) is the greatest set with each o in it backed".
// Bit l of word o says whether o is in the set of lane l.
ghost use Rattle.std.specs.Prelude.{get_or};
ghost use Rattle.papers.specs.Reading.{program_in};
ghost use Rattle.lanes.specs.Words.{Literals, total};
ghost use Rattle.closing.specs.FalseWords.{EntryStands, EntriesStand, SomeWord, EntryWord, Dropped, FalseWords};

use crate::passes::{Rows, settle};
use decoded::{body_literal_in, number_in, objective_in};
use lanes::words::{other_lanes, word_of};
use sets::fill_words;

// The lanes in which one of a clause's literals holds. Not one with `body_word`: a body needs all of its literals, and so begins, joins and ends otherwise.
fn clause_word(clause: &[u16], truth: &[u64; 513], falses: &[u64; 513]) -> u64
    requires { Literals 513 clause.now }
    ensures { SomeWord clause.now truth.now falses.now result }
{
    let mut word = 0;
    // By index, as in `body_word`.
    for i in 0..clause.len() {
        word |= word_of(body_literal_in(clause, i), truth, falses);
    }
    word
}

// The lanes of a word in which each clause of the entry at a place has a literal that holds. Where none is left, the clauses after are not asked.
fn entry_word(
    file: &[u8],
    rows: &[u16],
    place: usize,
    truth: &[u64; 513],
    falses: &[u64; 513],
    lanes: u64,
) -> u64
    requires { EntryStands (program_in file.now) rows.now place }
    ensures { EntryWord (program_in file.now) (get_or rows.now place 0) truth.now falses.now lanes result }
{
    let start = place + 2;
    let end = start + number_in(rows, place + 1);
    let mut word = lanes;
    let mut rest = &rows[start..end];
    while let Some((size, more)) = rest.split_first() {
        if word == 0 {
            return 0;
        }
        let (clause, others) = more.split_at(usize::from(*size / 2));
        word &= clause_word(clause, truth, falses);
        rest = others;
    }
    word
}

// Entries as rows, the words of T, and what backs besides them.
#[derive(Clone, Copy)]
struct Entries<'a> {
    file: &'a [u8],
    rows: &'a [u16],
    truth: &'a [u64; 513],
    backing: &'a [u64; 513],
}

impl<'a> Rows for Entries<'a> {
    ghost Stands = { λ entries place. EntryStands (program_in entries.file.now) entries.rows.now place };

    ghost Puts = { λ entries place before after changed.
        Dropped (program_in entries.file.now) (get_or entries.rows.now place 0) entries.truth.now entries.backing.now before after changed };

    ghost left_over = { total };

    // The objective literal leaves the lanes in which nothing backs it.
    fn put(&self, place: usize, falses: &mut [u64; 513]) -> bool {
        let o = objective_in(self.rows, place).0;
        let old = falses[o];
        let given = self.backing[o];
        let lanes = old & other_lanes(given);
        let word = entry_word(self.file, self.rows, place, self.truth, falses, lanes);
        let new = old & (given | word);
        falses[o] = new;
        new != old
    }
}

// The greatest set, in each lane: from all judged literals, part by part.
pub fn close_false(
    file: &[u8],
    rows: &[u16],
    visits: &[u16],
    truth: &[u64; 513],
    backing: &[u64; 513],
    falses: &mut [u64; 513],
)
    requires { EntriesStand (program_in file.now) rows.now visits.now }
    ensures { FalseWords (program_in file.now) truth.now backing.now falses.old falses.new }
{
    fill_words(falses, visits.len(), u64::MAX);
    let entries = Entries {
        file,
        rows,
        truth,
        backing,
    };
    settle(&entries, visits, falses);
}
