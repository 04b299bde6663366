// Rounds: T, P and F of 64 scenarios, from one pair to the next until none changes.
#![tactic(auto)]

ghost use Rattle.std.specs.Prelude.{◌≡◌, replicate};
ghost use Rattle.literals.specs.Numbering.{judged};
ghost use Rattle.papers.specs.Reading.{program_in};
ghost use Rattle.lanes.specs.Lanes.{NoneBeyond, Written};
ghost use Rattle.lanes.specs.Words.{other_word, Laned};
ghost use Rattle.settling.specs.DecodedFiles.{FileDecoded};
ghost use Rattle.settling.specs.RoundLanes.{NextTrue, NextFalse, MadeIf, Round, changed_lanes, MarkedLanes, SettledLanes, HeldLanes};

use backing::backing_words;
use closing::falsity::close_false;
use closing::truth::close_true;
use digits::abducible_lanes;
use lanes::words::in_lane;
use papers::Contents;
use sets::changes::replace_words;
use sets::{complement_words, join_words};

// T and F of 64 scenarios, a word for each judged literal.
#[derive(Drop)]
pub struct Words {
    pub t: [u64; 513],
    pub f: [u64; 513],
}

impl Words {
    pub const CLEAR: Words = Words {
        t: [0; 513],
        f: [0; 513],
    };
}

// The model's sets in 64 scenarios, a word for each judged literal. P is made once, where T and F stand: it is what F leaves.
#[derive(Drop)]
pub struct Model {
    pub t: [u64; 513],
    pub p: [u64; 513],
    pub f: [u64; 513],
}

// The models of 64 scenarios, and the round count of each.
#[derive(Drop)]
pub struct Settled {
    pub model: Model,
    pub rounds: [u64; 64],
}

// The lanes in which a round has changed T and F.
#[derive(Clone, Copy)]
struct Moved {
    t: u64,
    f: u64,
}

impl Moved {
    fn lanes(self) -> u64
        ensures { result ≡ changed_lanes self }
    {
        self.t | self.f
    }
}

// A number noted for each lane of a word.
fn mark_lanes(word: u64, number: u64, marks: &mut [u64; 64])
    ensures { MarkedLanes word number marks.old marks.new }
{
    for (lane, mark) in marks.iter_mut().enumerate() {
        *mark = if in_lane(word, lane) { number } else { *mark };
    }
}

// An accepted file with its rules and its dual decoded: rows of numbers, and the places at which these are visited.
// Where each row starts is a part of what the clauses say of it, and no ghost field holds data.
#[derive(Clone, Copy)]
pub struct DecodedFile<'a> {
    pub file: &'a [u8],
    pub contents: Contents,
    pub rules: &'a [u16],
    pub rule_visits: &'a [u16],
    pub entries: &'a [u16],
    pub entry_visits: &'a [u16],
}

impl DecodedFile<'_> {
    // The number of judged literals.
    fn judged(&self) -> usize
        requires { FileDecoded self.now }
        ensures { result ≡ judged (program_in self.now.file.now).atoms }
    {
        literals::judged(self.contents.atoms)
    }

    // T(j+1) from the rules and F(j), begun from T(j); where F has not moved it stands already.
    fn next_true(&self, abducible: &Words, held: &Words, moved: Moved, next: &mut [u64; 513])
        requires { FileDecoded self.now }
        ensures { MadeIf moved.f (NextTrue (program_in self.now.file.now) abducible.now.t held.now.t held.now.f
            next.old next.new) next.old next.new }
    {
        if moved.f != 0 {
            join_words(&abducible.t, &held.t, self.judged(), next);
            close_true(self.rules, self.rule_visits, next, &held.f);
        }
    }

    // F(j+1) from the dual and T(j); where T has not moved it stands already. Not one with `next_true`: the steps of each are its own.
    fn next_false(
        &self,
        abducible: &Words,
        held: &Words,
        moved: Moved,
        backing: &mut [u64; 513],
        next: &mut [u64; 513],
    )
        requires { FileDecoded self.now }
        ensures { MadeIf moved.t (NextFalse (program_in self.now.file.now) abducible.now.f held.now.t
            next.old next.new) next.old next.new }
    {
        if moved.t != 0 {
            backing_words(&held.t, &abducible.f, self.contents.atoms, backing);
            close_false(
                self.file,
                self.entries,
                self.entry_visits,
                &held.t,
                backing,
                next,
            );
        }
    }

    // T(j+1) and F(j+1) from T(j) and F(j), in whose place they come; `moved` is of the round before.
    fn next_round(
        &self,
        abducible: &Words,
        moved: Moved,
        backing: &mut [u64; 513],
        next: &mut Words,
        held: &mut Words,
    ) -> Moved
        requires { FileDecoded self.now }
        ensures { Round (program_in self.now.file.now) abducible.now.t abducible.now.f moved result
            next.old.t next.new.t next.old.f next.new.f
            held.old.t held.new.t held.old.f held.new.f }
    {
        self.next_true(abducible, held, moved, &mut next.t);
        self.next_false(abducible, held, moved, backing, &mut next.f);
        let count = self.judged();
        Moved {
            t: replace_words(&mut held.t, &next.t, count),
            f: replace_words(&mut held.f, &next.f, count),
        }
    }

    // From J0, round after round until one changes no lane: T and F into two rows that are clear. The round count of each lane, which is the last
    // round that changed it.
    pub fn settle_words(&self, base: u32, held: &mut Words) -> [u64; 64]
        requires { FileDecoded self.now × (held.old.t ≡ replicate 513 0) × (held.old.f ≡ replicate 513 0) }
        ensures { SettledLanes (program_in self.now.file.now) base held.new.t held.new.f result
            × (NoneBeyond (judged (program_in self.now.file.now).atoms) held.new.t
            × NoneBeyond (judged (program_in self.now.file.now).atoms) held.new.f) }
    {
        let mut abducible = Words::CLEAR;
        abducible_lanes(
            self.file,
            self.contents,
            u64::from(base),
            &mut abducible.t,
            &mut abducible.f,
        );
        let mut backing = [0; 513];
        let mut next = Words::CLEAR;
        let mut moved = Moved { t: 1, f: 1 };
        let mut rounds = [0; 64];
        let mut round: u64 = 0;
        while moved.lanes() != 0 {
            moved = self.next_round(&abducible, moved, &mut backing, &mut next, held);
            round += 1;
            mark_lanes(moved.lanes(), round, &mut rounds);
        }
        rounds
    }

    // What F leaves: P, into a row.
    fn possible_words(&self, f: &[u64; 513], p: &mut [u64; 513])
        requires { FileDecoded self.now }
        ensures { Written (judged (program_in self.now.file.now).atoms) (other_word f.now) p.old p.new × Laned f.now }
    {
        complement_words(f, self.judged(), p);
    }

    pub fn settle(&self, base: u32) -> Settled
        requires { FileDecoded self.now }
        ensures { SettledLanes (program_in self.now.file.now) base result.model.t result.model.f result.rounds
            × HeldLanes (program_in self.now.file.now) base result.model.t result.model.p result.model.f }
    {
        let mut held = Words::CLEAR;
        let rounds = self.settle_words(base, &mut held);
        let mut p = [0; 513];
        self.possible_words(&held.f, &mut p);
        Settled {
            model: Model {
                t: held.t,
                p,
                f: held.f,
            },
            rounds,
        }
    }
}
