// Which of 64 scenarios are explanations.
#![tactic(auto)]

ghost use Rattle.std.specs.Prelude.{◌≡◌, ◌≤◌};
ghost use Rattle.literals.specs.Numbering.{judged};
ghost use Rattle.papers.specs.Field.{numbers};
ghost use Rattle.papers.specs.Reading.{program_in};
ghost use Rattle.lanes.specs.Words.{Literals};
ghost use Rattle.verdicts.specs.VerdictLanes.{Stands, DecodedPapers, BothLanes, ExplainedWord, VerdictLanes};

use folds::RuleFile;
use lanes::words::body_word;
use preparing::prepare;
use settling::{DecodedFile, Words};

// The lanes in which one of the first literals is both true and false. A count: a row has room for the most literals of any file.
fn both_lanes(trues: &[u64; 513], falses: &[u64; 513], count: usize) -> u64
    requires { count ≤ 513 }
    ensures { BothLanes count trues.now falses.now result }
{
    let mut both = 0;
    for (t, f) in trues[..count].iter().zip(&falses[..count]) {
        both |= t & f;
    }
    both
}

// The lanes in which falsum is false and not true, each literal of the query holds, and no judged literal is both.
pub fn explained_lanes(query: &[u16], atoms: u16, trues: &[u64; 513], falses: &[u64; 513]) -> u64
    requires { (atoms ≤ 256) × Literals (judged atoms) query.now }
    ensures { ExplainedWord atoms query.now trues.now falses.now result }
{
    let falsum = literals::falsum(atoms).0;
    let lanes = !trues[falsum] & falses[falsum];
    let holding = body_word(query, trues, falses, lanes);
    let both = both_lanes(trues, falses, literals::judged(atoms));
    holding & !both
}

// What 64 scenarios come to: which are explanations, and the round count of each.
#[derive(Drop)]
pub struct Verdicts {
    pub explained: u64,
    pub rounds: [u64; 64],
}

// Accepted papers: a file with where its folds stand, the dual in its buffer, and the bytes of the query. Where each entry of the dual starts is a part of
// what the clauses say of it, and no ghost field holds data.
#[derive(Clone, Copy)]
pub struct AcceptedPapers<'a> {
    pub file: &'a RuleFile<'a>,
    pub dual: &'a [u8],
    pub query: &'a [u8],
}

// Room for the numbers of any papers.
#[derive(Drop)]
pub struct Room {
    rules: [u16; 23040],
    rule_visits: [u16; 1280],
    entries: [u16; 28000],
    entry_visits: [u16; 513],
    asked: [u16; 16],
}

impl Room {
    pub const CLEAR: Room = Room {
        rules: [0; 23040],
        rule_visits: [0; 1280],
        entries: [0; 28000],
        entry_visits: [0; 513],
        asked: [0; 16],
    };

    // The papers decoded into the room.
    pub fn decode<'a, 'b: 'a>(&'a mut self, papers: &AcceptedPapers<'b>) -> AskedFile<'a>
        requires { Stands papers.now }
        ensures { DecodedPapers result × (result.decoded.file.now ≡ papers.now.file.now.bytes.now)
            × (result.decoded.contents ≡ papers.now.file.now.contents) × (result.query.now ≡ numbers papers.now.query.now) }
    {
        let counts = prepare(
            papers.file,
            papers.dual,
            papers.query,
            &mut self.rules,
            &mut self.rule_visits,
            &mut self.entries,
            &mut self.entry_visits,
            &mut self.asked,
        );
        AskedFile {
            decoded: DecodedFile {
                file: papers.file.bytes,
                contents: papers.file.contents,
                rules: &self.rules,
                rule_visits: &self.rule_visits[..counts.folds],
                entries: &self.entries,
                entry_visits: &self.entry_visits[..counts.judged],
            },
            query: &self.asked[..counts.asked],
        }
    }
}

// A decoded file, and the numbers of the query that is asked of it.
#[derive(Clone, Copy)]
pub struct AskedFile<'a> {
    pub decoded: DecodedFile<'a>,
    pub query: &'a [u16],
}

impl AskedFile<'_> {
    pub fn judge_lanes(&self, base: u32) -> Verdicts
        requires { DecodedPapers self.now }
        ensures { VerdictLanes (program_in self.now.decoded.file.now) self.now.query.now base result.explained result.rounds }
    {
        let mut held = Words::CLEAR;
        let rounds = self.decoded.settle_words(base, &mut held);
        let explained = explained_lanes(self.query, self.decoded.contents.atoms, &held.t, &held.f);
        Verdicts { explained, rounds }
    }
}
