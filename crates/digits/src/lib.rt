// The digits of 64 scenarios that follow one another, as words: a lane for each scenario.
#![tactic(auto)]

ghost use Rattle.std.specs.Prelude.{◌≡◌, ◌<◌, ◌≤◌, set};
ghost use Rattle.literals.specs.Numbering.{positive, negative, judged};
ghost use Rattle.papers.specs.Reading.{read_file, program_in};
ghost use Rattle.papers.specs.Answers.{contents_of};
ghost use Rattle.papers.specs.Told.{tells, read_told};
ghost use Rattle.lanes.specs.Lanes.{KeptFrom};
ghost use Rattle.digits.specs.Digits.{LanesBelow, RunLanes, DigitLanes, AbducibleLanes};

use literals::Atom;
use numbered::atom_at;
use papers::Contents;
use sets::fill_words;

// The lanes below this one.
fn lanes_below(lane: u64) -> u64
    ensures { LanesBelow lane result }
{
    if lane < 64 { (1 << lane) - 1 } else { u64::MAX }
}

// The lanes of a run: from its first one to the one before `end`.
#[tactic(auto, using(crate::proofs::DigitLaws::run_between))]
fn run_lanes(first: u64, end: u64) -> u64
    ensures { RunLanes first end result }
{
    lanes_below(end) & !lanes_below(first)
}

// The lanes of the scenarios that have digit 1 at a power of 3, and those that have digit 2.
#[derive(Clone, Copy)]
pub struct DigitWords {
    pub assumed: u64,
    pub ruled: u64,
}

// Those of the scenarios from `base` on, run by run: as many scenarios as the power says have the same digit, so no lane asks for a division. Of
// the first run those that come before `base` are left out.
pub fn digit_lanes(base: u64, power: u64) -> DigitWords
    requires { (0 < power) × (power ≤ 43046721) }
    ensures { DigitLanes base power 1 result.assumed × DigitLanes base power 2 result.ruled }
{
    let mut assumed: u64 = 0;
    let mut ruled: u64 = 0;
    let mut digit = base / power % 3;
    let mut left = power - base % power;
    let mut lane: u64 = 0;
    // A run at a time, and the first may be a shorter one.
    while lane < 64 {
        let run = run_lanes(lane, lane + left);
        if digit == 1 {
            assumed |= run;
        }
        if digit == 2 {
            ruled |= run;
        }
        // A sum: `%` would be a multiplication in each turn.
        digit = if digit < 2 { digit + 1 } else { 0 };
        lane += left;
        left = power;
    }
    DigitWords { assumed, ruled }
}

// The words of an atom and of its negation.
fn put_words(row: &mut [u64; 513], atom: Atom, itself: u64, negation: u64)
    requires { negative atom.0 < 513 }
    ensures { row.new ≡ set (set row.old (positive atom.0) itself) (negative atom.0) negation }
{
    row[literals::positive(atom).0] = itself;
    row[literals::negative(atom).0] = negation;
}

// The true and the false abducible literals of 64 scenarios, in the words of the judged literals. Where the file's folds stand is not asked.
pub fn abducible_lanes(
    file: &[u8],
    contents: Contents,
    base: u64,
    trues: &mut [u64; 513],
    falses: &mut [u64; 513],
)
    requires { (read_told contents_of (read_file file.now) ≡ tells contents) × (base < 4294967296) }
    ensures { AbducibleLanes (program_in file.now) base trues.new falses.new
        × KeptFrom (judged (program_in file.now).atoms) trues.old trues.new
        × KeptFrom (judged (program_in file.now).atoms) falses.old falses.new }
{
    let judged = literals::judged(contents.atoms);
    fill_words(trues, judged, 0);
    fill_words(falses, judged, 0);
    let end = 12 + 2 * contents.abducibles;
    let mut power: u64 = 1;
    for pair in file[12..end].chunks_exact(2) {
        let atom = atom_at(pair, 0);
        let words = digit_lanes(base, power);
        put_words(trues, atom, words.assumed, words.ruled);
        put_words(falses, atom, words.ruled, words.assumed);
        power *= 3;
    }
}
