// Which of 64 scenarios that follow one another agree with the held faults: a lane for each scenario, base + l in lane l.
#![tactic(auto)]

pub mod runs;

ghost use Rattle.std.specs.Prelude.{◌≡◌, ◌≤◌, ◌<◌, eqb};
ghost use Rattle.papers.specs.Tests.{◌and◌};
ghost use Rattle.agreeing.specs.AgreeingLanes.{AgreeingLanes, KeptLanes, AgreeingRounds};

use digits::digit_lanes;
use held::Masks;
use lanes::words::in_lane;

// Whether no fault is held, so that every scenario agrees.
pub(crate) fn holds_none(held: Masks) -> bool
    ensures { result ≡ (eqb held.assumed 0 and eqb held.ruled 0) }
{
    held.assumed == 0 && held.ruled == 0
}

// The lanes of a word kept to those that agree at one fault, whose digit stands at a power of 3. Only one that is held costs its words of digits.
fn keep_agreeing(word: u64, base: u64, power: u64, assumed: bool, ruled: bool) -> u64
    requires { (0 < power) × (power ≤ 43046721) }
    ensures { KeptLanes base power assumed ruled word result }
{
    if !assumed && !ruled {
        return word;
    }
    let digits = digit_lanes(base, power);
    let mut kept = word;
    if assumed {
        kept &= digits.assumed;
    }
    if ruled {
        kept &= digits.ruled;
    }
    kept
}

// The lanes of the scenarios from `base` on that agree at the k abducibles.
pub fn agreeing_lanes(k: usize, base: u64, held: Masks) -> u64
    requires { k ≤ 16 }
    ensures { AgreeingLanes k held base result }
{
    if holds_none(held) {
        return u64::MAX;
    }
    let mut word = u64::MAX;
    let mut power: u64 = 1;
    // An index: bit i of either mask is of the i-th abducible.
    for i in 0..k {
        let assumed = in_lane(u64::from(held.assumed), i);
        let ruled = in_lane(u64::from(held.ruled), i);
        word = keep_agreeing(word, base, power, assumed, ruled);
        power *= 3;
    }
    word
}

// The round counts of the lanes that agree, and 0 in the others.
pub fn agreeing_rounds(word: u64, rounds: &[u64; 64]) -> [u64; 64]
    ensures { AgreeingRounds word rounds.now result }
{
    let mut after = [0; 64];
    for (l, rounds) in rounds.iter().enumerate() {
        if in_lane(word, l) {
            after[l] = *rounds;
        }
    }
    after
}
