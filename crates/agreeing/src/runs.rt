// How far the scenarios from one on do not agree with the held faults.
ghost use Rattle.std.specs.Prelude.{◌≡◌, not, ◌≤◌};
ghost use Rattle.papers.specs.Tests.{◌and◌};
ghost use Rattle.held.specs.Masks.{keeps};
ghost use Rattle.agreeing.specs.DisagreeingRuns.{DisagreeingRun};

use crate::holds_none;
use held::Masks;
use lanes::words::in_lane;

// Whether a scenario with this digit does not agree at a fault, held as assumed or not, as ruled out or not.
fn disagrees(assumed: bool, ruled: bool, own: u32) -> bool
    ensures { result ≡ not (keeps assumed 1 own and keeps ruled 2 own) }
{
    assumed && own != 1 || ruled && own != 2
}

// How many scenarios from one on have, at the highest held fault at which it does not agree, the same digit as it has: none of them agrees. 0 where it
// agrees.
pub fn disagreeing_run(k: usize, scenario: u32, held: Masks) -> u32
    requires { k ≤ 16 }
    ensures { DisagreeingRun k held scenario result }
{
    if holds_none(held) {
        return 0;
    }
    let mut run: u32 = 0;
    let mut power: u32 = 1;
    // An index: bit i of either mask is of the i-th abducible.
    for i in 0..k {
        let digit = scenario / power % 3;
        let assumed = in_lane(u64::from(held.assumed), i);
        let ruled = in_lane(u64::from(held.ruled), i);
        if disagrees(assumed, ruled, digit) {
            run = power - scenario % power;
        }
        power *= 3;
    }
    run
}
