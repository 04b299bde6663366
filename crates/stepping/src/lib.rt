// The single steps of a search as code makes them: what a step does, and the steps of up to 64 scenarios.
#![tactic(auto)]

mod contained;
mod digitwise;

ghost use Rattle.std.specs.Prelude.{◌≡◌, ◌≤◌, ◌<◌, ◌^◌, length};
ghost use Rattle.stepping.specs.Stepping.{Decided, LanesReady, LanesTried};

use contained::new_lanes;
use digitwise::contains_one;
use lanes::words::in_lane;

// What a step does.
#[derive(Clone, Copy, PartialEq, Eq, Debug)]
pub enum Move {
    Stands,
    Tries,
    Writes,
}

// What the step at a position does, where its scenario is an explanation new to the first entries or not: those after them are still to compare.
fn decide(
    k: usize,
    total: u32,
    list: &[u32],
    position: u32,
    first: usize,
    found: usize,
    new: bool,
) -> Move
    requires { (total ≡ 3 ^ k) × (first ≤ found) × (found ≤ length list.now) }
    ensures { Decided k position first found list.now new result }
{
    if position == total {
        return Move::Stands;
    }
    if !new || contains_one(k, &list[first..found], position) {
        return Move::Tries;
    }
    if found < list.len() {
        return Move::Writes;
    }
    Move::Stands
}

// How far a call has come: its record, and what it has counted.
#[derive(Clone, Copy, PartialEq, Eq, Debug)]
pub struct Progress {
    pub position: u32,
    pub found: u32,
    pub tried: u32,
    pub rounds: u64,
}

// The steps of up to 64 scenarios, from the position on: lane l of `explained` says whether scenario l of them is an explanation, and
// `rounds` has its round count. The entries found before are compared with all of them at once.
pub fn try_lanes(
    list: &mut [u32],
    k: usize,
    total: u32,
    explained: u64,
    rounds: &[u64; 64],
    count: usize,
    before: Progress,
) -> Progress
    requires { LanesReady k total rounds.now count before list.old }
    ensures { LanesTried k total explained rounds.now count before list.old result list.new }
{
    let found = before.found as usize;
    let new = new_lanes(k, &list[..found], before.position, count, explained);
    let mut reached = before;
    for (lane, rounds) in rounds[..count].iter().enumerate() {
        let unlisted = in_lane(new.lanes, lane);
        let at = reached.found as usize;
        let step = decide(k, total, list, reached.position, new.entries, at, unlisted);
        match step {
            Move::Stands => return reached,
            Move::Tries => {}
            Move::Writes => {
                list[at] = reached.position;
                reached.found += 1;
            }
        }
        reached.position += 1;
        reached.tried += 1;
        reached.rounds += *rounds;
    }
    reached
}
