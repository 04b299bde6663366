// A call over accepted papers: runs of scenarios that do not agree with the held faults are passed over, the others judged up to 64 at a time and tried
// one by one.
#![tactic(auto)]

ghost use Rattle.std.specs.Prelude.{◌≡◌, ◌+◌, ◌≤◌, ◌<◌};
ghost use Rattle.papers.specs.Field.{numbers};
ghost use Rattle.steps.specs.Continuing.{state_by};
ghost use Rattle.stepping.specs.Stepping.{Batch, Tried};
ghost use Rattle.verdicts.specs.VerdictLanes.{DecodedPapers};
ghost use Rattle.trying.specs.Trying.{problem_in, problem_held, report_by, untried, span_of, passed_over, LanesJudged, Next, Ready, Passed, Continues};

use agreeing::runs::disagreeing_run;
use agreeing::{agreeing_lanes, agreeing_rounds};
use held::{Masks, SearchRecord};
use stepping::{Progress, try_lanes};
use steps::{Record, State};
use verdicts::{AcceptedPapers, AskedFile, Room, Verdicts};

// What a call reports: the new record, the scenarios tried and their rounds, and the state.
#[derive(Clone, Copy)]
pub struct Report {
    pub new: SearchRecord,
    pub tried: u32,
    pub rounds: u64,
    pub state: State,
}

// How many scenarios come next, at most so many.
fn batch_size(most: u32, tried: u32, allowance: u32, position: u32, total: u32) -> u32
    requires { (0 < most) × (tried ≤ allowance) × (position ≤ total) }
    ensures { Batch most tried allowance position total result }
{
    most.min(allowance - tried).min(total - position)
}

// How many scenarios can be tried at once: all of a run of which none agrees, and else as many as there are lanes.
// A run of 0 is one of no scenario, and none that is missing.
fn span(run: u32) -> u32
    ensures { result ≡ span_of run }
{
    if run == 0 { 64 } else { run }
}

// So many scenarios of which none agrees: they count as tried with zero rounds.
fn passed_over(count: u32, before: Progress) -> Progress
    requires { (before.position + count < 4294967296) × (before.tried + count < 4294967296) }
    ensures { result ≡ passed_over count before }
{
    Progress {
        position: before.position + count,
        tried: before.tried + count,
        ..before
    }
}

// A search over decoded papers with some faults held, where there are `total` scenarios. What it needs is of a call's progress too, so the clauses say it.
#[derive(Clone, Copy)]
struct Search<'a> {
    papers: AskedFile<'a>,
    held: Masks,
    total: u32,
}

impl Search<'_> {
    // The scenarios from `base` on, judged together.
    fn judge_agreeing(&self, base: u32) -> Verdicts
        requires { DecodedPapers self.now.papers }
        ensures { LanesJudged (problem_held self.now) self.now.papers.decoded.contents.abducibles base result }
    {
        let agreeing = agreeing_lanes(
            self.papers.decoded.contents.abducibles,
            u64::from(base),
            self.held,
        );
        let verdicts = self.papers.judge_lanes(base);
        if agreeing == u64::MAX {
            return verdicts;
        }
        Verdicts {
            explained: verdicts.explained & agreeing,
            rounds: agreeing_rounds(agreeing, &verdicts.rounds),
        }
    }

    // The next scenarios, judged together.
    fn try_batch(&self, list: &mut [u32], count: u32, before: Progress) -> Progress
        requires { Ready self.now count before list.old × (count ≤ 64) }
        ensures { Tried (problem_held self.now) self.now.total count before list.old result list.new }
    {
        let verdicts = self.judge_agreeing(before.position);
        try_lanes(
            list,
            self.papers.decoded.contents.abducibles,
            self.total,
            verdicts.explained,
            &verdicts.rounds,
            count as usize,
            before,
        )
    }

    // The next scenarios: those of a run of which none agrees are passed over, and else they are judged, the first of which agrees.
    fn try_next(&self, run: u32, list: &mut [u32], count: u32, before: Progress) -> Progress
        requires { Ready self.now count before list.old
            × Next self.now.papers.decoded.contents.abducibles self.now.held self.now.total run count before }
        ensures { Tried (problem_held self.now) self.now.total count before list.old result list.new }
    {
        if run > 0 {
            return passed_over(count, before);
        }
        self.try_batch(list, count, before)
    }

    // All that a call tries.
    fn try_all(&self, list: &mut [u32], allowance: u32, before: Progress) -> Progress
        requires { Ready self.now allowance before list.old × (before.tried ≡ 0) }
        ensures { Tried (problem_held self.now) self.now.total allowance before list.old result list.new }
    {
        let mut reached = before;
        loop {
            let run = disagreeing_run(
                self.papers.decoded.contents.abducibles,
                reached.position,
                self.held,
            );
            let count = batch_size(
                span(run),
                reached.tried,
                allowance,
                reached.position,
                self.total,
            );
            if count == 0 {
                return reached;
            }
            let aim = reached.tried + count;
            reached = self.try_next(run, list, count, reached);
            if reached.tried < aim {
                return reached;
            }
        }
    }
}

// The state that a call reports, where there are `total` scenarios.
#[tactic(auto, unfolding(steps::specs::Continuing::state_by))]
fn state_of(total: u32, allowance: u32, position: u32, tried: u32) -> State
    ensures { result ≡ state_by total allowance position tried }
{
    if position == total {
        State::Ended
    } else if tried < allowance {
        State::Full
    } else {
        State::Going
    }
}

// What a call reports that came so far.
fn report_of(total: u32, allowance: u32, held: Masks, reached: Progress) -> Report
    ensures { result ≡ report_by total allowance held reached }
{
    let at = Record {
        position: reached.position,
        found: reached.found,
    };
    Report {
        new: SearchRecord { at, held },
        tried: reached.tried,
        rounds: reached.rounds,
        state: state_of(total, allowance, reached.position, reached.tried),
    }
}

// A call that has tried nothing yet.
fn untried(from: Record) -> Progress
    ensures { result ≡ untried from }
{
    Progress {
        position: from.position,
        found: from.found,
        tried: 0,
        rounds: 0,
    }
}

// A call on a record and a list that pass test 14: the papers are decoded, and their scenarios tried. Where nothing may be tried, nothing is decoded.
pub fn search_accepted(
    papers: &AcceptedPapers,
    list: &mut [u32],
    total: u32,
    from: SearchRecord,
    allowance: u32,
) -> Report
    requires { Passed papers.now total from list.old }
    ensures { Continues (problem_in papers.now.file.now.bytes.now (numbers papers.now.query.now)) allowance from list.old result list.new }
{
    let before = untried(from.at);
    if allowance == 0 {
        return report_of(total, allowance, from.held, before);
    }
    let mut room = Room::CLEAR;
    let search = Search {
        papers: room.decode(papers),
        held: from.held,
        total,
    };
    let reached = search.try_all(list, allowance, before);
    report_of(total, allowance, from.held, reached)
}
