// A search that goes on until it ends or its list is full.
ghost use Rattle.std.specs.Prelude.{◌≡◌, ◌≤◌, length};
ghost use Rattle.papers.specs.Reading.{read_papers};
ghost use Rattle.printout.specs.DeskSearch.{Accepted, problem_on, Stands, GoneOn, Finished};

use held::SearchRecord;
use steps::State;

// The record that the calls reached, the sums over them, and the last one's state.
#[derive(Clone, Copy)]
pub(crate) struct Progress {
    pub reached: SearchRecord,
    pub tried: u64,
    pub rounds: u64,
    pub state: State,
}

impl Progress {
    // One call, with an allowance of 4,096. It reports: the papers are accepted, the buffer is long enough, the search is not spoilt.
    fn go_on(self, file: &[u8], sheet: &[u8], dual: &mut [u8], list: &mut [u32]) -> Progress
        requires { Accepted (read_papers file.now sheet.now)
            × ((52488 ≤ length dual.old) × Stands (problem_on file.now sheet.now) list.old self) }
        ensures { Stands (problem_on file.now sheet.now) list.new result
            × GoneOn (problem_on file.now sheet.now) (length list.old) self result }
    {
        let report = search::continue_search(file, sheet, dual, list, self.reached, 4096).unwrap();
        Progress {
            reached: report.new,
            tried: self.tried + u64::from(report.tried),
            rounds: self.rounds + report.rounds,
            state: report.state,
        }
    }
}

pub(crate) fn search_all(file: &[u8], sheet: &[u8], dual: &mut [u8], list: &mut [u32]) -> Progress
    requires { Accepted (read_papers file.now sheet.now) × (52488 ≤ length dual.old) }
    ensures { Stands (problem_on file.now sheet.now) list.new result
        × Finished (problem_on file.now sheet.now) (length list.old) result }
{
    let mut progress = Progress {
        reached: fresh::fresh(file, 0, 0).unwrap(),
        tried: 0,
        rounds: 0,
        state: State::Going,
    };
    while progress.state == State::Going {
        progress = progress.go_on(file, sheet, dual, list);
    }
    progress
}
