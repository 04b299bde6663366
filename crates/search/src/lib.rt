// The search for minimal explanations.
#![tactic(auto)]

ghost use Rattle.std.specs.Prelude.{◌≡◌};
ghost use Rattle.papers.specs.Reading.{read_papers};
ghost use Rattle.papers.specs.Told.{tells, read_told, papers_of};
ghost use Rattle.search.specs.declared.ContinueError.TheVariants.{Refused};
ghost use Rattle.search.specs.Searching.{Answers, dual_error};

use dual_writer::{DualError, write_accepted};
use folds::RuleFile;
use held::{SearchRecord, is_spoilt_search};
use model::scenario_count;
use papers::{Contents, Refusal};
use trying::{Report, search_accepted};
use verdicts::AcceptedPapers;

// What refuses a call that continues: document 01's refusals 11 and 14, or one of the papers'.
#[derive(Clone, Copy, PartialEq, Eq, Debug)]
pub enum ContinueError {
    ShortDual,
    SpoiltSearch,
    Refused(Refusal),
}

impl From<Refusal> for ContinueError {
    ghost from_gives = { λ refusal e. e ≡ Refused refusal };

    fn from(refusal: Refusal) -> ContinueError {
        ContinueError::Refused(refusal)
    }
}

impl From<DualError> for ContinueError {
    ghost from_gives = { λ error e. e ≡ dual_error error };

    fn from(error: DualError) -> ContinueError {
        match error {
            DualError::Short => ContinueError::ShortDual,
            DualError::Refused(refusal) => ContinueError::Refused(refusal),
        }
    }
}

// Both papers are accepted, the query with so many literals. What C lends comes one by one.
fn continue_accepted(
    file: &[u8],
    sheet: &[u8],
    contents: Contents,
    literals: usize,
    dual: &mut [u8],
    list: &mut [u32],
    from: SearchRecord,
    allowance: u32,
) -> Result<Report, ContinueError>
    requires { read_told papers_of (read_papers file.now sheet.now) ≡ tells (contents, literals) }
    ensures { Answers (read_papers file.now sheet.now) allowance dual.old from list.old
        result dual.new list.new }
{
    let total = scenario_count(contents.abducibles);
    let spoilt = is_spoilt_search(list, from, contents.abducibles, total);
    let accepted = RuleFile::new(file, contents);
    write_accepted(&accepted, dual, !spoilt)?;
    if spoilt {
        return Err(ContinueError::SpoiltSearch);
    }
    let end = 3 + 2 * literals;
    let papers = AcceptedPapers {
        file: &accepted,
        dual,
        query: &sheet[3..end],
    };
    Ok(search_accepted(&papers, list, total, from, allowance))
}

pub fn continue_search(
    file: &[u8],
    sheet: &[u8],
    dual: &mut [u8],
    list: &mut [u32],
    from: SearchRecord,
    allowance: u32,
) -> Result<Report, ContinueError>
    ensures { Answers (read_papers file.now sheet.now) allowance dual.old from list.old
        result dual.new list.new }
{
    let (contents, literals) = reading::read_papers(file, sheet)?;
    continue_accepted(file, sheet, contents, literals, dual, list, from, allowance)
}
