// Judging one scenario of two papers.
#![tactic(auto)]

ghost use Rattle.std.specs.Prelude.{◌≡◌};
ghost use Rattle.papers.specs.Reading.{read_papers};
ghost use Rattle.judging.specs.declared.JudgeError.TheVariants.{Refused};
ghost use Rattle.judging.specs.Judging.{judge_error, Judges};

use dual_writer::{DualError, write_accepted};
use folds::RuleFile;
use model::scenario_count;
use papers::Refusal;
pub use valuation::Verdict;
use valuation::judge_accepted;
use verdicts::AcceptedPapers;

// What refuses judging: document 01's refusals 11, 12 and 13, or one of the papers'.
#[derive(Clone, Copy, PartialEq, Eq, Debug)]
pub enum JudgeError {
    ShortDual,
    ShortModel,
    NoScenario,
    Refused(Refusal),
}

impl From<Refusal> for JudgeError {
    ghost from_gives = { λ refusal e. e ≡ Refused refusal };

    fn from(refusal: Refusal) -> JudgeError {
        JudgeError::Refused(refusal)
    }
}

impl From<DualError> for JudgeError {
    ghost from_gives = { λ unwritten e. e ≡ judge_error unwritten };

    fn from(unwritten: DualError) -> JudgeError {
        match unwritten {
            DualError::Short => JudgeError::ShortDual,
            DualError::Refused(refusal) => JudgeError::Refused(refusal),
        }
    }
}

pub fn judge(
    file: &[u8],
    sheet: &[u8],
    scenario: u32,
    dual: &mut [u8],
    model: &mut [u8],
) -> Result<Verdict, JudgeError>
    ensures { Judges (read_papers file.now sheet.now) scenario dual.old model.old
        result dual.new model.new }
{
    let (contents, literals) = reading::read_papers(file, sheet)?;
    let room = literals::judged(contents.atoms) <= model.len();
    let listed = scenario < scenario_count(contents.abducibles);
    let accepted = RuleFile::new(file, contents);
    write_accepted(&accepted, dual, room && listed)?;
    if !room {
        return Err(JudgeError::ShortModel);
    }
    if !listed {
        return Err(JudgeError::NoScenario);
    }
    let papers = AcceptedPapers {
        file: &accepted,
        dual,
        query: &sheet[3..3 + 2 * literals],
    };
    Ok(judge_accepted(&papers, scenario, model))
}
