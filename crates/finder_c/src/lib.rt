// The boundary for C and Rust. Each function writes its answer into eight words of the caller's, as
// include/finder.h says.
#![tactic(auto)]

ghost use Rattle.std.specs.Prelude.{◌≡◌, length};
ghost use Rattle.papers.specs.Reading.{read_file, read_papers};
ghost use Rattle.papers.specs.Told.{fault_number, bare_number};
ghost use Rattle.dual_writer.specs.WrittenDual.{written_told, dual_told, dual_after};
ghost use Rattle.text.specs.Told.{text_fault_number};
ghost use Rattle.text.specs.Importing.{import_text};
ghost use Rattle.importing.specs.Imports.{imported_told, import_told, import_after};
ghost use Rattle.judging.specs.Judging.{judged_told};
ghost use Rattle.held.specs.Masks.{masks};
ghost use Rattle.fresh.specs.Beginning.{begun_told, fresh_told};
ghost use Rattle.search.specs.Searching.{continued_told};
ghost use Rattle.finder_c.specs.AnswerWords.{paper_number, state_number, record_of, two, accepted_words, bare_words, refusal_words};
ghost use Rattle.finder_c.specs.AnswerWords.{
  dual_words,
  text_words,
  import_words,
  judged_words,
  fresh_words,
  report_words,
  continued_words,
  rest_left,
  JudgeLeaves,
  ContinueLeaves,
};

use dual_writer::DualError;
use fresh::FreshError;
use held::{Masks, SearchRecord};
use importing::ImportError;
use judging::{JudgeError, Verdict};
use papers::{Bare, Paper, Refusal};
use search::ContinueError;
use steps::{Record, State};
use text::TextRefusal;
use trying::Report;

// Word 1 of a refusal of a text; that of a paper is `paper_number`.
const TEXT: u64 = 2;

// By hand, as `state_number`: the numbers are those of include/finder.h.
fn paper_number(paper: Paper) -> u64
    ensures { result ≡ paper_number paper }
{
    match paper {
        Paper::File => 0,
        Paper::Sheet => 1,
    }
}

// An accepted call's values are words 3 to 7.
fn accepted_words(values: [u64; 5]) -> [u64; 8]
    ensures { result ≡ accepted_words values }
{
    let [third, fourth, fifth, sixth, seventh] = values;
    [0, 0, 0, third, fourth, fifth, sixth, seventh]
}

fn bare_words(bare: Bare, third: u64, fourth: u64) -> [u64; 8]
    ensures { result ≡ bare_words (bare_number bare) (two third fourth) }
{
    let number = u64::from(bare.number());
    [number, 0, 0, third, fourth, 0, 0, 0]
}

fn refusal_words(refusal: Refusal, third: u64, fourth: u64) -> [u64; 8]
    ensures { result ≡ refusal_words (fault_number refusal.fault) refusal.paper refusal.place (two third fourth) }
{
    let number = u64::from(refusal.fault.number());
    let paper = paper_number(refusal.paper);
    let place = refusal.place as u64;
    [number, paper, place, third, fourth, 0, 0, 0]
}

#[unsafe(no_mangle)]
pub extern "C" fn finder_rest<'a>(file: &'a [u8], sheet: &'a [u8], out: &mut [u64; 8])
    ensures { out.new ≡ rest_left file.now sheet.now }
{
    *out = match reading::read_papers(file, sheet) {
        Ok(_) => [0; 8],
        Err(refusal) => refusal_words(refusal, rest::rest_of_paper(file, sheet).len() as u64, 0),
    };
}

#[tactic(auto, unfolding(dual_writer::specs::WrittenDual::written_told, papers::specs::Told::bare_told, papers::specs::Told::refusal_told))]
fn dual_words(written: Result<usize, DualError>) -> [u64; 8]
    ensures { result ≡ dual_words (written_told written) }
{
    match written {
        Ok(dual_length) => accepted_words([dual_length as u64, 0, 0, 0, 0]),
        Err(DualError::Short) => bare_words(Bare::ShortDual, 0, 0),
        Err(DualError::Refused(refusal)) => refusal_words(refusal, 0, 0),
    }
}

#[unsafe(no_mangle)]
pub extern "C" fn finder_write_dual(file: &[u8], dual: &mut [u8], out: &mut [u64; 8])
    ensures { (out.new ≡ dual_words (dual_told (read_file file.now) (length dual.old)))
        × (dual.new ≡ dual_after (read_file file.now) dual.old) }
{
    *out = dual_words(dual_writer::write_dual(file, dual));
}

fn text_words(refusal: TextRefusal) -> [u64; 8]
    ensures { result ≡ text_words (text_fault_number refusal.fault) refusal.place }
{
    let number = u64::from(refusal.fault.number());
    let place = refusal.place as u64;
    [number, TEXT, place, 0, 0, 0, 0, 0]
}

#[tactic(auto, unfolding(importing::specs::Imports::imported_told))]
fn import_words(imported: Result<usize, ImportError>) -> [u64; 8]
    ensures { result ≡ import_words (imported_told imported) }
{
    match imported {
        Ok(file_length) => accepted_words([file_length as u64, 0, 0, 0, 0]),
        Err(ImportError::Short) => bare_words(Bare::ShortDual, 0, 0),
        Err(ImportError::Refused(refusal)) => text_words(refusal),
    }
}

#[unsafe(no_mangle)]
pub extern "C" fn finder_import(text: &[u8], file: &mut [u8], out: &mut [u64; 8])
    ensures { (out.new ≡ import_words (import_told (import_text text.now) (length file.old)))
        × (file.new ≡ import_after (import_text text.now) file.old) }
{
    *out = import_words(importing::import_text(text, file));
}

#[tactic(auto, unfolding(judging::specs::Judging::judged_told, papers::specs::Told::bare_told, papers::specs::Told::refusal_told))]
fn judged_words(judged: Result<Verdict, JudgeError>) -> [u64; 8]
    ensures { result ≡ judged_words (judged_told judged) }
{
    match judged {
        Ok(verdict) => accepted_words([u64::from(verdict.explains), verdict.rounds, 0, 0, 0]),
        Err(JudgeError::ShortDual) => bare_words(Bare::ShortDual, 0, 0),
        Err(JudgeError::ShortModel) => bare_words(Bare::ShortModel, 0, 0),
        Err(JudgeError::NoScenario) => bare_words(Bare::NoScenario, 0, 0),
        Err(JudgeError::Refused(refusal)) => refusal_words(refusal, 0, 0),
    }
}

#[unsafe(no_mangle)]
pub extern "C" fn finder_judge(
    file: &[u8],
    sheet: &[u8],
    scenario: u32,
    dual: &mut [u8],
    model: &mut [u8],
    out: &mut [u64; 8],
)
    ensures { JudgeLeaves (read_papers file.now sheet.now) scenario dual.old model.old
        dual.new model.new out.new }
{
    *out = judged_words(judging::judge(file, sheet, scenario, dual, model));
}

#[tactic(auto, unfolding(fresh::specs::Beginning::begun_told, papers::specs::Told::bare_told, papers::specs::Told::refusal_told))]
fn fresh_words(begun: Result<SearchRecord, FreshError>) -> [u64; 8]
    ensures { result ≡ fresh_words (begun_told begun) }
{
    match begun {
        Ok(SearchRecord { at, held }) => accepted_words([
            u64::from(at.position),
            u64::from(at.found),
            u64::from(held.assumed),
            u64::from(held.ruled),
            0,
        ]),
        Err(FreshError::SharedBit) => bare_words(Bare::SharedBit, 0, 0),
        Err(FreshError::UnlistedBit) => bare_words(Bare::UnlistedBit, 0, 0),
        Err(FreshError::Refused(refusal)) => refusal_words(refusal, 0, 0),
    }
}

#[unsafe(no_mangle)]
pub extern "C" fn finder_fresh(file: &[u8], assumed: u16, ruled: u16, out: &mut [u64; 8])
    ensures { out.new ≡ fresh_words (fresh_told (read_file file.now) (masks assumed ruled)) }
{
    *out = fresh_words(fresh::fresh(file, assumed, ruled));
}

fn state_number(state: State) -> u64
    ensures { result ≡ state_number state }
{
    match state {
        State::Going => 0,
        State::Full => 1,
        State::Ended => 2,
    }
}

fn report_words(report: Report) -> [u64; 8]
    ensures { result ≡ accepted_words (report_words report) }
{
    let at = report.new.at;
    accepted_words([
        u64::from(at.position),
        u64::from(at.found),
        u64::from(report.tried),
        report.rounds,
        state_number(report.state),
    ])
}

#[tactic(auto, unfolding(search::specs::Searching::continued_told, papers::specs::Told::bare_told, papers::specs::Told::refusal_told))]
fn continued_words(from: SearchRecord, continued: Result<Report, ContinueError>) -> [u64; 8]
    ensures { result ≡ continued_words from (continued_told continued) }
{
    let position = u64::from(from.at.position);
    let found = u64::from(from.at.found);
    match continued {
        Ok(report) => report_words(report),
        Err(ContinueError::ShortDual) => bare_words(Bare::ShortDual, position, found),
        Err(ContinueError::SpoiltSearch) => bare_words(Bare::SpoiltSearch, position, found),
        Err(ContinueError::Refused(refusal)) => refusal_words(refusal, position, found),
    }
}

#[unsafe(no_mangle)]
pub extern "C" fn finder_continue(
    file: &[u8],
    sheet: &[u8],
    dual: &mut [u8],
    list: &mut [u32],
    position: u32,
    found: u32,
    assumed: u16,
    ruled: u16,
    allowance: u32,
    out: &mut [u64; 8],
)
    ensures { ContinueLeaves (read_papers file.now sheet.now) allowance dual.old
        (record_of position found assumed ruled) list.old dual.new list.new out.new }
{
    let from = SearchRecord {
        at: Record { position, found },
        held: Masks { assumed, ruled },
    };
    *out = continued_words(
        from,
        search::continue_search(file, sheet, dual, list, from, allowance),
    );
}
