// All that the desk program prints: the search to its end, and the lines.
#![tactic(auto)]

mod searching;

ghost use Rattle.std.specs.Prelude.{◌≡◌, ◌≤◌, ◌<◌, ◌^◌, length};
ghost use Rattle.papers.specs.Field.{numbers};
ghost use Rattle.papers.specs.Reading.{read_papers};
ghost use Rattle.decimals.specs.Text.{Put};
ghost use Rattle.decimals.specs.Printing.{Printed};
ghost use Rattle.printout.specs.DeskSearch.{AcceptedAs};
ghost use Rattle.printout.specs.Output.{found_lines, desk_text};

use decimals::Printer;
use model::scenario_count;
use papers::{Contents, Refusal};
use searching::search_all;

// The lines of the found entries.
fn write_found_lines(page: &mut Printer, entries: &[u32], abducibles: &[u8])
    requires { (page.old.at ≤ 512) × ((length entries.now ≤ 1024) × (length abducibles.now ≤ 32)) }
    ensures lines { Printed (found_lines (numbers abducibles.now) entries.now) page.old page.new }
    ensures short { page.new.at < 2 ^ 32 }
{
    for &entry in entries {
        found_lines::write_found(page, entry, abducibles);
    }
}

// Both papers are accepted. They are handed on as they were lent: each call of the search reads them.
fn write_accepted(
    page: &mut Printer,
    file: &[u8],
    sheet: &[u8],
    contents: Contents,
    dual: &mut [u8],
    list: &mut [u32],
)
    requires accepted { AcceptedAs (read_papers file.now sheet.now) contents }
    requires room { (52488 ≤ length dual.old) × (length list.old ≡ 1024) }
    requires start { page.old.at ≡ 0 }
    ensures text { Printed (desk_text (read_papers file.now sheet.now)) page.old page.new }
    ensures short { page.new.at ≤ 98304 }
{
    let count = contents.abducibles;
    let abducibles = &file[12..12 + 2 * count];
    let progress = search_all(file, sheet, dual, list);
    let found = progress.reached.at.found as usize;
    let total = scenario_count(count);
    report::write_heading(
        page,
        u64::from(contents.atoms),
        count as u64,
        u64::from(total),
    );
    write_found_lines(page, &list[..found], abducibles);
    report::write_last(page, progress.state, progress.tried, progress.rounds);
}

fn write_text(page: &mut Printer, file: &[u8], sheet: &[u8], dual: &mut [u8], list: &mut [u32])
    requires room { (52488 ≤ length dual.old) × (length list.old ≡ 1024) }
    requires start { page.old.at ≡ 0 }
    ensures text { Printed (desk_text (read_papers file.now sheet.now)) page.old page.new }
    ensures short { page.new.at ≤ 98304 }
{
    match reading::read_papers(file, sheet) {
        Ok((contents, _)) => write_accepted(page, file, sheet, contents, dual, list),
        Err(
            Refusal {
                fault,
                paper,
                place,
            },
        ) => report::write_refused(page, fault.number(), paper, place),
    }
}

pub fn write_report(
    file: &[u8],
    sheet: &[u8],
    dual: &mut [u8],
    list: &mut [u32],
    out: &mut [u8],
) -> usize
    requires { (52488 ≤ length dual.old) × (length list.old ≡ 1024) }
    ensures { Put 0 (desk_text (read_papers file.now sheet.now)) out.old result out.new × (result ≤ 98304) }
{
    let mut page = Printer::new(out);
    write_text(&mut page, file, sheet, dual, list);
    page.place()
}
