// The two papers: which bytes are a rule file and a query sheet, and under which number and place
// any others are refused.
#![tactic(auto)]

mod file;

ghost use Rattle.std.specs.Prelude.{◌≡◌, length};
ghost use Rattle.papers.specs.Reading.{read_file, read_sheet, read_papers};
ghost use Rattle.papers.specs.Answers.{contents_of};
ghost use Rattle.papers.specs.Told.{read_told, result_told, papers_of};

use content::check_literals;
use fields::read_field;
use file::{read_abducibles, read_atoms, read_edition, read_end, read_rules};
use papers::{Contents, Paper, Refusal, tags};

// The file alone. Each field read is taken apart as in `file`.
pub fn read_file(file: &[u8]) -> Result<Contents, Refusal>
    ensures { result_told result ≡ read_told contents_of (read_file file.now) }
{
    let edition = read_edition(file);
    let Ok(_) = edition else {
        return Err(edition.unwrap_err());
    };
    let counted = read_atoms(file);
    let Ok(atoms) = counted else {
        return Err(counted.unwrap_err());
    };
    let listed = read_abducibles(file, atoms);
    let Ok(abducibles) = listed else {
        return Err(listed.unwrap_err());
    };
    read_rules(file, atoms, abducibles)
}

// The sheet that goes with a file of this many atoms: how many literals its query has.
fn read_sheet(sheet: &[u8], atoms: u16) -> Result<usize, Refusal>
    ensures { result_told result ≡ read_told length (read_sheet atoms sheet.now) }
{
    let read = read_field(sheet, Paper::Sheet, tags::QUERY, false, 0);
    let Ok(query) = read else {
        return Err(read.unwrap_err());
    };
    check_literals(query, atoms, false).map_err(|fault| fault.at(Paper::Sheet, 0))?;
    let end = read_end(sheet, Paper::Sheet, 3 + query.len());
    let Ok(_) = end else {
        return Err(end.unwrap_err());
    };
    Ok(query.len() / 2)
}

// Both papers, the file first: what the file holds, and how many literals the query has.
pub fn read_papers(file: &[u8], sheet: &[u8]) -> Result<(Contents, usize), Refusal>
    ensures { result_told result ≡ read_told papers_of (read_papers file.now sheet.now) }
{
    let contents = read_file(file)?;
    let literals = read_sheet(sheet, contents.atoms)?;
    Ok((contents, literals))
}
