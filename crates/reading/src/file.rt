// The readers of a paper's fields, in the order in which they stand there. Each field read is taken apart by let .. else, the form that document 01 names
// for it; its other branch hands the refusal on.
ghost use Rattle.std.specs.Prelude.{◌≡◌, ◌≤◌, ◌<◌, length};
ghost use Rattle.papers.specs.Field.{numbers};
ghost use Rattle.papers.specs.Reading.{read_edition, read_atoms, read_abducibles, first_rule, read_run, read_end, read_rules};
ghost use Rattle.papers.specs.Answers.{run_of, contents_of};
ghost use Rattle.papers.specs.Told.{read_told, value_told, result_told};

use content::{check_abducibles, check_body};
use fields::{read_field, tag_at};
use numbered::number_at;
use papers::{Contents, Fault, Fields, Paper, Refusal, Run, tags};

pub(crate) fn read_edition(file: &[u8]) -> Result<u8, Refusal>
    ensures { result_told result ≡ read_told (λ n. n) (read_edition file.now) }
{
    let read = read_field(file, Paper::File, tags::EDITION, false, 0);
    let Ok(content) = read else {
        return Err(read.unwrap_err());
    };
    let edition = content[0];
    if edition != 1 {
        return Err(Fault::Edition.at(Paper::File, 0));
    }
    Ok(edition)
}

pub(crate) fn read_atoms(file: &[u8]) -> Result<u16, Refusal>
    requires { 4 ≤ length file.now }
    ensures { result_told result ≡ read_told (λ n. n) (read_atoms file.now) }
{
    let read = read_field(file, Paper::File, tags::ATOMS, false, 4);
    let Ok(content) = read else {
        return Err(read.unwrap_err());
    };
    let atoms = number_at(content, 0);
    if atoms < 1 || 256 < atoms {
        return Err(Fault::AtomCount.at(Paper::File, 4));
    }
    // The test before bounds it: `try_from` would have a refusal that cannot come.
    Ok(atoms as u16)
}

// The abducibles' numbers, as they stand in the file.
pub(crate) fn read_abducibles(file: &[u8], atoms: u16) -> Result<&[u8], Refusal>
    requires { 9 ≤ length file.now }
    ensures { value_told (λ content. numbers content.now) result ≡ read_told (λ l. l) (read_abducibles atoms file.now) }
{
    let read = read_field(file, Paper::File, tags::ABDUCIBLES, false, 9);
    let Ok(content) = read else {
        return Err(read.unwrap_err());
    };
    check_abducibles(content, atoms).map_err(|fault| fault.at(Paper::File, 9))?;
    Ok(content)
}

// The fields of one tag from a place on, of which there may be `limit`.
fn read_run(
    file: &[u8],
    abducibles: &[u8],
    tag: u8,
    atoms: u16,
    limit: usize,
    from: usize,
) -> Result<Run, Refusal>
    requires place { from ≤ length file.now }
    requires tag { (tag ≡ 0 → ⊥) × (tag ≡ 1 → ⊥) }
    requires limit { limit < 65536 }
    ensures { result_told result ≡ read_told (run_of 0) (read_run tag atoms (numbers abducibles.now) limit from file.now) }
{
    let mut run = Run {
        count: 0,
        next: from,
    };
    while tag_at(file, run.next) == Some(tag) {
        let place = run.next;
        let read = read_field(file, Paper::File, tag, run.count == limit, place);
        let Ok(content) = read else {
            return Err(read.unwrap_err());
        };
        check_body(tag, content, abducibles, atoms).map_err(|fault| fault.at(Paper::File, place))?;
        run.count += 1;
        run.next += 3 + content.len();
    }
    Ok(run)
}

// The end of a paper, which is nowhere but at its last bytes.
pub(crate) fn read_end(bytes: &[u8], paper: Paper, place: usize) -> Result<usize, Refusal>
    requires { place ≤ length bytes.now }
    ensures { result_told result ≡ read_told (λ n. n) (read_end paper place bytes.now) }
{
    let read = read_field(bytes, paper, tags::END, false, place);
    let Ok(_) = read else {
        return Err(read.unwrap_err());
    };
    let after = place + 3;
    if bytes.len() != after {
        return Err(Fault::Tail.at(paper, after));
    }
    Ok(after)
}

// The rules, the integrity rules and the end of a file with these abducibles.
pub(crate) fn read_rules(file: &[u8], atoms: u16, abducibles: &[u8]) -> Result<Contents, Refusal>
    requires { first_rule (numbers abducibles.now) ≤ length file.now }
    ensures { result_told result ≡ read_told contents_of (read_rules atoms (numbers abducibles.now) file.now) }
{
    let count = abducibles.len() / 2;
    let first = 12 + 2 * count;
    let read = read_run(file, abducibles, tags::RULE, atoms, 1024, first);
    let Ok(rules) = read else {
        return Err(read.unwrap_err());
    };
    let then = read_run(file, abducibles, tags::INTEGRITY, atoms, 256, rules.next);
    let Ok(integrity) = then else {
        return Err(then.unwrap_err());
    };
    let end = read_end(file, Paper::File, integrity.next);
    let Ok(_) = end else {
        return Err(end.unwrap_err());
    };
    Ok(Contents {
        atoms,
        abducibles: count,
        rules: Fields {
            count: rules.count,
            place: first,
        },
        integrity: Fields {
            count: integrity.count,
            place: rules.next,
        },
        end: integrity.next,
    })
}
