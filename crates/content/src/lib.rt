// The tests of a field's content, each of which answers the first fault that it finds.
#![tactic(auto)]

ghost use Rattle.std.specs.Prelude.{◌≡◌, ◌<◌, length};
ghost use Rattle.papers.specs.Field.{number_in, numbers};
ghost use Rattle.papers.specs.Content.{abducibles_fault, literal_allowed, literals_fault, is_among, rule_fault, body_fault};
ghost use Rattle.papers.specs.Told.{check_told};

use conjugates::atom_of;
use literals::bodies::is_body_listed;
use literals::{Atom, is_literal_listed};
use numbered::{atom_at, body_literal_at, literal_at, objective_at};
use papers::{Fault, tags};

// Whether the literal that these two bytes begin with may stand there: in a body it may be u.
#[tactic(auto, unfolding(papers::specs::Content::literal_allowed))]
fn is_allowed(pair: &[u8], atoms: u16, in_body: bool) -> bool
    requires { 1 < length pair.now }
    ensures { result ≡ literal_allowed in_body atoms (number_in pair.now 0) }
{
    if in_body {
        is_body_listed(body_literal_at(pair, 0), atoms)
    } else {
        is_literal_listed(literal_at(pair, 0), atoms)
    }
}

// The literals of a body, or of a query.
pub fn check_literals(content: &[u8], atoms: u16, in_body: bool) -> Result<(), Fault>
    ensures { check_told result ≡ literals_fault in_body atoms (numbers content.now) }
{
    // By index: pairs that an iterator cuts off cost a quarter more in reading a file that is full.
    for i in 0..content.len() / 2 {
        let pair = &content[2 * i..2 * i + 2];
        if !is_allowed(pair, atoms, in_body) {
            return Err(Fault::Unlisted);
        }
    }
    Ok(())
}

pub fn check_abducibles(content: &[u8], atoms: u16) -> Result<(), Fault>
    ensures { check_told result ≡ abducibles_fault atoms 0 (numbers content.now) }
{
    let mut least: u32 = 0;
    for pair in content.chunks_exact(2) {
        let atom = u32::from(atom_at(pair, 0).0);
        if u32::from(atoms) <= atom {
            return Err(Fault::Unlisted);
        }
        if atom < least {
            return Err(Fault::Disorder);
        }
        least = atom + 1;
    }
    Ok(())
}

pub fn is_among(abducibles: &[u8], atom: Atom) -> bool
    ensures { result ≡ is_among (numbers abducibles.now) atom.0 }
{
    for pair in abducibles.chunks_exact(2) {
        if atom_at(pair, 0) == atom {
            return true;
        }
    }
    false
}

// A rule's head, then its body, which is the rest of the content. A head that is not below 2n is of no atom.
fn check_rule(content: &[u8], abducibles: &[u8], atoms: u16) -> Result<(), Fault>
    requires { 1 < length content.now }
    ensures { check_told result ≡ rule_fault atoms (numbers abducibles.now) (numbers content.now) }
{
    let Some(atom) = atom_of(objective_at(content, 0), atoms) else {
        return Err(Fault::Unlisted);
    };
    if is_among(abducibles, atom) {
        return Err(Fault::FixedFault);
    }
    check_literals(&content[2..], atoms, true)
}

// A rule, or the body of an integrity rule, by its tag.
#[tactic(auto, unfolding(papers::specs::Content::body_fault))]
pub fn check_body(tag: u8, content: &[u8], abducibles: &[u8], atoms: u16) -> Result<(), Fault>
    requires { tag ≡ 4 → 1 < length content.now }
    ensures { check_told result ≡ body_fault tag atoms (numbers abducibles.now) (numbers content.now) }
{
    if tag == tags::RULE {
        check_rule(content, abducibles, atoms)
    } else {
        check_literals(content, atoms, true)
    }
}
