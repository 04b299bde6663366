// The two-byte numbers of a paper, and those that are read as one of document 01's numberings: from here on their types tell them apart.
#![tactic(auto)]

ghost use Rattle.std.specs.Prelude.{◌≡◌, ◌+◌, ◌<◌, length};
ghost use Rattle.literals.specs.BodyLiterals.{body_literal, body_number};
ghost use Rattle.papers.specs.Field.{number_in};

use literals::bodies::{BodyLiteral, body_literal};
use literals::{Atom, Literal, Objective};

// The two-byte number at a place, high byte first.
pub fn number_at(bytes: &[u8], place: usize) -> usize
    requires { place + 1 < length bytes.now }
    ensures { (result ≡ number_in bytes.now place) × (result < 65536) }
{
    usize::from(u16::from_be_bytes([bytes[place], bytes[place + 1]]))
}

// The four readers below are no plainer as one generic function: each is one line over `number_at`, and would be a trait's instance with a law of its own.
// An atom, of the abducibles.
pub fn atom_at(bytes: &[u8], place: usize) -> Atom
    requires { place + 1 < length bytes.now }
    ensures { result.0 ≡ number_in bytes.now place }
{
    Atom(number_at(bytes, place) as u16)
}

// An objective literal: a head, or what an 08 field is of.
pub fn objective_at(bytes: &[u8], place: usize) -> Objective
    requires { place + 1 < length bytes.now }
    ensures { (result.0 ≡ number_in bytes.now place) × (result.0 < 65536) }
{
    Objective(number_at(bytes, place))
}

// A literal of a query.
pub fn literal_at(bytes: &[u8], place: usize) -> Literal
    requires { place + 1 < length bytes.now }
    ensures { (result.0 ≡ number_in bytes.now place) × (result.0 < 65536) }
{
    Literal(number_at(bytes, place))
}

// A literal of a body: a number or u.
#[tactic(auto, using(literals::proofs::BodyLaws::number_back))]
pub fn body_literal_at(bytes: &[u8], place: usize) -> BodyLiteral
    requires { place + 1 < length bytes.now }
    ensures { (result ≡ body_literal (number_in bytes.now place)) × (body_number result < 65536) }
{
    body_literal(number_at(bytes, place))
}
