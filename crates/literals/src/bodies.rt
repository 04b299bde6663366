// Document 02, Card 5: "In bodies of 04 and 05 the literal FFFF now means undefined, the constant u of document 000." The reader, the
// dual's writer, truth and falsity read a body's literals by `body_literal`.
ghost use Rattle.std.specs.Prelude.{◌≡◌};
ghost use Rattle.literals.specs.BodyLiterals.{body_literal, body_number, body_listed};

use crate::{Literal, is_literal_listed};

const UNDEFINED: usize = 0xFFFF;

// "Reading a body literal yields a number or this constant." No Option: u is a literal of the body, and none that is missing.
#[derive(Clone, Copy, PartialEq, Eq, Debug)]
pub enum BodyLiteral {
    Is(Literal),
    Undefined,
}

#[tactic(auto, unfolding(crate::specs::BodyLiterals::body_literal))]
pub fn body_literal(number: usize) -> BodyLiteral
    ensures { result ≡ body_literal number }
{
    if number == UNDEFINED {
        BodyLiteral::Undefined
    } else {
        BodyLiteral::Is(Literal(number))
    }
}

// Back: the number that stands in a body.
#[tactic(auto, unfolding(crate::specs::BodyLiterals::body_number))]
pub fn body_number(l: BodyLiteral) -> usize
    ensures { result ≡ body_number l }
{
    match l {
        BodyLiteral::Is(literal) => literal.0,
        BodyLiteral::Undefined => UNDEFINED,
    }
}

// Those that a body can have: the literals that a file can name, and u.
#[tactic(auto, unfolding(crate::specs::BodyLiterals::body_listed))]
pub fn is_body_listed(l: BodyLiteral, atoms: u16) -> bool
    ensures { result ≡ body_listed atoms l }
{
    match l {
        BodyLiteral::Is(literal) => is_literal_listed(literal, atoms),
        BodyLiteral::Undefined => true,
    }
}
