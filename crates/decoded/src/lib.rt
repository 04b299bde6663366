// The numbers of a row, decoded once a call, and those that are read as one of document 01's numberings.
#![tactic(auto)]

ghost use Rattle.std.specs.Prelude.{◌≡◌, ◌<◌, length, get_or};
ghost use Rattle.literals.specs.BodyLiterals.{body_literal};

use literals::Objective;
use literals::bodies::{BodyLiteral, body_literal};

// The number at a place of a row.
pub fn number_in(row: &[u16], place: usize) -> usize
    requires { place < length row.now }
    ensures { (result ≡ get_or row.now place 0) × (result < 65536) }
{
    usize::from(row[place])
}

// The two readers below are no plainer as one generic function: each is one line over `number_in`, and would be a trait's instance with a law of its own.
// An objective literal: a rule's head, or what an entry is of.
pub fn objective_in(row: &[u16], place: usize) -> Objective
    requires { place < length row.now }
    ensures { result.0 ≡ get_or row.now place 0 }
{
    Objective(number_in(row, place))
}

// A literal of a body, a clause or a query: a number or u, which no query has.
pub fn body_literal_in(row: &[u16], place: usize) -> BodyLiteral
    requires { place < length row.now }
    ensures { result ≡ body_literal (get_or row.now place 0) }
{
    body_literal(number_in(row, place))
}
