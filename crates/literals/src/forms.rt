// Document 000, section 2.1: "An objective literal is either an atom A, or the explicit negation of A", and a literal "either has the form O, where O
// is an objective literal, or not(O)". So there are four forms, each of one atom.
ghost use Rattle.std.specs.Prelude.{◌≡◌, ◌/◌, ◌%◌, ◌<◌};
ghost use Rattle.literals.specs.Numbering.{literal_form, listed_form, literal, number_of};

use crate::{Atom, Literal, Objective, is_listed, is_literal_listed};

#[derive(Clone, Copy, PartialEq, Eq, Debug)]
pub enum Form {
    Atom(Atom),
    NegatedAtom(Atom),
    NotAtom(Atom),
    NotNegatedAtom(Atom),
}

// The form of a literal whose atom is one of 16 bits.
fn literal_form(l: Literal) -> Form
    requires { l.0 < 262144 }
    ensures { result ≡ literal_form l.0 }
{
    let atom = Atom((l.0 / 4) as u16);
    match l.0 % 4 {
        0 => Form::Atom(atom),
        1 => Form::NotAtom(atom),
        2 => Form::NegatedAtom(atom),
        _ => Form::NotNegatedAtom(atom),
    }
}

// The form of a literal. A number that is not below 4n has none.
pub fn form_of(l: Literal, atoms: u16) -> Option<Form>
    ensures { result ≡ listed_form atoms l.0 }
{
    is_literal_listed(l, atoms).then(|| literal_form(l))
}

// The form of an objective literal, which is that of its literal. Falsum, and a number past it, has none.
pub fn objective_form(o: Objective, atoms: u16) -> Option<Form>
    ensures { result ≡ listed_form atoms (literal o.0) }
{
    is_listed(o, atoms).then(|| literal_form(Literal(2 * o.0)))
}

impl Form {
    #[tactic(auto, unfolding(crate::specs::Numbering::number_of))]
    fn atom(self) -> Atom
        ensures { result.0 ≡ number_of self / 4 }
    {
        match self {
            Form::Atom(a) | Form::NegatedAtom(a) | Form::NotAtom(a) | Form::NotNegatedAtom(a) => a,
        }
    }

    // Which of the four literals of its atom it is, 4a to 4a+3.
    #[tactic(auto, unfolding(crate::specs::Numbering::number_of))]
    fn place(self) -> usize
        ensures { result ≡ number_of self % 4 }
    {
        match self {
            Form::Atom(_) => 0,
            Form::NegatedAtom(_) => 2,
            Form::NotAtom(_) => 1,
            Form::NotNegatedAtom(_) => 3,
        }
    }
}

// Back: the literal of a form. Of two parts, since one `match` with a sum in each case is compiled to a jump that cannot be foretold.
pub fn literal_number(l: Form) -> Literal
    ensures { result.0 ≡ number_of l }
{
    Literal(4 * usize::from(l.atom().0) + l.place())
}
