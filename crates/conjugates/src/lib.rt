// Document 000, section 2.1: the two conjugates. Document 01, Numberings: their numbers, and what else an objective literal has unless it is falsum.
// No function has a `requires`.
#![tactic(auto)]

ghost use Rattle.std.specs.Prelude.{◌≡◌};
ghost use Rattle.literals.specs.Section21.{conj_d, conj_e};
ghost use Rattle.conjugates.specs.Conjugates.{atom_of, conjugate_of, default_conjugate_of, default_negation_of, literal_of};

use literals::forms::{Form, form_of, literal_number, objective_form};
use literals::{Atom, Literal, Objective, is_listed, objective_of};

// The atom of an objective literal. Falsum has none, and a number past it neither; so it is with the two literals below.
pub fn atom_of(o: Objective, atoms: u16) -> Option<Atom>
    ensures { result ≡ atom_of atoms o.0 }
{
    is_listed(o, atoms).then(|| Atom((o.0 / 2) as u16))
}

// The objective literal itself, as a literal.
pub fn literal_of(o: Objective, atoms: u16) -> Option<Literal>
    ensures { result ≡ literal_of atoms o.0 }
{
    is_listed(o, atoms).then(|| Literal(2 * o.0))
}

// The literal not(o).
pub fn default_negation(o: Objective, atoms: u16) -> Option<Literal>
    ensures { result ≡ default_negation_of atoms o.0 }
{
    is_listed(o, atoms).then(|| Literal(2 * o.0 + 1))
}

// "If an objective literal O is an atom A, the explicit conjugate of O (conj_E(O)) is the atom -A; otherwise if O has the form -A, the
// explicit conjugate of O is A." A default negation has none.
#[tactic(auto, unfolding(literals::specs::Section21::conj_e))]
pub fn explicit_conjugate(l: Form) -> Option<Form>
    ensures { result ≡ conj_e l }
{
    match l {
        Form::Atom(a) => Some(Form::NegatedAtom(a)),
        Form::NegatedAtom(a) => Some(Form::Atom(a)),
        Form::NotAtom(_) | Form::NotNegatedAtom(_) => None,
    }
}

// "the default conjugate (conj_D(O)) of an objective literal O is not(O), and the default conjugate of not(O) is O".
#[tactic(auto, unfolding(literals::specs::Section21::conj_d))]
pub fn default_conjugate(l: Form) -> Form
    ensures { result ≡ conj_d l }
{
    match l {
        Form::Atom(a) => Form::NotAtom(a),
        Form::NegatedAtom(a) => Form::NotNegatedAtom(a),
        Form::NotAtom(a) => Form::Atom(a),
        Form::NotNegatedAtom(a) => Form::NegatedAtom(a),
    }
}

// The explicit conjugate, by the numbers of objective literals. Falsum, and a number past it, has none.
pub fn explicit_conjugate_number(o: Objective, atoms: u16) -> Option<Objective>
    ensures { result ≡ conjugate_of atoms o.0 }
{
    let objective = objective_form(o, atoms)?;
    let conjugate = explicit_conjugate(objective)?;
    Some(objective_of(literal_number(conjugate)))
}

// The default conjugate, by the numbers of literals. A number that is not below 4n has none.
pub fn default_conjugate_number(l: Literal, atoms: u16) -> Option<Literal>
    ensures { result ≡ default_conjugate_of atoms l.0 }
{
    let literal = form_of(l, atoms)?;
    Some(literal_number(default_conjugate(literal)))
}
