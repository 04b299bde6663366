// Document 01, Numberings: a type for each of the four, so that a number of one cannot stand where another is due.
// Atoms and rules are counted in 16 bits, so that every number made of them fits a word and no public function has a `requires`. The other three are as
// wide as an index, so that each is one where its own array is read.
#![tactic(auto)]

pub mod bodies;
pub mod forms;

ghost use Rattle.std.specs.Prelude.{◌≡◌};
ghost use Rattle.literals.specs.Numbering.{positive, negative, explicitly_negated, objective_number, default_negated};
ghost use Rattle.literals.specs.Numbering.{falsum, listed, literal_listed, judged, fold_of_rule, fold_of_integrity};

#[derive(Clone, Copy, PartialEq, Eq, Debug)]
pub struct Atom(pub u16);

#[derive(Clone, Copy, PartialEq, Eq, Debug)]
pub struct Objective(pub usize);

#[derive(Clone, Copy, PartialEq, Eq, Debug)]
pub struct Literal(pub usize);

#[derive(Clone, Copy, PartialEq, Eq, Debug)]
pub struct Fold(pub usize);

// The atom itself, as an objective literal.
pub fn positive(a: Atom) -> Objective
    ensures { result.0 ≡ positive a.0 }
{
    Objective(2 * usize::from(a.0))
}

// The atom's explicit negation.
pub fn negative(a: Atom) -> Objective
    ensures { result.0 ≡ negative a.0 }
{
    Objective(2 * usize::from(a.0) + 1)
}

pub fn is_explicitly_negated(o: Objective) -> bool
    ensures { result ≡ explicitly_negated o.0 }
{
    o.0 % 2 == 1
}

pub fn objective_of(l: Literal) -> Objective
    ensures { result.0 ≡ objective_number l.0 }
{
    Objective(l.0 / 2)
}

pub fn is_default_negated(l: Literal) -> bool
    ensures { result ≡ default_negated l.0 }
{
    l.0 % 2 == 1
}

pub fn falsum(atoms: u16) -> Objective
    ensures { result.0 ≡ falsum atoms }
{
    Objective(2 * usize::from(atoms))
}

// How many objective literals are judged: all that are listed, and falsum.
pub fn judged(atoms: u16) -> usize
    ensures { result ≡ judged atoms }
{
    2 * usize::from(atoms) + 1
}

pub fn rule_fold(index: u16) -> Fold
    ensures { result.0 ≡ fold_of_rule index }
{
    Fold(usize::from(index))
}

// The fold of an integrity rule of a file with so many rules.
pub fn integrity_fold(rules: u16, index: u16) -> Fold
    ensures { result.0 ≡ fold_of_integrity rules index }
{
    Fold(usize::from(rules) + usize::from(index))
}

// Below falsum: the objective literals that a file can name.
pub fn is_listed(o: Objective, atoms: u16) -> bool
    ensures { result ≡ listed atoms o.0 }
{
    o.0 < 2 * usize::from(atoms)
}

// The literals that a file can name: those and their default negations.
pub fn is_literal_listed(l: Literal, atoms: u16) -> bool
    ensures { result ≡ literal_listed atoms l.0 }
{
    l.0 < 4 * usize::from(atoms)
}
