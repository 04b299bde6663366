// What backs a false literal besides its rules, in 64 scenarios: its conjugate is true, or it is a
// false abducible literal.
#![tactic(auto)]

ghost use Rattle.std.specs.Prelude.{◌≡◌, ◌<◌, ◌≤◌};
ghost use Rattle.literals.specs.Numbering.{judged};
ghost use Rattle.lanes.specs.Lanes.{backing_word, Written};

use conjugates::explicit_conjugate_number;
use literals::{Objective, judged};
use sets::write_words;

// The word of one.
#[tactic(auto, using(crate::proofs::BackingLaws::backing_conjugate, crate::proofs::BackingLaws::backing_bare, crate::proofs::BackingLaws::conjugate_few))]
fn backing_word(trues: &[u64; 513], falses: &[u64; 513], atoms: u16, o: Objective) -> u64
    requires { (o.0 < 513) × (atoms ≤ 256) }
    ensures { result ≡ backing_word atoms trues.now falses.now o.0 }
{
    match explicit_conjugate_number(o, atoms) {
        Some(other) => trues[other.0] | falses[o.0],
        None => falses[o.0],
    }
}

// The judged literals' words, into a lent row.
pub fn backing_words(trues: &[u64; 513], falses: &[u64; 513], atoms: u16, words: &mut [u64; 513])
    requires { atoms ≤ 256 }
    ensures { Written (judged atoms) (backing_word atoms trues.now falses.now) words.old words.new }
{
    write_words(
        words,
        judged(atoms),
        |i| backing_word(trues, falses, atoms, Objective(i)),
    );
}
