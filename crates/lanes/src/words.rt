// Sixty-four scenarios at once: bit l of word o says whether o is in the set of lane l.
ghost use Rattle.std.specs.Prelude.{◌≡◌, ◌<◌};
ghost use Rattle.literals.specs.BodyLiterals.{Below};
ghost use Rattle.lanes.specs.Lanes.{lane_bit};
ghost use Rattle.lanes.specs.Words.{OtherLanes, word_of, Literals, BodyWord};

use decoded::body_literal_in;
use literals::bodies::BodyLiteral;
use literals::{is_default_negated, objective_of};

// Whether lane l of a word is set.
#[tactic(auto, unfolding(crate::specs::Lanes::lane_bit))]
pub fn in_lane(word: u64, l: usize) -> bool
    requires { l < 64 }
    ensures { result ≡ lane_bit l word }
{
    (word >> l) % 2 == 1
}

// The other lanes of a word.
#[tactic(auto, using(crate::proofs::LaneLaws::lane_not))]
pub fn other_lanes(word: u64) -> u64
    ensures { OtherLanes word result }
{
    !word
}

// The lanes in which a body literal holds: u never does.
#[tactic(auto, unfolding(literals::specs::BodyLiterals::Below, crate::specs::Words::word_of))]
pub fn word_of(l: BodyLiteral, set: &[u64; 513], negated: &[u64; 513]) -> u64
    requires { Below 513 l }
    ensures { result ≡ word_of l set.now negated.now }
{
    match l {
        // One read of the row that is picked: two reads would be a branch that cannot be foretold.
        BodyLiteral::Is(literal) => {
            let row = if is_default_negated(literal) {
                negated
            } else {
                set
            };
            row[objective_of(literal).0]
        }
        BodyLiteral::Undefined => 0,
    }
}

// The lanes of a word in which each literal of a body holds. Where none is left, the literals after are not asked.
pub fn body_word(body: &[u16], set: &[u64; 513], negated: &[u64; 513], lanes: u64) -> u64
    requires { Literals 513 body.now }
    ensures { BodyWord body.now set.now negated.now lanes result }
{
    let mut word = lanes;
    // By index: a literal of a row is read at its place.
    for i in 0..body.len() {
        if word == 0 {
            return 0;
        }
        word &= word_of(body_literal_in(body, i), set, negated);
    }
    word
}
