// One line of a text: the automaton of its form, and what it says.
ghost use Rattle.std.specs.Prelude.{◌≡◌, ◌≤◌, length};
ghost use Rattle.text.specs.Lines.{fresh};
ghost use Rattle.text.specs.Briefly.{tag_byte, denial_briefly, opened_briefly, also_briefly, step_briefly};
ghost use Rattle.text.specs.Told.{kind_of, number_of};
ghost use Rattle.text.specs.LineAnswers.{ended_briefly, LineTells};

use crate::token::{Scanned, Token, next_token};
use crate::{TextFault, TextRefusal};
use papers::tags;

// What a line types.
#[derive(Clone, Copy, PartialEq, Eq, Debug)]
pub enum LineKind {
    Abducible,
    Rule,
    Integrity,
}

impl LineKind {
    // The tag of its field.
    pub fn tag(self) -> u8
        ensures { result ≡ tag_byte self }
    {
        match self {
            LineKind::Abducible => tags::ABDUCIBLES,
            LineKind::Rule => tags::RULE,
            LineKind::Integrity => tags::INTEGRITY,
        }
    }
}

// What a line says, briefly: what it types, the place of its first token, the atom that it declares or that of its head, one more than
// the greatest atom that it names, and how many numbers it has in its field, 18 standing for 18 or more.
#[derive(Clone, Copy)]
pub struct Brief {
    pub kind: LineKind,
    pub start: usize,
    pub atom: u8,
    pub above: usize,
    pub count: usize,
}

impl Brief {
    // A line that begins with `false`. It has no head: its atom is never asked for, since every reader of one tests the kind.
    fn denial(start: usize) -> Brief
        ensures { result ≡ denial_briefly start }
    {
        Brief {
            kind: LineKind::Integrity,
            start,
            atom: 0,
            above: 1,
            count: 0,
        }
    }

    // A line that begins with an atom, after what stands before it.
    fn opened(kind: LineKind, start: usize, atom: u8) -> Brief
        ensures { result ≡ opened_briefly kind start atom }
    {
        Brief {
            kind,
            start,
            atom,
            above: usize::from(atom) + 1,
            count: 1,
        }
    }

    // With one more literal. A declaration takes none.
    #[tactic(auto, unfolding(crate::specs::Briefly::also_briefly, crate::specs::Briefly::few))]
    fn also(self, atom: u8) -> Brief
        ensures { result ≡ also_briefly self atom }
    {
        match self.kind {
            LineKind::Abducible => self,
            LineKind::Rule | LineKind::Integrity => Brief {
                above: self.above.max(usize::from(atom) + 1),
                count: self.count.min(17) + 1,
                ..self
            },
        }
    }
}

// How far a line was read.
#[derive(Clone, Copy)]
pub enum Stage {
    Fresh,
    Declaring(usize),
    Declared(Brief),
    Negated(usize),
    Headed(Brief),
    Due(Brief),
    Denied(Brief),
    NegatedIn(Brief),
    DeniedNegated(Brief),
    Said(Brief),
}

// What a token does: the line goes on or ends, or the token is not allowed there.
#[derive(Clone, Copy)]
pub enum Move {
    Goes(Stage),
    Ends(Brief),
    Bars,
}

impl Stage {
    // What a token at a place does, by the rows that the form of a line allows.
    #[tactic(auto, unfolding(crate::specs::Briefly::step_briefly))]
    pub(crate) fn step(self, place: usize, token: Token) -> Move
        ensures { result ≡ step_briefly self place (kind_of token) (number_of token) }
    {
        match (self, token) {
            (Stage::Fresh, Token::Abducible) => Move::Goes(Stage::Declaring(place)),
            (Stage::Fresh, Token::False) => Move::Goes(Stage::Headed(Brief::denial(place))),
            (Stage::Fresh, Token::Minus) => Move::Goes(Stage::Negated(place)),
            (Stage::Fresh, Token::Atom(a)) => Move::Goes(Stage::Headed(Brief::opened(
                LineKind::Rule,
                place,
                a,
            ))),
            (Stage::Declaring(start), Token::Atom(a)) => Move::Goes(Stage::Declared(Brief::opened(
                LineKind::Abducible,
                start,
                a,
            ))),
            (Stage::Negated(start), Token::Atom(a)) => Move::Goes(Stage::Headed(Brief::opened(
                LineKind::Rule,
                start,
                a,
            ))),
            (Stage::Headed(line), Token::Arrow) => Move::Goes(Stage::Due(line)),
            (Stage::Due(line), Token::Not) => Move::Goes(Stage::Denied(line)),
            (Stage::Due(line), Token::Minus) => Move::Goes(Stage::NegatedIn(line)),
            (Stage::Denied(line), Token::Minus) => Move::Goes(Stage::DeniedNegated(line)),
            // Four rows with one action: a line bound by an or-pattern beside the atom gets no proof.
            (Stage::Due(line), Token::Atom(a)) => Move::Goes(Stage::Said(line.also(a))),
            (Stage::Denied(line), Token::Atom(a)) => Move::Goes(Stage::Said(line.also(a))),
            (Stage::NegatedIn(line), Token::Atom(a)) => Move::Goes(Stage::Said(line.also(a))),
            (Stage::DeniedNegated(line), Token::Atom(a)) => Move::Goes(Stage::Said(line.also(a))),
            (Stage::Said(line), Token::Comma) => Move::Goes(Stage::Due(line)),
            (Stage::Declared(line) | Stage::Headed(line) | Stage::Said(line), Token::Stop) =>
                Move::Ends(line),
            _ => Move::Bars,
        }
    }

    // What the end of the text, at this place, makes of a line that was read so far.
    #[tactic(auto, unfolding(crate::specs::LineAnswers::ended_briefly))]
    fn ended(self, place: usize) -> Result<Option<(Brief, usize)>, TextRefusal>
        ensures { result ≡ ended_briefly self place }
    {
        if matches!(self, Stage::Fresh) {
            return Ok(None);
        }
        Err(TextRefusal {
            fault: TextFault::Line,
            place,
        })
    }
}

// The next line from a place on and the place after it, if the text does not end first.
pub fn read_line(text: &[u8], from: usize) -> Result<Option<(Brief, usize)>, TextRefusal>
    requires { from ≤ length text.now }
    ensures { LineTells text.now fresh from result }
{
    let mut stage = Stage::Fresh;
    let mut at = from;
    while let Some(Scanned { token, start, end }) = next_token(text, at)? {
        match stage.step(start, token) {
            Move::Goes(later) => {
                stage = later;
                at = end;
            }
            Move::Ends(line) => {
                return Ok(Some((line, end)));
            }
            Move::Bars => {
                return Err(TextRefusal {
                    fault: TextFault::Line,
                    place: start,
                });
            }
        }
    }
    stage.ended(text.len())
}
