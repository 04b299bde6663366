// The numbers of a line in its field, which a second reading of its tokens finds.
ghost use Rattle.std.specs.Prelude.{◌≤◌, length};
ghost use Rattle.text.specs.LineNumbers.{SaidTells, NumbersTell};

use crate::line::{Move, Stage};
use crate::token::{Scanned, Token, next_token};
use arrays::put;

// What an atom says, a declared atom, a head or a literal: its place among the line's numbers, and its number. Another token says none.
#[tactic(auto, unfolding(crate::specs::LineNumbers::place_said, crate::specs::LineNumbers::number_said))]
fn number_said(stage: Stage, token: Token) -> Option<(usize, u16)>
    ensures { SaidTells stage token result }
{
    let Token::Atom(atom) = token else {
        return None;
    };
    let atom = u16::from(atom);
    match stage {
        Stage::Fresh => Some((0, 2 * atom)),
        Stage::Declaring(_) => Some((0, atom)),
        Stage::Negated(_) => Some((0, 2 * atom + 1)),
        Stage::Due(line) => Some((line.count, 4 * atom)),
        Stage::Denied(line) => Some((line.count, 4 * atom + 1)),
        Stage::NegatedIn(line) => Some((line.count, 4 * atom + 2)),
        Stage::DeniedNegated(line) => Some((line.count, 4 * atom + 3)),
        Stage::Declared(_) | Stage::Headed(_) | Stage::Said(_) => None,
    }
}

// The first 17 numbers of the line from a place on, and zeros after the last, in memory of fixed size. How many they are, `read_line`
// tells.
pub fn numbers_in(text: &[u8], from: usize) -> [u16; 17]
    requires { from ≤ length text.now }
    ensures { NumbersTell text.now from result }
{
    let mut stage = Stage::Fresh;
    let mut at = from;
    let mut numbers = [0u16; 17];
    while let Ok(Some(Scanned { token, start, end })) = next_token(text, at) {
        let Move::Goes(later) = stage.step(start, token) else {
            return numbers;
        };
        if let Some((place, number)) = number_said(stage, token) {
            put(&mut numbers, place, number);
        }
        stage = later;
        at = end;
    }
    numbers
}
