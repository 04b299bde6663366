// Card 4: rules typed as text.
#![tactic(auto)]

ghost use Rattle.std.specs.Prelude.{◌≡◌};
ghost use Rattle.text.specs.Told.{text_fault_number};

use papers::Fault;

// Why a text is refused: a character that starts no permitted token; a token that the line's form does not allow, or the end inside a
// line; or what the file's own checks find in the program typed.
#[derive(Clone, Copy, PartialEq, Eq, Debug)]
pub enum TextFault {
    Character,
    Line,
    File(Fault),
}

impl TextFault {
    // Its number in the papers.
    pub fn number(self) -> u8
        ensures { result ≡ text_fault_number self }
    {
        match self {
            TextFault::Character => 17,
            TextFault::Line => 18,
            TextFault::File(fault) => fault.number(),
        }
    }
}

// A refusal of a text, with its place there. Its paper is the text.
#[derive(Clone, Copy, PartialEq, Eq, Debug)]
pub struct TextRefusal {
    pub fault: TextFault,
    pub place: usize,
}

pub mod line;
pub mod numbers;
pub mod token;
