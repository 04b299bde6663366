// The first pass: the text is read once to its end, and the greatest atom is found.
ghost use Rattle.std.specs.Prelude.{◌≡◌};
ghost use Rattle.text.specs.Lines.{lines_of};
ghost use Rattle.text.specs.Told.{reading_told};
ghost use Rattle.importing.specs.Passes.{survey_answer};

use text::TextRefusal;
use text::line::read_line;

// The atom count.
pub(crate) fn survey(text: &[u8]) -> Result<usize, TextRefusal>
    ensures { reading_told result ≡ survey_answer (lines_of text.now) }
{
    let mut at = 0;
    let mut atoms = 1;
    while let Some((line, end)) = read_line(text, at)? {
        atoms = atoms.max(line.above);
        at = end;
    }
    Ok(atoms)
}
