// Rules typed as text, imported into an edition 1 file in a lent buffer. The text is read in passes: its tokens and lines and the
// greatest atom, the abducibles, the checks of the rules and of the integrity rules, and then, once each, to write these.
#![tactic(auto)]

mod checking;
mod declaring;
mod surveying;
mod writing;

ghost use Rattle.std.specs.Prelude.{◌≡◌, length};
ghost use Rattle.text.specs.Importing.{import_text};
ghost use Rattle.importing.specs.Imports.{imported_told, import_told, import_after};
ghost use Rattle.importing.specs.declared.ImportError.TheVariants.{Refused};

use checking::check_runs;
use declaring::{declare, rising};
use surveying::survey;
use text::TextRefusal;
use writing::write_file;

// Why nothing is imported: document 01's refusal 11, or one of the text.
#[derive(Clone, Copy, PartialEq, Eq, Debug)]
pub enum ImportError {
    Short,
    Refused(TextRefusal),
}

impl From<TextRefusal> for ImportError {
    ghost from_gives = { λ r e. e ≡ Refused r };

    fn from(refusal: TextRefusal) -> ImportError {
        ImportError::Refused(refusal)
    }
}

// The file's length, once it is written.
pub fn import_text(text: &[u8], file: &mut [u8]) -> Result<usize, ImportError>
    ensures { (imported_told result ≡ import_told (import_text text.now) (length file.old))
        × (file.new ≡ import_after (import_text text.now) file.old) }
{
    let atoms = survey(text)?;
    let flags = declare(text)?;
    let (rules, integrity) = check_runs(text, &flags)?;
    let abducibles = rising(&flags, atoms);
    let size = 15 + 2 * abducibles.count + rules + integrity;
    if file.len() < size {
        return Err(ImportError::Short);
    }
    write_file(file, text, atoms, &abducibles);
    Ok(size)
}
