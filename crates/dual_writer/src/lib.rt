// The dual table of a rule file, written into a lent buffer.
#![tactic(auto)]

mod chains;
mod entries;
mod writing;

ghost use Rattle.std.specs.Prelude.{◌≡◌, cond, length};
ghost use Rattle.papers.specs.Reading.{read_file};
ghost use Rattle.papers.specs.Answers.{contents_of};
ghost use Rattle.papers.specs.Told.{tells, read_told};
ghost use Rattle.dual_writer.specs.declared.DualError.TheVariants.{Refused};
ghost use Rattle.dual_writer.specs.WrittenDual.{written_told, dual_told, dual_after};

use chains::Chains;
use entries::Source;
use field_writer::write_end;
use folds::RuleFile;
use papers::{Contents, Refusal};

// Why no dual is written: document 01's refusal 11, or one of the file's.
#[derive(Clone, Copy, PartialEq, Eq, Debug)]
pub enum DualError {
    Short,
    Refused(Refusal),
}

impl From<Refusal> for DualError {
    ghost from_gives = { λ refusal error. error ≡ Refused refusal };

    fn from(refusal: Refusal) -> DualError {
        DualError::Refused(refusal)
    }
}

// The dual's length. The dual of a file that was read already goes into a buffer that stays as it is where `allowed` is false.
pub fn write_accepted(file: &RuleFile, dual: &mut [u8], allowed: bool) -> Result<usize, DualError>
    ensures { (written_told result ≡ dual_told (read_file file.now.bytes.now) (length dual.old))
        × (dual.new ≡ cond allowed (dual_after (read_file file.now.bytes.now) dual.old) dual.old) }
{
    let mut chains = Chains::CLEAR;
    chains.link(file);
    let source = Source {
        file,
        chains: &chains,
    };
    let size = source.dual_length();
    if dual.len() < size {
        return Err(DualError::Short);
    }
    if !allowed {
        return Ok(size);
    }
    let end = source.write_entries(dual);
    write_end(&mut dual[end..]);
    Ok(size)
}

// The dual of a file that was read. Never inlined, so that a file that is refused takes no room for where its folds stand.
#[inline(never)]
fn write_read(file: &[u8], contents: Contents, dual: &mut [u8]) -> Result<usize, DualError>
    requires { read_told contents_of (read_file file.now) ≡ tells contents }
    ensures { (written_told result ≡ dual_told (read_file file.now) (length dual.old))
        × (dual.new ≡ dual_after (read_file file.now) dual.old) }
{
    write_accepted(&RuleFile::new(file, contents), dual, true)
}

pub fn write_dual(file: &[u8], dual: &mut [u8]) -> Result<usize, DualError>
    ensures { (written_told result ≡ dual_told (read_file file.now) (length dual.old))
        × (dual.new ≡ dual_after (read_file file.now) dual.old) }
{
    let contents = reading::read_file(file)?;
    write_read(file, contents, dual)
}
