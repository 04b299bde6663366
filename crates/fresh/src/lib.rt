// A search that begins.
#![tactic(auto)]

ghost use Rattle.std.specs.Prelude.{◌≡◌};
ghost use Rattle.papers.specs.Reading.{read_file};
ghost use Rattle.held.specs.Masks.{masks};
ghost use Rattle.fresh.specs.declared.FreshError.TheVariants.{Refused};
ghost use Rattle.fresh.specs.Beginning.{begun_told, fresh_told, fresh_error};

use held::{MaskFault, Masks, SearchRecord, test_masks};
use papers::Refusal;
use steps::Record;

// What refuses a fresh search: document 02's refusals 15 and 16, or one of the file's.
#[derive(Clone, Copy, PartialEq, Eq, Debug)]
pub enum FreshError {
    SharedBit,
    UnlistedBit,
    Refused(Refusal),
}

impl From<Refusal> for FreshError {
    ghost from_gives = { λ refusal e. e ≡ Refused refusal };

    fn from(refusal: Refusal) -> FreshError {
        FreshError::Refused(refusal)
    }
}

impl From<MaskFault> for FreshError {
    ghost from_gives = { λ fault e. e ≡ fresh_error fault };

    fn from(fault: MaskFault) -> FreshError {
        match fault {
            MaskFault::SharedBit => FreshError::SharedBit,
            MaskFault::UnlistedBit => FreshError::UnlistedBit,
        }
    }
}

// The record of a search that begins, with faults held as assumed and as ruled out.
pub fn fresh(file: &[u8], assumed: u16, ruled: u16) -> Result<SearchRecord, FreshError>
    ensures { begun_told result ≡ fresh_told (read_file file.now) (masks assumed ruled) }
{
    let contents = reading::read_file(file)?;
    let held = Masks { assumed, ruled };
    test_masks(contents.abducibles, held)?;
    let at = Record {
        position: 0,
        found: 0,
    };
    Ok(SearchRecord { at, held })
}
