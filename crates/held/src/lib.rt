// Held faults: the two masks of a search, tests 15 and 16 of them, and test 14 of a record that carries them.
#![tactic(auto)]

ghost use Rattle.std.specs.Prelude.{◌≡◌, ◌≤◌};
ghost use Rattle.held.specs.Masks.{masks_tested};
ghost use Rattle.held.specs.HeldCalls.{spoilt_search_by};

use spoilt::is_spoilt;
use steps::Record;

// Faults held as assumed and held as ruled out: bit i for the i-th abducible.
#[derive(Clone, Copy, PartialEq, Eq, Debug)]
pub struct Masks {
    pub assumed: u16,
    pub ruled: u16,
}

// The record of a search: how far it has come, and both masks.
#[derive(Clone, Copy, PartialEq, Eq, Debug)]
pub struct SearchRecord {
    pub at: Record,
    pub held: Masks,
}

// Why masks are refused: 15, and 16.
#[derive(Clone, Copy, PartialEq, Eq, Debug)]
pub enum MaskFault {
    SharedBit,
    UnlistedBit,
}

// Tests 15 and 16, where there are k abducibles. A 16-bit number cannot be shifted by 16.
pub fn test_masks(k: usize, held: Masks) -> Result<(), MaskFault>
    requires { k ≤ 16 }
    ensures { result ≡ masks_tested k held }
{
    if held.assumed & held.ruled != 0 {
        return Err(MaskFault::SharedBit);
    }
    if u32::from(held.assumed | held.ruled) >> k != 0 {
        return Err(MaskFault::UnlistedBit);
    }
    Ok(())
}

// Test 14 on a record and a list, where there are `total` scenarios of k abducibles.
pub fn is_spoilt_search(list: &[u32], from: SearchRecord, k: usize, total: u32) -> bool
    requires { k ≤ 16 }
    ensures { result ≡ spoilt_search_by k total from list.now }
{
    let at = from.at;
    is_spoilt(list, at.position, at.found, total) || test_masks(k, from.held).is_err()
}
