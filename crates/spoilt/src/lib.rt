// Test 14, spoilt search.
#![tactic(auto)]

ghost use Rattle.std.specs.Prelude.{◌≡◌};
ghost use Rattle.steps.specs.Spoilt.{spoilt_by};

// Test 14 on a record and a list, where there are `total` scenarios.
pub fn is_spoilt(list: &[u32], position: u32, found: u32, total: u32) -> bool
    ensures { result ≡ spoilt_by total (record { position = position; found = found }) list.now }
{
    let count = found as usize;
    if position > total || count > list.len() {
        return true;
    }
    let entries = &list[..count];
    !entries.is_sorted_by(|entry, next| entry < next)
        || !entries.iter().all(|entry| *entry < position)
}
