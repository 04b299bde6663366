// Parts of scenarios: whether one has only part of another's assumptions, and whether it contains those of an entry.
ghost use Rattle.std.specs.Prelude.{◌≡◌};
ghost use Rattle.steps.specs.Explanations.{part_of};
ghost use Rattle.steps.specs.Continuing.{contains_one};

// Of k digits in base 3, lowest first: each of a's that is not zero is b's.
pub(crate) fn part_of(k: usize, a: u32, b: u32) -> bool
    ensures { result ≡ part_of k a b }
{
    let mut x = a;
    let mut y = b;
    for _ in 0..k {
        let digit = x % 3;
        if digit != 0 && digit != y % 3 {
            return false;
        }
        x /= 3;
        y /= 3;
    }
    true
}

// Whether s contains the assumptions of one of the entries.
pub(crate) fn contains_one(k: usize, entries: &[u32], s: u32) -> bool
    ensures { result ≡ contains_one k entries.now s }
{
    entries.iter().any(|entry| part_of(k, *entry, s))
}
