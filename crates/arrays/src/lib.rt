// Numbers of 16 bits in arrays of which nothing is known: what lies past the end of one is answered, too.
#![tactic(auto)]

ghost use Rattle.std.specs.Prelude.{◌≡◌, ◌<◌, get_or, set};

// The number at a place; `other` where the array ends before it.
pub fn get(numbers: &[u16], at: usize, other: u16) -> usize
    ensures { (result ≡ get_or numbers.now at other) × (result < 65536) }
{
    usize::from(numbers.get(at).copied().unwrap_or(other))
}

// A number put at a place; nothing where the array ends before it.
pub fn put(numbers: &mut [u16], at: usize, number: u16)
    ensures { numbers.new ≡ set numbers.old at number }
{
    // By its index: `get_mut` promises nothing of what the array is afterwards.
    if at < numbers.len() {
        numbers[at] = number;
    }
}
