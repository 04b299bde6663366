// Numbers laid in arrays of 16 bits.
use arrays::put;

// A number in 16 bits, or the greatest that they hold.
pub(crate) fn short(number: usize) -> u16 {
    u16::try_from(number).unwrap_or(u16::MAX)
}

// A number laid at a place; nothing where the array ends before it.
pub(crate) fn lay(numbers: &mut [u16], at: usize, number: usize) {
    put(numbers, at, short(number));
}
