// The two-byte numbers of bytes, copied into an array of numbers.
#![tactic(auto)]

ghost use Rattle.std.specs.Prelude.{◌≡◌, ◌+◌, ◌≤◌, length};
ghost use Rattle.papers.specs.Field.{numbers};
ghost use Rattle.copying.specs.Laid.{laid};

use numbered::number_at;

// From a place on; what stands before and after them stays.
pub fn copy_numbers(bytes: &[u8], values: &mut [u16], at: usize)
    requires { at + length (numbers bytes.now) ≤ length values.old }
    ensures { values.new ≡ laid at (numbers bytes.now) values.old }
{
    // An index: number i stands at 2i of the bytes, and goes to i after `at`.
    for i in 0..bytes.len() / 2 {
        values[at + i] = number_at(bytes, 2 * i) as u16;
    }
}
