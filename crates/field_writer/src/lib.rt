// Fields written into a lent buffer, from its start.
#![tactic(auto)]

ghost use Rattle.std.specs.Prelude.{◌≡◌, [], ◌∷◌, ◌+◌, ◌*◌, ◌/◌, ◌%◌, ◌<◌, ◌≤◌, length, set};
ghost use Rattle.papers.specs.Encoding.{encode_numbers, encode_field};
ghost use Rattle.dual.specs.Bytes.{filled, Fills};

// A two-byte number at a place, high byte first.
pub fn put_number(buffer: &mut [u8], at: usize, value: usize)
    requires { (at + 1 < length buffer.old) × (value < 65536) }
    ensures { buffer.new ≡ set (set buffer.old at (value / 256)) (at + 1) (value % 256) }
{
    let [high, low] = (value as u16).to_be_bytes();
    buffer[at] = high;
    buffer[at + 1] = low;
}

// A field's tag, its length and its first number.
pub fn put_heading(buffer: &mut [u8], tag: u8, size: usize, number: usize)
    requires { (4 < length buffer.old) × ((size < 65536) × (number < 65536)) }
    ensures { buffer.new ≡ filled (tag ∷ size / 256 ∷ size % 256 ∷ number / 256 ∷ number % 256 ∷ []) buffer.old }
{
    buffer[0] = tag;
    put_number(buffer, 1, size);
    put_number(buffer, 3, number);
}

// A field of these numbers.
pub fn write_field(buffer: &mut [u8], tag: u8, numbers: &[u16]) -> usize
    requires { (3 + 2 * length numbers.now ≤ length buffer.old) × (length numbers.now ≤ 17) }
    ensures { Fills (encode_field tag (encode_numbers numbers.now)) buffer.old result buffer.new }
{
    let count = numbers.len();
    buffer[0] = tag;
    put_number(buffer, 1, 2 * count);
    for (i, &number) in numbers.iter().enumerate() {
        put_number(buffer, 3 + 2 * i, usize::from(number));
    }
    3 + 2 * count
}

// 7F.
#[tactic(auto, unfolding(papers::specs::Encoding::encode_field, dual::specs::Bytes::filled))]
pub fn write_end(buffer: &mut [u8])
    requires { 2 < length buffer.old }
    ensures { buffer.new ≡ filled (encode_field 0x7F []) buffer.old }
{
    buffer[..3].copy_from_slice(&[0x7F, 0, 0]);
}
