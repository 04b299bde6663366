// Text printed into a lent buffer: bytes and decimal numbers.
#![tactic(auto)]

ghost use Rattle.std.specs.Prelude.{◌≡◌, [], ◌∷◌, ◌+◌, ◌<◌, ◌≤◌, ◌^◌, length};
ghost use Rattle.decimals.specs.Decimal.{decimal};
ghost use Rattle.decimals.specs.Printing.{Printed};

// A place in a lent buffer, from which on text is printed; it may be any. Bytes past the buffer's end are left out, and the place counts them.
#[derive(Drop)]
pub struct Printer<'a> {
    pub buffer: &'a mut [u8],
    pub at: usize,
}

impl<'a> Printer<'a> {
    pub fn new(buffer: &'a mut [u8]) -> Printer<'a>
        ensures same_buffer { result.buffer.ghost_name ≡ buffer.entry.ghost_name }
        ensures bytes { result.buffer.now ≡ buffer.old }
        ensures place { result.at ≡ 0 }
    {
        Printer { buffer, at: 0 }
    }

    // The place after what is printed.
    pub fn place(&self) -> usize
        ensures { result ≡ self.now.at }
    {
        self.at
    }

    pub fn put_byte(&mut self, byte: u8)
        requires { self.old.at < 2 ^ 63 }
        ensures { Printed (byte ∷ []) self.old self.new }
    {
        if self.at < self.buffer.len() {
            self.buffer[self.at] = byte;
        }
        self.at += 1;
    }

    pub fn put_text(&mut self, text: &str)
        requires { self.old.at + length text.now < 2 ^ 63 }
        ensures { Printed text.now self.old self.new }
    {
        self.put_bytes(text.as_bytes());
    }

    // Bytes that need be no text.
    pub fn put_bytes(&mut self, bytes: &[u8])
        requires { self.old.at + length bytes.now < 2 ^ 63 }
        ensures { Printed bytes.now self.old self.new }
    {
        for &byte in bytes {
            self.put_byte(byte);
        }
    }

    // A number in decimal, without leading zeros. By hand: by its contract a `write!` may fail, and nothing is known of the buffer then.
    pub fn put_number(&mut self, n: u64)
        requires { self.old.at < 2 ^ 62 }
        ensures printed { Printed (decimal n) self.old self.new }
        ensures short { self.new.at ≤ self.old.at + 20 }
    {
        if n >= 10 {
            self.put_number(n / 10);
        }
        self.put_byte(b'0' + (n % 10) as u8);
    }
}
