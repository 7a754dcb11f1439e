// Numbers and bytes as text.
#![tactic(auto)]

ghost use Rattle.std.specs.Prelude.{◌∷◌, [], ◌≡◌, ◌≤◌, ◌<◌, drop, length};
ghost use Rattle.octets.specs.Octets.{Overwrites};
ghost use Rattle.numerals.specs.Numerals.{hex_digit, hex_bytes, digit, decimal, Before, Holds};

// A number of 64 bits has up to 20 digits.
pub const DIGITS: usize = 20;

fn hex_digit(digit: u8) -> u8
    requires { digit < 16 }
    ensures { result ≡ hex_digit digit }
{
    if digit < 10 {
        return b'0' + digit;
    }
    b'A' + (digit - 10)
}

// A byte in two digits.
#[tactic(auto, unfolding(crate::specs::Numerals::hex_bytes))]
pub fn hex_byte(byte: u8) -> [u8; 2]
    ensures { result ≡ hex_bytes (byte ∷ []) }
{
    [hex_digit(byte / 16), hex_digit(byte % 16)]
}

// Puts two digits for each byte into `text` from `at` on, and says whether they fit; where they do not, the text stays as it was.
pub fn write_hex(text: &mut [u8], at: usize, bytes: &[u8]) -> bool
    ensures { Overwrites text.old at (hex_bytes bytes.now) result text.new }
{
    if text.len() < at {
        return false;
    }
    let room = text.len() - at;
    if room / 2 < bytes.len() {
        return false;
    }
    for (i, byte) in bytes.iter().enumerate() {
        octets::overwrite(text, at + 2 * i, &hex_byte(*byte));
    }
    true
}

fn digit_of(number: u64) -> u8
    requires { number < 10 }
    ensures { result ≡ digit number }
{
    b'0' + number as u8
}

// Puts a number in decimal before `end`, and says where it starts.
fn write_number(bytes: &mut [u8], end: usize, number: u64) -> usize
    requires le_end { 20 ≤ end }
    requires end_in_bounds { end ≤ length bytes.old }
    ensures { Before (decimal number) end bytes.old result bytes.new }
{
    let mut at = end - 1;
    let mut rest = number;
    while 9 < rest {
        bytes[at] = digit_of(rest % 10);
        rest /= 10;
        at -= 1;
    }
    bytes[at] = digit_of(rest);
    at
}

// Digits that end their buffer: they stand from `start` on.
#[derive(Clone, Copy)]
pub struct Numeral {
    pub bytes: [u8; DIGITS],
    pub start: usize,
}

impl Numeral {
    // The digits alone.
    pub fn text(&self) -> &[u8]
        ensures { result.now ≡ drop self.now.start self.now.bytes }
    {
        octets::bytes_after(&self.bytes, self.start)
    }
}

// A number in decimal.
pub fn decimal(number: u64) -> Numeral
    ensures { Holds (decimal number) result }
{
    let mut bytes = [0u8; DIGITS];
    let start = write_number(&mut bytes, DIGITS, number);
    Numeral { bytes, start }
}
