// Uppercase hexadecimal digits.
ghost use Rattle.std.specs.Prelude.{◌+◌, ◌*◌, ◌<◌, true, ◌≡◌, length, get_or};
ghost use Rattle.tables.specs.Importing.{is_hex, hex_value, all_hex, bytes_in};
ghost use Rattle.importing.specs.Hex.{ReadsHex};

fn is_hex(digit: u8) -> bool
    ensures { result ≡ is_hex digit }
{
    if octets::is_between(b'0', b'9', digit) {
        return true;
    }
    octets::is_between(b'A', b'F', digit)
}

#[tactic(auto, unfolding(tables::specs::Importing::all_hex))]
pub(crate) fn all_hex(digits: &[u8]) -> bool
    ensures { result ≡ all_hex digits.now }
{
    digits.iter().all(|digit| is_hex(*digit))
}

fn hex_value(digit: u8) -> u8
    requires { is_hex digit ≡ true }
    ensures value { result ≡ hex_value digit }
    ensures upper_bound { result < 16 }
{
    if digit <= b'9' {
        return digit - b'0';
    }
    digit - 0x37
}

// The byte of a pair of digits, by its index.
#[tactic(auto, using(crate::proofs::HexDigits::hex_at, crate::proofs::HexDigits::byte_at))]
pub(crate) fn byte_in(digits: &[u8], index: usize) -> u8
    requires digits_value { all_hex digits.now ≡ true }
    requires index_in_bounds { 2 * index + 1 < length digits.now }
    ensures { result ≡ get_or (bytes_in digits.now) index 0 }
{
    let at = 2 * index;
    hex_value(digits[at]) * 16 + hex_value(digits[at + 1])
}

// Puts the bytes of pairs of digits into the first bytes of `bytes`, and says whether it did: not where another byte stands among the
// digits, their count is odd, or the bytes have no room. Then `bytes` stays as it was.
pub fn read_hex(bytes: &mut [u8], digits: &[u8]) -> bool
    ensures { ReadsHex bytes.old digits.now result bytes.new }
{
    if digits.len() % 2 == 1 {
        return false;
    }
    let count = digits.len() / 2;
    if bytes.len() < count {
        return false;
    }
    if !all_hex(digits) {
        return false;
    }
    for i in 0..count {
        bytes[i] = byte_in(digits, i);
    }
    true
}
