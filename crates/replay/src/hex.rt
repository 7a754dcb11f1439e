// Bytes as a call list shows them: pairs of uppercase digits, or `-` for none.
ghost use Rattle.std.specs.Prelude.{◌<◌, MatchOption};

use crate::lines;

// A line has digits of so many bytes at most.
pub(crate) const MOST: usize = lines::LONGEST / 2;

// The value of a digit.
fn digit(character: u8) -> Option<u8>
    ensures { MatchOption result (Unit {0}) (λ value. value < 16) }
{
    match character {
        b'0'..=b'9' => Some(character - b'0'),
        b'A'..=b'F' => Some(character - b'A' + 10),
        _ => None,
    }
}

// The byte of two digits.
pub(crate) fn pair(high: u8, low: u8) -> Option<u8> {
    Some(16 * digit(high)? + digit(low)?)
}

// Puts the bytes of as many pairs of digits into `bytes`.
fn decode_pairs(pairs: &[u8], bytes: &mut [u8]) -> Option<()> {
    for (byte, digits) in bytes.iter_mut().zip(pairs.chunks_exact(2)) {
        let [high, low] = digits else {
            return None;
        };
        *byte = pair(*high, *low)?;
    }
    Some(())
}

// Puts the bytes of a field that stands for one byte at least at the start of a room. Hands back these bytes and the room behind them.
pub(crate) fn decode_some<'a>(
    field: &[u8],
    room: &'a mut [u8],
) -> Option<(&'a mut [u8], &'a mut [u8])> {
    if field.is_empty() || field.len() % 2 != 0 {
        return None;
    }
    let (bytes, rest) = room.split_at_mut_checked(field.len() / 2)?;
    decode_pairs(field, bytes)?;
    Some((bytes, rest))
}

// The same of any field.
pub(crate) fn decode<'a>(field: &[u8], room: &'a mut [u8]) -> Option<(&'a mut [u8], &'a mut [u8])> {
    if let [b'-'] = field {
        return room.split_at_mut_checked(0);
    }
    decode_some(field, room)
}
