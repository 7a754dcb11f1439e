// The fields of a line. A field that is none of the forms gives `None`, and its line is a bad line.
use crate::{hex, lines};

// A line has so many commands or records at most: each has eight characters at least, with the space before it.
pub(crate) const MOST: usize = lines::LONGEST / 8;

// The first four fields of a line, and what is left of it.
pub(crate) fn split(line: &[u8]) -> [Option<&[u8]>; 5] {
    let mut fields = line.splitn(5, |byte| *byte == b' ');
    [
        fields.next(),
        fields.next(),
        fields.next(),
        fields.next(),
        fields.next(),
    ]
}

// What stands before and behind the first separator of a field.
pub(crate) fn split_once(field: &[u8], separator: u8) -> Option<(&[u8], &[u8])> {
    let place = field.iter().position(|byte| *byte == separator)?;
    Some((
        octets::first_bytes(field, place),
        octets::bytes_after(field, place + 1),
    ))
}

// A decimal number up to 4294967295, without a leading zero.
pub(crate) fn decimal(field: &[u8]) -> Option<u32> {
    if let [] | [b'0', _, ..] = field {
        return None;
    }
    let mut value: u32 = 0;
    for character in field {
        let digit = match *character {
            b'0'..=b'9' => *character - b'0',
            _ => return None,
        };
        value = value.checked_mul(10)?.checked_add(u32::from(digit))?;
    }
    Some(value)
}

// A decimal number up to 255.
pub(crate) fn byte(field: &[u8]) -> Option<u8> {
    u8::try_from(decimal(field)?).ok()
}

// A decimal number up to 65535.
pub(crate) fn index(field: &[u8]) -> Option<u16> {
    u16::try_from(decimal(field)?).ok()
}

// The first bytes of a lent buffer, as many as a field says.
pub(crate) fn lend<'a>(field: &[u8], buffer: &'a mut [u8]) -> Option<&'a mut [u8]> {
    buffer.get_mut(..decimal(field)? as usize)
}

// A parameter number: four hex digits.
pub(crate) fn number(field: &[u8]) -> Option<u16> {
    let [first, second, third, fourth] = field else {
        return None;
    };
    let page = hex::pair(*first, *second)?;
    let low = hex::pair(*third, *fourth)?;
    Some(u16::from_be_bytes([page, low]))
}
