// The forms of a row's fields.
ghost use Rattle.std.specs.Prelude.{◌||◌, ◌≡◌, ltb, eqb, length, get_or};
ghost use Rattle.tables.specs.Importing.{is_hex_field, is_board, is_direction, is_number, is_value};
ghost use Rattle.importing.specs.Splitting.{first_fields};
ghost use Rattle.importing.specs.Forms.{digits_read, counter_of, row_fields_of};

use crate::{fields, hex};

// x and two digits for each of 16 bytes.
const BOARD_SIZE: usize = 33;

// 0x and four digits.
const NUMBER_SIZE: usize = 6;

// x and two digits for each of 255 bytes.
const LONGEST_VALUE: usize = 511;

// What stands in the fields of a row: page and low byte of the parameter, and how many bytes the value's field has.
#[derive(Clone, Copy)]
pub(crate) struct RowFields {
    pub(crate) counter: u32,
    pub(crate) page: u8,
    pub(crate) low: u8,
    pub(crate) value: usize,
}

// x and two digits for each byte.
fn is_hex_field(field: &[u8]) -> bool
    ensures { result ≡ is_hex_field field.now }
{
    if octets::byte_at(field, 0) != b'x' {
        return false;
    }
    if !hex::all_hex(octets::bytes_after(field, 1)) {
        return false;
    }
    field.len() % 2 == 1
}

fn is_board(field: &[u8]) -> bool
    ensures { result ≡ is_board field.now }
{
    if field.len() != BOARD_SIZE {
        return false;
    }
    is_hex_field(field)
}

#[tactic(auto, unfolding(numerals::specs::Numerals::decimal_in))]
fn is_direction(field: &[u8]) -> bool
    ensures { result ≡ is_direction field.now }
{
    octets::equal(field, b"1")
}

fn is_number(field: &[u8]) -> bool
    ensures { result ≡ is_number field.now }
{
    if field.len() != NUMBER_SIZE {
        return false;
    }
    if field[0] != b'0' {
        return false;
    }
    is_hex_field(octets::bytes_after(field, 1))
}

fn is_value(field: &[u8]) -> bool
    ensures { result ≡ is_value field.now }
{
    if !is_hex_field(field) {
        return false;
    }
    field.len() <= LONGEST_VALUE
}

// A zero leads only where it stands alone.
fn leads_right(digits: &[u8]) -> bool
    ensures { result ≡ (ltb 0x30 (get_or digits.now 0 0) || eqb (length digits.now) 1) }
{
    b'0' < octets::byte_at(digits, 0) || digits.len() == 1
}

// The number of decimal digits; none where another byte stands among them, or it is over 32 bits.
#[tactic(auto, using(crate::proofs::Counters::too_large, crate::proofs::Counters::all_read, crate::proofs::Counters::next_digit, crate::proofs::Counters::no_digit))]
fn read_digits(digits: &[u8]) -> Option<u32>
    ensures { result ≡ digits_read 0 digits.now }
{
    let mut number: u32 = 0;
    for digit in digits {
        if !octets::is_between(b'0', b'9', *digit) {
            return None;
        }
        number = number
            .checked_mul(10)?
            .checked_add(u32::from(*digit - b'0'))?;
    }
    Some(number)
}

// None where it is outside its form, or over 32 bits.
fn read_counter(field: &[u8]) -> Option<u32>
    ensures { result ≡ counter_of field.now }
{
    if field.is_empty() || !leads_right(field) {
        return None;
    }
    read_digits(field)
}

// The first five fields of a line; none where one is outside its form.
pub(crate) fn read_fields(line: &[u8]) -> Option<RowFields>
    ensures { result ≡ row_fields_of (first_fields 5 line.now) }
{
    if !is_board(fields::first_field(line)) {
        return None;
    }
    let after_board = fields::after_field(line);
    if !is_direction(fields::first_field(after_board)) {
        return None;
    }
    let after_direction = fields::after_field(after_board);
    let counter = read_counter(fields::first_field(after_direction))?;
    let after_counter = fields::after_field(after_direction);
    let number = fields::first_field(after_counter);
    if !is_number(number) {
        return None;
    }
    let value = fields::first_field(fields::after_field(after_counter));
    if !is_value(value) {
        return None;
    }
    let digits = octets::bytes_after(number, 2);
    Some(RowFields {
        counter,
        page: hex::byte_in(digits, 0),
        low: hex::byte_in(digits, 1),
        value: value.len(),
    })
}
