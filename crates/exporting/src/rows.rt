// Writes the rows of a record.
ghost use Rattle.std.specs.Prelude.{true, List, [], ◌∷◌, ◌≡◌, ℕ, ◌+◌, ◌≤◌, length};
ghost use Rattle.octets.specs.Octets.{overwrite};
ghost use Rattle.block.specs.Reading.{is_some};
ghost use Rattle.block.specs.Response.{reports, next_report};
ghost use Rattle.tables.specs.Exporting.{id_of, is_refused};
ghost use Rattle.exporting.specs.Text.{record_given, record_lines, room_after};
ghost use Rattle.exporting.specs.RowText.{row_start, row_number, row_text, left_text, next_row, row_size, Puts};

use block::response::NextReport;
use tool::response::Block;

// The longest start of a row: `"x`, an ID, `","1","`, a counter, `","0x`.
const LONGEST_START: usize = 2 + 2 * framing::ID_SIZE + 7 + numerals::DIGITS + 5;

// Rows that were put.
#[derive(Clone, Copy)]
pub(crate) struct Put {
    pub(crate) end: usize,
    // Whether the record is a response that is refused.
    pub(crate) refused: bool,
}

// A report. `value` bytes of the block are left where its value starts, and `rest` after it; this page is then in force.
#[derive(Clone, Copy)]
struct NextRow {
    page: u8,
    low: u8,
    value: usize,
    rest: usize,
}

// The report that stands first in what is left of a well-formed block; none at its end.
fn next_row(left: &[u8], page: u8) -> Option<NextRow>
    ensures { result ≡ next_row (next_report page left.now) }
{
    match reports::next_report(left, page) {
        NextReport::End | NextReport::Malformed => None,
        NextReport::Held {
            page: next_page,
            low,
            value,
            rest,
        } => Some(NextRow {
            page: next_page,
            low,
            value,
            rest,
        }),
        NextReport::Unknown {
            page: next_page,
            low,
            rest,
        } => Some(NextRow {
            page: next_page,
            low,
            value: rest,
            rest,
        }),
    }
}

// The ID of the board with this index.
fn id_of(ids: &[u8], index: u16) -> &[u8]
    ensures { result.now ≡ id_of ids.now index }
{
    let at = framing::ID_SIZE * usize::from(index);
    octets::first_bytes(octets::bytes_after(ids, at), framing::ID_SIZE)
}

// How many bytes stand before the number in each row of a response.
#[tactic(auto, using(crate::proofs::RowTexts::length_start))]
fn start_size(id: &[u8], counter: u32) -> usize
    requires { length id.now ≤ 16 }
    ensures { result ≡ length (row_start id.now counter) }
{
    let numeral = numerals::decimal(u64::from(counter));
    2 + 2 * id.len() + 7 + numeral.text().len() + 5
}

// Puts what stands before the number in each row of a response into the first bytes of `text`, where it has room, and says where it ends.
#[tactic(auto, using(crate::proofs::RowTexts::length_start))]
fn put_start(text: &mut [u8], id: &[u8], counter: u32) -> usize
    requires { length (row_start id.now counter) ≤ length text.old }
    ensures { Puts text.old 0 (row_start id.now counter) result text.new }
{
    octets::overwrite(text, 0, b"\"x");
    numerals::write_hex(text, 2, id);
    let direction = 2 + 2 * id.len();
    octets::overwrite(text, direction, b"\",\"1\",\"");
    let numeral = numerals::decimal(u64::from(counter));
    let digits = numeral.text();
    let number = direction + 7;
    octets::overwrite(text, number, digits);
    let end = number + digits.len();
    octets::overwrite(text, end, b"\",\"0x");
    end + 5
}

// A number in four digits, and what stands before the value.
#[tactic(auto, unfolding(numerals::specs::Numerals::hex_bytes))]
fn row_number(page: u8, low: u8) -> [u8; 8]
    ensures { result ≡ row_number (page ∷ low ∷ []) }
{
    let high_digits = numerals::hex_byte(page);
    let low_digits = numerals::hex_byte(low);
    [
        high_digits[0],
        high_digits[1],
        low_digits[0],
        low_digits[1],
        b'"',
        b',',
        b'"',
        b'x',
    ]
}

// Puts a row into `text` from `at` on, where it has room, and says where it ends.
#[tactic(auto, using(crate::proofs::RowTexts::length_row))]
fn put_row(text: &mut [u8], at: usize, start: &[u8], page: u8, low: u8, value: &[u8]) -> usize
    requires { at + length (row_text start.now (page ∷ low ∷ []) value.now) ≤ length text.old }
    ensures { Puts text.old at (row_text start.now (page ∷ low ∷ []) value.now) result text.new }
{
    let number = row_number(page, low);
    octets::overwrite_pair(text, at, start, &number);
    let digits = at + start.len() + 8;
    numerals::write_hex(text, digits, value);
    let end = digits + 2 * value.len();
    octets::overwrite(text, end, b"\"\r\n");
    end + 3
}

// Puts the rows of a block into `text` from `at` on, where they have room, and says where they end.
fn put_rows(text: &mut [u8], at: usize, start: &[u8], block: &[u8]) -> usize
    requires block_value { is_some (reports block.now) ≡ true }
    requires block_in_bounds { at + length (left_text start.now 0 block.now) ≤ length text.old }
    ensures { Puts text.old at (left_text start.now 0 block.now) result text.new }
{
    let mut place = at;
    let mut left = block;
    let mut page: u8 = 0;
    loop {
        let Some(
            NextRow {
                page: next_page,
                low,
                value,
                rest,
            },
        ) = next_row(left, page)
        else {
            return place;
        };
        let bytes = block::part(left, value, rest);
        place = put_row(text, place, start, next_page, low, bytes);
        left = block::part(left, rest, 0);
        page = next_page;
    }
}

// What is left of some room after a row, of which the start and the value have so many bytes; none where the room is too small. 4 digits,
// `","x` and `"` CR LF stand around the value.
fn room_after_row(room: usize, start: usize, value: usize) -> Option<usize>
    ensures { (row : List ℕ) → length row ≡ row_size start value → result ≡ room_after room row }
{
    room.checked_sub(start)?
        .checked_sub(11)?
        .checked_sub(value.checked_mul(2)?)
}

// What is left of some room after the rows of a block, of which each start has so many bytes; none where the room is too small.
fn room_after_rows(room: usize, size: usize, block: &[u8]) -> Option<usize>
    requires { is_some (reports block.now) ≡ true }
    ensures { (start : List ℕ) → length start ≡ size → result ≡ room_after room (left_text start 0 block.now) }
{
    let mut space = room;
    let mut left = block;
    let mut page: u8 = 0;
    loop {
        let Some(
            NextRow {
                page: next_page,
                low: _,
                value,
                rest,
            },
        ) = next_row(left, page)
        else {
            return Some(space);
        };
        let bytes = block::part(left, value, rest);
        space = room_after_row(space, size, bytes.len())?;
        left = block::part(left, rest, 0);
        page = next_page;
    }
}

// A record of a capture.
#[derive(Clone, Copy)]
pub(crate) struct Record<'a> {
    pub(crate) index: u16,
    pub(crate) direction: u8,
    pub(crate) counter: u32,
    pub(crate) packet: &'a [u8],
}

impl<'a> Record<'a> {
    // What is left of some room after the rows of the record; none where the room is too small.
    pub(crate) fn room_after(&self, room: usize, ids: &[u8]) -> Option<usize>
        ensures { result ≡ room_after room (record_lines ids.now (record_given self.now)) }
    {
        if self.direction != 1 {
            return Some(room);
        }
        let Ok(Block { block, end }) = tool::response::read_any(self.packet) else {
            return Some(room);
        };
        let size = start_size(id_of(ids, self.index), self.counter);
        room_after_rows(room, size, &self.packet[block..end])
    }

    // Puts the rows of the record into `text` from `at` on, where they have room, and says where they end.
    pub(crate) fn put(&self, text: &mut [u8], at: usize, ids: &[u8]) -> Put
        requires { at + length (record_lines ids.now (record_given self.now)) ≤ length text.old }
        ensures end_value { result.end ≡ at + length (record_lines ids.now (record_given self.now)) }
        ensures refused_value { result.refused ≡ is_refused (record_given self.now) }
        ensures text_after { text.new ≡ overwrite text.old at (record_lines ids.now (record_given self.now)) }
    {
        if self.direction != 1 {
            return Put {
                end: at,
                refused: false,
            };
        }
        let Ok(Block { block, end }) = tool::response::read_any(self.packet) else {
            return Put {
                end: at,
                refused: true,
            };
        };
        let mut start = [0u8; LONGEST_START];
        let size = put_start(&mut start, id_of(ids, self.index), self.counter);
        Put {
            end: put_rows(text, at, &start[..size], &self.packet[block..end]),
            refused: false,
        }
    }
}
