// The header of a table, and its rows.
ghost use Rattle.std.specs.Prelude.{◌≡◌, ◌+◌, ◌<◌, ◌≤◌, length, IfOk};
ghost use Rattle.tables.specs.Lines.{line_size};
ghost use Rattle.importing.specs.Reading.{line_after, opened_of, row_read, refused_as, next_row};

use crate::forms::RowFields;
use crate::{fields, forms};
use refusals::Refusal;

// The bytes of a line's CR LF.
const END_SIZE: usize = 2;

// The fields of a row.
const FIELDS: usize = 5;

// So many bytes are left after the header of a table, and the next line has this number.
#[derive(Clone, Copy, Debug, PartialEq, Eq)]
pub struct Rest {
    pub rest: usize,
    pub line: u64,
}

// A refusal, and the number of its line.
#[derive(Clone, Copy, Debug, PartialEq, Eq)]
pub struct RefusedLine {
    pub refusal: Refusal,
    pub line: u64,
}

// What stands first in what is left of a table.
#[derive(Clone, Copy)]
pub enum NextRow {
    // A row. So many bytes are left where the 32 digits of its board's ID start, and where the digits of its value start and end: none
    // for an unknown parameter. So many are left after the line, and the next has this number.
    Row {
        board: usize,
        counter: u32,
        page: u8,
        low: u8,
        value: usize,
        value_end: usize,
        rest: usize,
        line: u64,
    },
    // No line is left.
    End,
    Refused(RefusedLine),
}

// The bytes before the first CR LF, or all where there is none.
#[tactic(auto, using(crate::proofs::Sizes::no_line, crate::proofs::Sizes::line_ends, crate::proofs::Sizes::other_first, crate::proofs::Sizes::other_second, crate::proofs::Sizes::line_within, crate::proofs::Sizes::end_within))]
fn line_size(text: &[u8]) -> usize
    ensures value { result ≡ line_size text.now }
    ensures upper_bound { result ≤ length text.now }
    ensures end_in_bounds { result < length text.now → result + 2 ≤ length text.now }
{
    for (at, byte) in text.iter().enumerate() {
        if *byte == b'\r' && octets::byte_at(text, at + 1) == b'\n' {
            return at;
        }
    }
    text.len()
}

// The number of the line after it.
fn line_after(line: u64) -> u64
    ensures { result ≡ line_after line }
{
    line.saturating_add(1)
}

// The header of a table.
#[tactic(auto, unfolding(tables::specs::Importing::header_refusals, framing::specs::Refusal::first_refusal, tables::specs::Fields::quoted))]
pub fn open(text: &[u8]) -> Result<Rest, RefusedLine>
    ensures { result ≡ opened_of text.now }
{
    if text.is_empty() {
        return Err(RefusedLine {
            refusal: Refusal::TableHeader,
            line: 1,
        });
    }
    let size = line_size(text);
    let header = b"\"board\",\"direction\",\"counter\",\"number\",\"value\"";
    if !octets::equal(octets::first_bytes(text, size), header) {
        return Err(RefusedLine {
            refusal: Refusal::TableHeader,
            line: 1,
        });
    }
    if size == text.len() {
        return Err(RefusedLine {
            refusal: Refusal::BadLine,
            line: 1,
        });
    }
    Ok(Rest {
        rest: text.len() - size - END_SIZE,
        line: 2,
    })
}

// The fields of a line that ends in CR LF, or its refusal.
#[tactic(auto, using(crate::proofs::NextRows::row_unquoted))]
fn read_row(line: &[u8]) -> Result<RowFields, Refusal>
    ensures value { result ≡ row_read line.now }
    ensures value_in_bounds { IfOk result (λ row. (1 ≤ row.value) × (row.value + 2 ≤ length line.now)) }
{
    let count = fields::count_fields(line).ok_or(Refusal::BadLine)?;
    if count != FIELDS {
        return Err(Refusal::FieldCount);
    }
    forms::read_fields(line).ok_or(Refusal::BadField)
}

fn refused(refusal: Refusal, line: u64) -> NextRow
    ensures { result ≡ refused_as refusal line }
{
    NextRow::Refused(RefusedLine { refusal, line })
}

// The first row of what is left of a table, whose line has this number.
#[tactic(auto, using(crate::proofs::NextRows::row_open, crate::proofs::NextRows::row_refused, crate::proofs::NextRows::row_accepted))]
pub fn next_row(text: &[u8], line: u64) -> NextRow
    ensures { result ≡ next_row text.now line }
{
    if text.is_empty() {
        return NextRow::End;
    }
    let size = line_size(text);
    if size == text.len() {
        return refused(Refusal::BadLine, line);
    }
    match read_row(octets::first_bytes(text, size)) {
        Err(refusal) => refused(refusal, line),
        Ok(row) => {
            let value_end = text.len() - (size - 1);
            NextRow::Row {
                board: text.len() - 2,
                counter: row.counter,
                page: row.page,
                low: row.low,
                value: value_end + (row.value - 1),
                value_end,
                rest: text.len() - size - END_SIZE,
                line: line_after(line),
            }
        }
    }
}
