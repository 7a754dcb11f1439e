// Tables written of captures and read, with answers in numbers.
ghost use Rattle.std.specs.Prelude.{◌≡◌};
ghost use Rattle.importing.specs.Reading.{opened_of, next_row};
ghost use Rattle.refusals.specs.Refusals.{number_of};
ghost use Rattle.dataset.specs.Captures.{version_numbered};
ghost use Rattle.dataset.specs.Tables.{WritesTableHeader, ExportsInNumbers, no_rows, ExportsNumbered, opened_table, no_row, row_in_numbers, ReadsHexInNumbers};

use super::{Reply, capture};
use importing::reading::NextRow;
use refusals::{Refusal, number_or_zero};

// Puts the header of a table into the first bytes of `buffer`. Refusal 54: it does not fit.
pub fn udgornwy_table_header(buffer: &mut [u8]) -> Reply
    ensures { WritesTableHeader buffer.old result buffer.new }
{
    if !octets::overwrite(buffer, 0, &tables::header()) {
        return Reply::from(Err(Refusal::NoSpace));
    }
    Reply::from(Ok(tables::HEADER_SIZE))
}

// Refusal 0: the table's length, how many responses are refused, and the number of the capture's refusal, 0 for none. Refusal 54: the
// table does not fit, and every other number is 0.
#[repr(C)]
#[derive(Clone, Copy)]
pub struct ExportedTable {
    pub refusal: u16,
    pub capture: u16,
    pub length: usize,
    pub refused: u64,
}

// Exports a capture into the first bytes of `buffer`, as `exporting::export`.
pub fn udgornwy_export_table(buffer: &mut [u8], capture: &[u8]) -> ExportedTable
    ensures { ExportsInNumbers buffer.old capture.now result buffer.new }
{
    match exporting::export(buffer, capture) {
        Some(exported) => ExportedTable {
            refusal: 0,
            capture: u16::from(number_or_zero(exported.capture)),
            length: exported.length,
            refused: exported.refused,
        },
        None => ExportedTable {
            refusal: u16::from(Refusal::NoSpace.number()),
            capture: 0,
            length: 0,
            refused: 0,
        },
    }
}

// Refusal 0: the length of the rows, how many responses are refused so far, and how the records end: `ending` 53 at a field outside its
// range, else `left` bytes are left. With any other refusal every number is 0.
#[repr(C)]
#[derive(Clone, Copy)]
pub struct ExportedRows {
    pub refusal: u16,
    pub ending: u16,
    pub length: usize,
    pub refused: u64,
    pub left: usize,
}

fn no_rows(refusal: Refusal) -> ExportedRows
    ensures { result ≡ no_rows (number_of refusal) }
{
    ExportedRows {
        refusal: u16::from(refusal.number()),
        ending: 0,
        length: 0,
        refused: 0,
        left: 0,
    }
}

// Exports the records that stand in a window from `start` to `end`, as `exporting::window::export_window`. Refusal 51: no version has this
// number; 54: the text is shorter than 40 bytes for each byte of the records.
pub fn udgornwy_export_window(
    text: &mut [u8],
    window: &mut [u8],
    start: usize,
    end: usize,
    ids: &[u8],
    version: u16,
    boards: u16,
    refused: u64,
) -> ExportedRows
    ensures { ExportsNumbered (version_numbered version) text.old window.old start end ids.now boards refused result text.new window.new }
{
    let Some(version) = capture::version_numbered(version) else {
        return no_rows(Refusal::UnknownVersion);
    };
    let exported = exporting::window::export_window(
        text, window, start, end, ids, version, boards, refused,
    );
    let Some(rows) = exported else {
        return no_rows(Refusal::NoSpace);
    };
    let ended = Reply::from(rows.ending);
    ExportedRows {
        refusal: 0,
        ending: ended.refusal,
        length: rows.length,
        refused: rows.refused,
        left: ended.length,
    }
}

// Refusal 0: so many bytes are left after the header, and the next line has this number. With any other the line is the one at fault,
// and no byte is left.
#[repr(C)]
#[derive(Clone, Copy)]
pub struct OpenedTable {
    pub refusal: u16,
    pub line: u64,
    pub rest: usize,
}

// Reads the header of a table, as `importing::reading::open`.
pub fn udgornwy_open_table(text: &[u8]) -> OpenedTable
    ensures { result ≡ opened_table (opened_of text.now) }
{
    match importing::reading::open(text) {
        Ok(table) => OpenedTable {
            refusal: 0,
            line: table.line,
            rest: table.rest,
        },
        Err(refused) => OpenedTable {
            refusal: u16::from(refused.refusal.number()),
            line: refused.line,
            rest: 0,
        },
    }
}

// Kind 0: a row; 1: no line is left; 2: refused, and the line is the one at fault. With any other than 0 all other numbers are 0.
#[repr(C)]
#[derive(Clone, Copy)]
pub struct TableRow {
    pub kind: u8,
    pub page: u8,
    pub low: u8,
    pub refusal: u16,
    pub counter: u32,
    pub line: u64,
    pub board: usize,
    pub value: usize,
    pub value_end: usize,
    pub rest: usize,
}

// No row, for this reason.
fn no_row(kind: u8, refusal: u16, line: u64) -> TableRow
    ensures { result ≡ no_row kind refusal line }
{
    TableRow {
        kind,
        page: 0,
        low: 0,
        refusal,
        counter: 0,
        line,
        board: 0,
        value: 0,
        value_end: 0,
        rest: 0,
    }
}

// Reads the first row of what is left of a table, whose line has this number, as `importing::reading::next_row`.
pub fn udgornwy_next_row(text: &[u8], line: u64) -> TableRow
    ensures { result ≡ row_in_numbers (next_row text.now line) }
{
    match importing::reading::next_row(text, line) {
        NextRow::Row {
            board,
            counter,
            page,
            low,
            value,
            value_end,
            rest,
            line,
        } => TableRow {
            kind: 0,
            page,
            low,
            refusal: 0,
            counter,
            line,
            board,
            value,
            value_end,
            rest,
        },
        NextRow::End => no_row(1, 0, 0),
        NextRow::Refused(refused) => {
            no_row(2, u16::from(refused.refusal.number()), refused.line)
        }
    }
}

// Puts the bytes of pairs of uppercase hexadecimal digits into the first bytes of `bytes`, as `importing::hex::read_hex`. Refusal 63: other
// digits, or no room for the bytes.
#[tactic(auto, using(importing::proofs::HexDigits::bytes_size))]
pub fn udgornwy_read_hex(bytes: &mut [u8], digits: &[u8]) -> Reply
    ensures { ReadsHexInNumbers bytes.old digits.now result bytes.new }
{
    if !importing::hex::read_hex(bytes, digits) {
        return Reply::from(Err(Refusal::BadField));
    }
    Reply::from(Ok(digits.len() / 2))
}
