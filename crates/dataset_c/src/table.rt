// The calls on tables.
ghost use Rattle.std.specs.Prelude.{◌≡◌};
ghost use Rattle.importing.specs.Reading.{opened_of, next_row};
ghost use Rattle.dataset.specs.Captures.{version_numbered};
ghost use Rattle.dataset.specs.Tables.{WritesTableHeader, ExportsInNumbers, ExportsNumbered, opened_table, row_in_numbers, ReadsHexInNumbers};

use dataset::Reply;
use dataset::table::{ExportedRows, ExportedTable, OpenedTable, TableRow};

// Puts the header of a table into the first bytes of `buffer`. Refusal 54: it does not fit.
#[unsafe(no_mangle)]
pub extern "C" fn udgornwy_table_header(buffer: &mut [u8]) -> Reply
    ensures { WritesTableHeader buffer.old result buffer.new }
{
    dataset::table::udgornwy_table_header(buffer)
}

// Exports a capture into the first bytes of `buffer`, as `exporting::export`.
#[unsafe(no_mangle)]
pub extern "C" fn udgornwy_export_table(buffer: &mut [u8], capture: &[u8]) -> ExportedTable
    ensures { ExportsInNumbers buffer.old capture.now result buffer.new }
{
    dataset::table::udgornwy_export_table(buffer, capture)
}

// Exports the records that stand in a window from `start` to `end`, as `exporting::window::export_window`. Refusal 51: no version has this
// number; 54: the text is shorter than 40 bytes for each byte of the records.
#[unsafe(no_mangle)]
pub extern "C" fn udgornwy_export_window(
    text: &mut [u8],
    window: &mut [u8],
    start: usize,
    end: usize,
    ids: &[u8],
    version: u16,
    boards: u16,
    refused: u64,
) -> ExportedRows
    ensures { ExportsNumbered (version_numbered version) text.old window.old start end ids.now boards refused result text.new window.new }
{
    dataset::table::udgornwy_export_window(text, window, start, end, ids, version, boards, refused)
}

// Reads the header of a table, as `importing::reading::open`.
#[unsafe(no_mangle)]
pub extern "C" fn udgornwy_open_table(text: &[u8]) -> OpenedTable
    ensures { result ≡ opened_table (opened_of text.now) }
{
    dataset::table::udgornwy_open_table(text)
}

// Reads the first row of what is left of a table, whose line has this number, as `importing::reading::next_row`.
#[unsafe(no_mangle)]
pub extern "C" fn udgornwy_next_row(text: &[u8], line: u64) -> TableRow
    ensures { result ≡ row_in_numbers (next_row text.now line) }
{
    dataset::table::udgornwy_next_row(text, line)
}

// Puts the bytes of pairs of uppercase hexadecimal digits into the first bytes of `bytes`, as `importing::hex::read_hex`. Refusal 63: other
// digits, or no room for the bytes.
#[unsafe(no_mangle)]
pub extern "C" fn udgornwy_read_hex(bytes: &mut [u8], digits: &[u8]) -> Reply
    ensures { ReadsHexInNumbers bytes.old digits.now result bytes.new }
{
    dataset::table::udgornwy_read_hex(bytes, digits)
}
