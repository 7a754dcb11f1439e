// Exports the records of a capture that is read through a window.
ghost use Rattle.exporting.specs.Exporting.{window_call, ExportsWindow};

use super::Source;
use captures::Version;
use refusals::Refusal;

// So many bytes of text for each byte of records are always enough.
pub const TEXT_PER_BYTE: usize = 40;

// The rows of the records of a window: the length of their text, how many responses are refused so far, and how the records end.
#[derive(Clone, Copy, Debug, PartialEq, Eq)]
pub struct Rows {
    pub length: usize,
    pub refused: u64,
    pub ending: Result<usize, Refusal>,
}

// Puts the rows of the records that stand in a window from `start` to `end` into the first bytes of `text`, and moves the bytes that are
// left to the window's start. None, and nothing is done, where the text is shorter than 40 bytes for each byte of the records.
pub fn export_window(
    text: &mut [u8],
    window: &mut [u8],
    start: usize,
    end: usize,
    ids: &[u8],
    version: Version,
    boards: u16,
    refused: u64,
) -> Option<Rows>
    ensures { ExportsWindow (window_call text.old window.old start end ids.now version boards refused) result text.new window.new }
{
    let records = octets::bytes_after(octets::first_bytes(window, end), start);
    if text.len() / TEXT_PER_BYTE < records.len() {
        return None;
    }
    let source = Source {
        ids,
        records,
        version,
        boards,
    };
    let put = source.put(text, 0, refused);
    counts::window::keep(window, end, put.ending);
    Some(Rows {
        length: put.end,
        refused: put.refused,
        ending: put.ending,
    })
}
