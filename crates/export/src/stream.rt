// Writes the table of a capture that is read from standard input through a window.
use captures::reading::Head;
use refusals::Refusal;
use std::io;
use std::io::{Stdin, Stdout};

// How the table ends: how many responses are refused, and the refusal of the capture.
#[derive(Clone, Copy)]
pub(crate) struct Ended {
    pub refused: u64,
    pub capture: Option<Refusal>,
}

// Why the table does not end.
#[derive(Drop)]
pub(crate) enum StreamError {
    // Standard input could not be read to its end.
    Read(io::Error),
    // The table could not be written.
    Write(io::Error),
}

// Writes the rows of the records that stand in the window behind the head, up to `filled`, and then of those that are read behind the bytes
// that are left. Nothing says that the input ends, so the turns are counted.
fn write_rows(
    stdin: &mut Stdin,
    stdout: Stdout,
    text: &mut [u8],
    window: &mut [u8],
    head: Head,
    filled: usize,
    ids: &[u8],
) -> Result<Ended, StreamError> {
    let mut start = head.records;
    let mut end = filled;
    let mut refused: u64 = 0;
    for _ in 0..u64::MAX {
        let rows = exporting::window::export_window(
            text,
            window,
            start,
            end,
            ids,
            head.version,
            head.boards,
            refused,
        )
        .ok_or_else(|| StreamError::Write(io::Error::from(io::ErrorKind::Other)))?;
        refused = rows.refused;
        stdout
            .write_all(octets::first_bytes(text, rows.length))
            .map_err(StreamError::Write)?;
        let capture = counts::counting::refusal_at_end(rows.ending);
        let Ok(left) = rows.ending else {
            return Ok(Ended { refused, capture });
        };
        let until = input::fill(stdin, window, left).map_err(StreamError::Read)?;
        if until <= left {
            return Ok(Ended { refused, capture });
        }
        start = 0;
        end = until;
    }
    Err(StreamError::Read(io::Error::from(io::ErrorKind::Other)))
}

// Writes the rows of the capture whose first `filled` bytes stand in the window, and whose other bytes are read. The window is read into
// again, so that the IDs are kept apart.
fn write_records(
    stdin: &mut Stdin,
    stdout: Stdout,
    text: &mut [u8],
    window: &mut [u8],
    ids: &mut [u8],
    filled: usize,
) -> Result<Ended, StreamError> {
    let head = match captures::reading::open(octets::first_bytes(window, filled)) {
        Ok(head) => head,
        Err(refusal) => {
            return Ok(Ended {
                refused: 0,
                capture: Some(refusal),
            });
        }
    };
    let size = framing::ID_SIZE * usize::from(head.boards);
    octets::overwrite(
        ids,
        0,
        octets::first_bytes(octets::bytes_after(window, head.ids), size),
    );
    let kept = octets::first_bytes(ids, size);
    write_rows(stdin, stdout, text, window, head, filled, kept)
}

// Writes the table of the capture on standard input.
pub(crate) fn write_table(
    stdin: &mut Stdin,
    stdout: Stdout,
    text: &mut [u8],
    window: &mut [u8],
    ids: &mut [u8],
) -> Result<Ended, StreamError> {
    let filled = input::fill_until(stdin, window, captures::LONGEST_HEAD).map_err(
        StreamError::Read,
    )?;
    stdout
        .write_all(&tables::header())
        .map_err(StreamError::Write)?;
    write_records(stdin, stdout, text, window, ids, filled)
}
