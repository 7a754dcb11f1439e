// The lines of the input.
ghost use Rattle.std.specs.Prelude.{◌≤◌, ◌<◌, length, IfSome};

use crate::calls;
use crate::output::Output;
use model::Board;
use std::io::Read;

// The most characters of a line.
pub(crate) const LONGEST: usize = 65536;

// Where the first line ends, if it does.
fn line_end(bytes: &[u8]) -> Option<usize>
    ensures { IfSome result (λ end. end < length bytes.now) }
{
    bytes.iter().position(|byte| *byte == b'\n')
}

// Answers each line that has ended, writes the answers out, and says how many bytes follow these lines.
fn answer_lines(board: &mut Board, lines: &[u8], room: &mut [u8], out: &mut Output<'_>) -> usize
    ensures { result ≤ length lines.now }
{
    let mut left = lines;
    while let Some(end) = line_end(left) {
        calls::answer(board, octets::first_bytes(left, end), room, out);
        left = octets::bytes_after(left, end + 1);
    }
    out.flush();
    left.len()
}

// Moves the last bytes of a filled window, a line that has not ended, to its start, and says how many are kept. A line that fills the window
// is too long: it is cut to a first character that makes it a comment or a bad line, whatever follows.
fn keep(window: &mut [u8], filled: usize, left: usize) -> usize
    requires { (left ≤ filled) × (filled ≤ length window.old) }
{
    window.copy_within(filled - left..filled, 0);
    if left < window.len() || left == 0 {
        return left;
    }
    if window[0] != b'#' {
        window[0] = b' ';
    }
    1
}

// Answers the lines of the input on one board. A failed read ends the input, and the end of the input ends its last line.
pub(crate) fn replay<R: Read>(
    input: &mut R,
    window: &mut [u8],
    room: &mut [u8],
    out: &mut Output<'_>,
) {
    // A refused set-up gives the board before the first call.
    let mut board = board::set_up(b"", b"", 0, rows::MICRA).board;
    let mut held: usize = 0;
    for _ in 0..u64::MAX {
        let filled = input::fill(input, window, held)
            .unwrap_or(held)
            .min(window.len());
        if filled <= held {
            break;
        }
        let left = answer_lines(&mut board, octets::first_bytes(window, filled), room, out);
        held = keep(window, filled, left);
    }
    if held != 0 {
        calls::answer(&mut board, octets::first_bytes(window, held), room, out);
        out.flush();
    }
}
