// The call of a line.
use crate::output::Output;
use crate::{board_calls, capture_calls, fields, record_calls, table_calls, tool_calls};
use model::Board;

// Empty lines and comments are passed over.
fn is_passed_over(line: &[u8]) -> bool {
    line.is_empty() || line[0] == b'#'
}

// Makes the call with a name, on these fields. The last of them is what is left of the line, so a last field with a space in it is bad, but
// for the lists of `write` and `capwrite`.
fn call(
    board: &mut Board,
    fields: [Option<&[u8]>; 5],
    room: &mut [u8],
    out: &mut Output<'_>,
) -> Option<()> {
    match fields {
        [Some(b"setup"), Some(id), Some(password), Some(mode), unit] => {
            board_calls::set_up(board, id, password, mode, unit, room, out)
        }
        [Some(b"packet"), Some(length), Some(packet), None, _] => {
            board_calls::packet(board, length, packet, room, out)
        }
        [Some(b"measure"), Some(number), Some(value), None, _] => {
            board_calls::measure(board, number, value, room, out)
        }
        [Some(b"poke"), Some(name), Some(value), None, _] => {
            record_calls::poke(board, name, value, room, out)
        }
        [Some(b"record"), None, _, _, _] => {
            record_calls::show(board, out);
            Some(())
        }
        _ => inspect(fields, room, out),
    }
}

// Makes a call that leaves the board alone.
fn inspect(fields: [Option<&[u8]>; 5], room: &mut [u8], out: &mut Output<'_>) -> Option<()> {
    match fields {
        [
            Some(b"write"),
            Some(length),
            Some(id),
            Some(password),
            commands,
        ] => { tool_calls::write(length, id, password, commands, room, out) }
        [Some(b"read"), Some(id), Some(password), Some(packet), None] => {
            tool_calls::read(id, password, packet, room, out)
        }
        [Some(b"list"), Some(packet), None, _, _] => tool_calls::list(packet, room, out),
        [Some(b"capread"), Some(capture), None, _, _] => capture_calls::read(capture, room, out),
        [Some(b"capwrite"), Some(length), Some(ids), record, records] => {
            capture_calls::write(length, ids, record, records, room, out)
        }
        [Some(b"summary"), Some(capture), None, _, _] => capture_calls::summary(capture, room, out),
        [Some(b"rewrite"), Some(length), Some(capture), None, _] => {
            capture_calls::rewrite(length, capture, room, out)
        }
        [Some(b"export"), Some(length), Some(capture), None, _] => {
            table_calls::export(length, capture, room, out)
        }
        [Some(b"import"), Some(table), None, _, _] => table_calls::import(table, room, out),
        _ => None,
    }
}

// Answers a line. One that is none of the forms changes nothing.
pub(crate) fn answer(board: &mut Board, line: &[u8], room: &mut [u8], out: &mut Output<'_>) {
    if is_passed_over(line) {
        return;
    }
    if call(board, fields::split(line), room, out).is_none() {
        out.put(b"bad line");
    }
    out.put(b"\n");
}
