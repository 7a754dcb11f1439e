// The calls on tables: export, import.
use crate::output::Output;
use crate::{capture_calls, fields, hex, output};
use importing::reading::{NextRow, RefusedLine, Rest};
use refusals::Refusal;
use std::fmt::Write as _;

// export ROOM CAPTURE
#[inline(never)]
pub(crate) fn export(
    length: &[u8],
    capture: &[u8],
    room: &mut [u8],
    out: &mut Output<'_>,
) -> Option<()> {
    let mut lent = [output::FILLER; capture_calls::LONGEST];
    let buffer = fields::lend(length, &mut lent)?;
    let (capture, _) = hex::decode(capture, room)?;
    let Some(exported) = exporting::export(buffer, capture) else {
        out.put_refusal(Refusal::NoSpace, buffer);
        return Some(());
    };
    out.put_written(b"table ", buffer, exported.length);
    let _ = write!(out, " refused,{}", exported.refused);
    if let Some(refusal) = exported.capture {
        let _ = write!(out, " capture,{}", refusal.number());
    }
    Some(())
}

// The refusal of a table at a line, behind the rows before it.
fn put_refused_line(out: &mut Output<'_>, at: RefusedLine) {
    out.put_ending(at.refusal);
    let _ = write!(out, " line {}", at.line);
}

// The digits of a value, behind the number of its parameter; none for an unknown parameter.
fn put_value(out: &mut Output<'_>, digits: &[u8]) {
    if digits.is_empty() {
        out.put(b"unknown");
    }
    out.put(digits);
}

// A row. The digits of ID and value stand in the table as they are shown; each row has direction 1.
fn put_row(out: &mut Output<'_>, id: &[u8], counter: u32, page: u8, low: u8, value: &[u8]) {
    out.put(b" ");
    out.put(id);
    let _ = write!(out, ".1.{counter}.");
    out.put_number(page, low);
    put_value(out, value);
}

// The rows of a table, and its refusal.
fn put_rows(out: &mut Output<'_>, table: &[u8], rest: Rest) {
    let mut left = block::part(table, rest.rest, 0);
    let mut line = rest.line;
    loop {
        match importing::reading::next_row(left, line) {
            NextRow::End => return,
            NextRow::Refused(at) => return put_refused_line(out, at),
            NextRow::Row {
                board,
                counter,
                page,
                low,
                value,
                value_end,
                rest,
                line: next,
            } => {
                let id = octets::first_bytes(block::part(left, board, 0), 2 * framing::ID_SIZE);
                put_row(
                    out,
                    id,
                    counter,
                    page,
                    low,
                    block::part(left, value, value_end),
                );
                left = block::part(left, rest, 0);
                line = next;
            }
        }
    }
}

// import TABLE
pub(crate) fn import(table: &[u8], room: &mut [u8], out: &mut Output<'_>) -> Option<()> {
    let (table, _) = hex::decode(table, room)?;
    out.put(b"reports");
    match importing::reading::open(table) {
        Err(at) => put_refused_line(out, at),
        Ok(rest) => put_rows(out, table, rest),
    }
    Some(())
}
