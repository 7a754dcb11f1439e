// The calls of the board: set-up, packet, measure.
use crate::output::Output;
use crate::{fields, hex, output};
use model::{Answer, Board};
use refusals::Refusal;

fn put_verdict(out: &mut Output<'_>, verdict: Result<(), Refusal>) {
    match verdict {
        Ok(()) => out.put(b"accepted"),
        Err(refusal) => out.put_refused(refusal),
    }
}

// The unit type of a set-up: 2 where the field is left out.
fn unit_type(field: Option<&[u8]>) -> Option<u8> {
    match field {
        Some(field) => fields::byte(field),
        None => Some(rows::MICRA),
    }
}

// setup ID PASSWORD MODE [TYPE]
pub(crate) fn set_up(
    board: &mut Board,
    id: &[u8],
    password: &[u8],
    mode: &[u8],
    unit: Option<&[u8]>,
    room: &mut [u8],
    out: &mut Output<'_>,
) -> Option<()> {
    let (id, rest) = hex::decode(id, room)?;
    let (password, _) = hex::decode(password, rest)?;
    let mode = fields::byte(mode)?;
    let unit = unit_type(unit)?;
    let answered = board::set_up(id, password, mode, unit);
    *board = answered.board;
    put_verdict(out, answered.verdict);
    Some(())
}

// measure NUMBER VALUE
pub(crate) fn measure(
    board: &mut Board,
    number: &[u8],
    value: &[u8],
    room: &mut [u8],
    out: &mut Output<'_>,
) -> Option<()> {
    let number = fields::number(number)?;
    let (value, _) = hex::decode(value, room)?;
    let answered = board::measure(*board, number, value);
    *board = answered.board;
    put_verdict(out, answered.verdict);
    Some(())
}

// The answer of a packet, whose response stands at the start of a lent buffer.
fn put_answer(out: &mut Output<'_>, answer: Answer, buffer: &[u8]) {
    match answer {
        Answer::Refused(refusal) => out.put_refusal(refusal, buffer),
        Answer::Silence => {
            out.put(b"silence");
            out.put_dirty(buffer);
        }
        Answer::Response(length) => out.put_written(b"response ", buffer, length),
    }
}

// packet LENGTH PACKET
pub(crate) fn packet(
    board: &mut Board,
    length: &[u8],
    packet: &[u8],
    room: &mut [u8],
    out: &mut Output<'_>,
) -> Option<()> {
    let mut lent = [output::FILLER; 1024];
    let buffer = fields::lend(length, &mut lent)?;
    let (packet, _) = hex::decode(packet, room)?;
    let stepped = board::packet(*board, packet, buffer);
    *board = stepped.board;
    put_answer(out, stepped.answer, buffer);
    Some(())
}
