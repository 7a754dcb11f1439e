// The calls on captures: capread, capwrite, summary, rewrite.
use crate::output::Output;
use crate::{fields, hex, output};
use captures::reading::{Head, NextRecord};
use refusals::Refusal;
use rewriting::Rewritten;
use std::fmt::Write as _;

// The most bytes of a lent buffer. A call with a buffer or a text of such a size is not inlined, so that no other call has it on its stack.
pub(crate) const LONGEST: usize = 1048576;

fn put_ids(out: &mut Output<'_>, ids: &[u8]) {
    for id in ids.chunks(framing::ID_SIZE) {
        out.put(b" id:");
        out.put_hex(id);
    }
}

// The records of a capture of this version and of so many boards, and its refusal.
fn put_records(out: &mut Output<'_>, records: &[u8], head: Head) {
    let mut left = records;
    loop {
        match captures::reading::next_record(left, head.version, head.boards) {
            NextRecord::End => return,
            NextRecord::Cut | NextRecord::Wrong => return out.put_ending(Refusal::WrongRecord),
            NextRecord::Record {
                index,
                direction,
                counter,
                packet,
                rest,
            } => {
                let _ = write!(out, " rec:{index}.{direction}.{counter}.");
                out.put_field(block::part(left, packet, rest));
                left = block::part(left, rest, 0);
            }
        }
    }
}

// The version of a capture whose head is refused: 0 where mark or version is, else 1 or 2, the low byte behind the mark.
fn version_of_refused(capture: &[u8], refusal: Refusal) -> u8 {
    match refusal {
        Refusal::CaptureMark | Refusal::UnknownVersion => 0,
        _ => octets::byte_at(capture, captures::VERSION_AT),
    }
}

// capread CAPTURE
pub(crate) fn read(capture: &[u8], room: &mut [u8], out: &mut Output<'_>) -> Option<()> {
    let (capture, _) = hex::decode(capture, room)?;
    match captures::reading::open(capture) {
        Err(refusal) => {
            let _ = write!(out, "version {}", version_of_refused(capture, refusal));
            out.put_ending(refusal);
        }
        Ok(head) => {
            let _ = write!(out, "version {}", captures::version_number(head.version));
            let size = framing::ID_SIZE * usize::from(head.boards);
            put_ids(
                out,
                octets::first_bytes(octets::bytes_after(capture, head.ids), size),
            );
            put_records(out, octets::bytes_after(capture, head.records), head);
        }
    }
    Some(())
}

// The records of a list, the parts of each side by side, and how many bytes their packets have.
#[derive(Drop)]
struct Records {
    indexes: [u16; fields::MOST],
    directions: [u8; fields::MOST],
    counters: [u32; fields::MOST],
    lengths: [u16; fields::MOST],
    count: usize,
    size: usize,
}

// Reads I.D.C.HEX, and puts the packet behind those before it.
fn read_record(record: &[u8], list: &mut Records, packets: &mut [u8]) -> Option<()> {
    let (index, rest) = fields::split_once(record, b'.')?;
    let (direction, rest) = fields::split_once(rest, b'.')?;
    let (counter, packet) = fields::split_once(rest, b'.')?;
    let (packet, _) = hex::decode(packet, packets.get_mut(list.size..)?)?;
    *list.indexes.get_mut(list.count)? = fields::index(index)?;
    *list.directions.get_mut(list.count)? = fields::byte(direction)?;
    *list.counters.get_mut(list.count)? = fields::decimal(counter)?;
    *list.lengths.get_mut(list.count)? = u16::try_from(packet.len()).ok()?;
    list.count = list.count.saturating_add(1);
    list.size = list.size.saturating_add(packet.len());
    Some(())
}

fn read_records(records: &[u8], list: &mut Records, packets: &mut [u8]) -> Option<()> {
    for record in records.split(|byte| *byte == b' ') {
        read_record(record, list, packets)?;
    }
    Some(())
}

// Puts the bytes of IDs joined by commas, or of `-` for none, at the start of a room, and says how many they are.
fn read_ids(field: &[u8], room: &mut [u8]) -> Option<usize> {
    if let [b'-'] = field {
        return Some(0);
    }
    let mut size: usize = 0;
    for id in field.split(|byte| *byte == b',') {
        let (id, _) = hex::decode_some(id, room.get_mut(size..)?)?;
        size = size.saturating_add(id.len());
    }
    Some(size)
}

// capwrite ROOM IDS I.D.C.HEX .. The first record is a field of its own, the others are what is left of the line.
#[inline(never)]
pub(crate) fn write(
    length: &[u8],
    ids: &[u8],
    record: Option<&[u8]>,
    records: Option<&[u8]>,
    room: &mut [u8],
    out: &mut Output<'_>,
) -> Option<()> {
    let mut lent = [output::FILLER; LONGEST];
    let buffer = fields::lend(length, &mut lent)?;
    let size = read_ids(ids, room)?;
    let (ids, packets) = room.split_at_mut_checked(size)?;
    let mut list = Records {
        indexes: [0; fields::MOST],
        directions: [0; fields::MOST],
        counters: [0; fields::MOST],
        lengths: [0; fields::MOST],
        count: 0,
        size: 0,
    };
    if let Some(record) = record {
        read_record(record, &mut list, packets)?;
    }
    if let Some(records) = records {
        read_records(records, &mut list, packets)?;
    }
    let written = recording::write(
        buffer,
        ids,
        list.indexes.get(..list.count)?,
        list.directions.get(..list.count)?,
        list.counters.get(..list.count)?,
        list.lengths.get(..list.count)?,
        octets::first_bytes(packets, list.size),
    );
    out.put_answer(b"capture ", written, buffer);
    Some(())
}

// rewrite ROOM CAPTURE
#[inline(never)]
pub(crate) fn rewrite(
    length: &[u8],
    capture: &[u8],
    room: &mut [u8],
    out: &mut Output<'_>,
) -> Option<()> {
    let mut lent = [output::FILLER; LONGEST];
    let buffer = fields::lend(length, &mut lent)?;
    let (capture, _) = hex::decode(capture, room)?;
    match rewriting::rewrite(buffer, capture) {
        Rewritten::Refused(refusal) => out.put_refusal(refusal, buffer),
        Rewritten::Whole(length) => out.put_written(b"capture ", buffer, length),
        Rewritten::Part(length) => {
            out.put_written(b"capture ", buffer, length);
            out.put_ending(Refusal::WrongRecord);
        }
    }
    Some(())
}

// summary CAPTURE
#[inline(never)]
pub(crate) fn summary(capture: &[u8], room: &mut [u8], out: &mut Output<'_>) -> Option<()> {
    let (capture, _) = hex::decode(capture, room)?;
    let mut lines = [0u8; summing::LONGEST_TEXT];
    if let Some(length) = summing::summary(&mut lines, capture) {
        out.put_joined(octets::first_bytes(&lines, length));
    }
    Some(())
}
