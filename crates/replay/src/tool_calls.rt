// The calls of the tool: write, read, list.
use crate::output::Output;
use crate::{fields, hex, output};
use block::response::NextReport;

// A command list, the parts of each command side by side, and how many bytes their values have. The call that holds it is not inlined, so
// that no other call has it on its stack.
#[derive(Drop)]
struct Commands {
    functions: [u8; fields::MOST],
    numbers: [u16; fields::MOST],
    lengths: [u16; fields::MOST],
    count: usize,
    size: usize,
}

// Reads F:NNNN:VALUE, and puts the value behind those before it.
fn read_command(command: &[u8], list: &mut Commands, values: &mut [u8]) -> Option<()> {
    let (function, rest) = fields::split_once(command, b':')?;
    let (number, value) = fields::split_once(rest, b':')?;
    let (value, _) = hex::decode(value, values.get_mut(list.size..)?)?;
    *list.functions.get_mut(list.count)? = fields::byte(function)?;
    *list.numbers.get_mut(list.count)? = fields::number(number)?;
    *list.lengths.get_mut(list.count)? = u16::try_from(value.len()).ok()?;
    list.count = list.count.saturating_add(1);
    list.size = list.size.saturating_add(value.len());
    Some(())
}

fn read_commands(commands: &[u8], list: &mut Commands, values: &mut [u8]) -> Option<()> {
    for command in commands.split(|byte| *byte == b' ') {
        read_command(command, list, values)?;
    }
    Some(())
}

// write LENGTH ID PASSWORD F:NNNN:VALUE ..
#[inline(never)]
pub(crate) fn write(
    length: &[u8],
    id: &[u8],
    password: &[u8],
    commands: Option<&[u8]>,
    room: &mut [u8],
    out: &mut Output<'_>,
) -> Option<()> {
    let mut lent = [output::FILLER; 1024];
    let buffer = fields::lend(length, &mut lent)?;
    let (id, rest) = hex::decode(id, room)?;
    let (password, values) = hex::decode(password, rest)?;
    let mut list = Commands {
        functions: [0; fields::MOST],
        numbers: [0; fields::MOST],
        lengths: [0; fields::MOST],
        count: 0,
        size: 0,
    };
    if let Some(commands) = commands {
        read_commands(commands, &mut list, values)?;
    }
    let written = tool::request::write(
        buffer,
        id,
        password,
        list.functions.get(..list.count)?,
        list.numbers.get(..list.count)?,
        list.lengths.get(..list.count)?,
        octets::first_bytes(values, list.size),
    );
    out.put_answer(b"packet ", written, buffer);
    Some(())
}

fn put_reports(out: &mut Output<'_>, block: &[u8]) {
    let mut left = block;
    let mut page: u8 = 0;
    loop {
        match reports::next_report(left, page) {
            NextReport::End | NextReport::Malformed => return,
            NextReport::Held {
                page: next_page,
                low,
                value,
                rest,
            } => {
                out.put_held(next_page, low, block::part(left, value, rest));
                left = block::part(left, rest, 0);
                page = next_page;
            }
            NextReport::Unknown {
                page: next_page,
                low,
                rest,
            } => {
                out.put_unknown(next_page, low);
                left = block::part(left, rest, 0);
                page = next_page;
            }
        }
    }
}

// read ID PASSWORD PACKET
pub(crate) fn read(
    id: &[u8],
    password: &[u8],
    packet: &[u8],
    room: &mut [u8],
    out: &mut Output<'_>,
) -> Option<()> {
    let (id, rest) = hex::decode(id, room)?;
    let (password, rest) = hex::decode(password, rest)?;
    let (packet, _) = hex::decode(packet, rest)?;
    match tool::response::read(packet, id, password) {
        Err(refusal) => out.put_refused(refusal),
        Ok(block) => {
            out.put(b"reports");
            let behind = octets::bytes_after(packet, block.block);
            put_reports(
                out,
                octets::first_bytes(behind, block.end.saturating_sub(block.block)),
            );
        }
    }
    Some(())
}

// list PACKET
pub(crate) fn list(packet: &[u8], room: &mut [u8], out: &mut Output<'_>) -> Option<()> {
    let (packet, _) = hex::decode(packet, room)?;
    // The longest listing.
    let mut lines = [0u8; 1753];
    if let Some(length) = tool::listing::list(&mut lines, packet) {
        out.put_joined(octets::first_bytes(&lines, length));
    }
    Some(())
}
