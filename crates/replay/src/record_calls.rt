// The calls that show the record and write it with no check.
use crate::output::Output;
use crate::{fields, hex, schedule_entries};
use model::Board;
use std::fmt::Write as _;
use store::Store;

// Above the number of every row.
const NUMBERS: u16 = 0x0500;

// The rows that a unit type has, numbers ascending.
fn put_rows(out: &mut Output<'_>, store: Store) {
    for number in 0..NUMBERS {
        if store::find(store.unit, number).is_some() {
            let [page, low] = number.to_be_bytes();
            out.put_held(page, low, store::held(&store.bytes, store.unit, number));
        }
    }
}

// record
pub(crate) fn show(board: &Board, out: &mut Output<'_>) {
    let mode = board.mode;
    let store = board.parameters.store;
    let unit = store.unit;
    out.put(b"record id=");
    out.put_field(&board.id);
    out.put(b" password=");
    out.put_field(octets::first_bytes(&board.password, usize::from(board.size)));
    let _ = write!(out, " mode={mode} type={unit}");
    put_rows(out, store);
    if unit == rows::MICRA {
        schedule_entries::put(out, board.parameters.schedule);
    }
}

fn poke_id(board: &mut Board, value: &[u8]) {
    let mut id = [0u8; framing::ID_SIZE];
    octets::overwrite(&mut id, 0, octets::first_bytes(value, framing::ID_SIZE));
    board.id = id;
}

fn poke_password(board: &mut Board, value: &[u8]) {
    let mut password = [0u8; framing::LONGEST_PASSWORD];
    let kept = octets::first_bytes(value, framing::LONGEST_PASSWORD);
    octets::overwrite(&mut password, 0, kept);
    board.password = password;
    board.size = u8::try_from(kept.len()).unwrap_or(u8::MAX);
}

// The bytes of a store in which each byte is its own place.
fn places() -> [u8; store::BYTES] {
    let mut bytes = [0u8; store::BYTES];
    for (place, byte) in bytes.iter_mut().enumerate() {
        *byte = u8::try_from(place).unwrap_or(u8::MAX);
    }
    bytes
}

fn is_text(number: u16) -> bool {
    matches!(number, 0x0095 | 0x0096)
}

// Writes a value into the slot of `size` bytes at `place`, cut or filled up with 0; a text has its length in the byte before.
fn write_slot(bytes: &mut [u8], place: usize, size: usize, value: &[u8], text: bool) {
    let zeros = [0u8; store::BYTES];
    let kept = octets::first_bytes(value, size);
    octets::overwrite(bytes, place, octets::first_bytes(&zeros, size));
    octets::overwrite(bytes, place, kept);
    if text && 0 < place {
        let length = [u8::try_from(kept.len()).unwrap_or(u8::MAX)];
        octets::overwrite(bytes, place - 1, &length);
    }
}

// By the contract of `store::held` alone: of a store in which each byte is its own place it hands back the places of a row's value.
// (A text's length is read there too; both texts lie far enough from the start for their whole slots.)
fn with_row(store: Store, number: u16, value: &[u8]) -> Store {
    let own = places();
    let held = store::held(&own, store.unit, number);
    if held.is_empty() {
        return store;
    }
    let place = usize::from(held[0]);
    let mut bytes = store.bytes;
    write_slot(&mut bytes, place, held.len(), value, is_text(number));
    Store {
        unit: store.unit,
        bytes,
    }
}

// An entry of the schedule, which a Micra alone has.
fn poke_entry(board: &mut Board, index: usize, value: &[u8]) {
    if board.parameters.store.unit == rows::MICRA {
        let schedule = schedule_entries::with(board.parameters.schedule, index, value);
        board.parameters.schedule = schedule;
    }
}

// poke 0077:D.P VALUE, poke NUMBER VALUE
fn poke_parameter(board: &mut Board, name: &[u8], value: &[u8]) -> Option<()> {
    if let Some(index) = schedule_entries::place_of(name) {
        poke_entry(board, index, value);
        return Some(());
    }
    let number = fields::number(name)?;
    board.parameters.store = with_row(board.parameters.store, number, value);
    Some(())
}

// poke id HEX, poke password HEX, and the parameters
fn poke_bytes(board: &mut Board, name: &[u8], value: &[u8], room: &mut [u8]) -> Option<()> {
    let (value, _) = hex::decode(value, room)?;
    match name {
        b"id" => poke_id(board, value),
        b"password" => poke_password(board, value),
        _ => poke_parameter(board, name, value)?,
    }
    Some(())
}

// poke mode N, poke type N, and what is given as bytes
pub(crate) fn poke(
    board: &mut Board,
    name: &[u8],
    value: &[u8],
    room: &mut [u8],
    out: &mut Output<'_>,
) -> Option<()> {
    match name {
        b"mode" => board.mode = fields::byte(value)?,
        b"type" => board.parameters.store.unit = fields::byte(value)?,
        _ => poke_bytes(board, name, value, room)?,
    }
    out.put(b"poked");
    Some(())
}
