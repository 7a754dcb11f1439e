// The parameter store: what each row holds, and what reading, writing and measuring make of it.
#![tactic(auto)]

ghost use Rattle.std.specs.Prelude.{cond, not, ◌||◌, [], ◌∷◌, ◌≡◌};
ghost use Rattle.rows.specs.Layout.{set_at};
ghost use Rattle.rows.specs.Rows.{row_at, row_of, has as has_of, allows as allows_of, is_identity};
ghost use Rattle.rows.specs.Sets.{least_above, greatest_below, member};
ghost use Rattle.store.specs.Layout.{value_at, value_in, value_of};
ghost use Rattle.store.specs.Operations.{found, inverts as inverts_of, inverse as inverse_of, neighbour as neighbour_of, stored};
ghost use Rattle.store.specs.Operations.{written, raised, lowered, measurable, measurement, measured_as, answer};
ghost use Rattle.store.specs.Start.{start as start_of, with_identity};
ghost use Rattle.store.specs.Sound.{sound as sound_of};

mod layout;
mod start_bytes;
mod temperatures;
mod tenths;

use layout::{value_at, with_value_at};
use refusals::Refusal;
use rows::lookup::{allows, has, index_of, kind_at, size_at};
use rows::sets::{is_member, low_first_number, neighbour};
use rows::{ID, Kind, UNIT_TYPE};
use temperatures::store_value;

// The bytes of an ID.
const ID_SIZE: usize = 16;

// The bytes that the slots of a product's rows take at most.
pub const BYTES: usize = 227;

// A store: the unit type, and the value of each row that it has in its slot, the slots of a product one after the other.
#[repr(C)]
#[derive(Clone, Copy)]
pub struct Store {
    pub unit: u8,
    pub bytes: [u8; BYTES],
}

// What a command is answered with.
#[derive(Clone, Copy)]
pub enum Answer {
    Value,
    Unknown,
    Silence,
}

// Where a number stands in the table of rows.
pub fn find(unit: u8, number: u16) -> Option<usize>
    ensures { result ≡ found unit number }
{
    if allows(unit, number, 1) {
        return Some(index_of(unit, number));
    }
    None
}

// The value that a parameter holds, as a part of the bytes of a store of this unit type; an unknown parameter holds none.
pub fn held(bytes: &[u8], unit: u8, number: u16) -> &[u8]
    ensures { result.now ≡ value_in bytes.now unit number }
{
    value_at(bytes, index_of(unit, number))
}

fn inverts(index: usize, value: &[u8]) -> bool
    ensures { result ≡ inverts_of (set_at index) value.now }
{
    kind_at(index) == Kind::Switch && matches!(value, [2])
}

fn inverse(held: &[u8]) -> u8
    ensures { result ∷ [] ≡ inverse_of held.now }
{
    u8::from(octets::byte_at(held, 0) == 0)
}

// Functions 02 and 03: stores a value of the row's set, and inverts a switch that is written 2.
pub fn write(store: Store, number: u16, value: &[u8]) -> Store
    ensures { result ≡ written store number value.now }
{
    if !allows(store.unit, number, 2) {
        return store;
    }
    let index = index_of(store.unit, number);
    if is_member(index, value) {
        return store_value(store, number, value);
    }
    if inverts(index, value) {
        let inverted = [inverse(value_at(&store.bytes, index))];
        return store_value(store, number, &inverted);
    }
    store
}

// The next value up or down, where the row allows the function.
fn move_to_neighbour(store: Store, number: u16, function: u8, up: bool) -> Store
    ensures { result ≡ stored store number (cond (allows_of store.unit number function) (neighbour_of (cond up least_above greatest_below) (row_of store.unit number).set (value_of store number)) None) }
{
    if !allows(store.unit, number, function) {
        return store;
    }
    let index = index_of(store.unit, number);
    if kind_at(index) != Kind::Number {
        return store;
    }
    let held = low_first_number(value_at(&store.bytes, index));
    let Some(next) = neighbour(index, held, up) else {
        return store;
    };
    let both = next.to_le_bytes();
    store_value(store, number, octets::first_bytes(&both, size_at(index)))
}

// Function 04: the least value above the one held.
pub fn raise(store: Store, number: u16) -> Store
    ensures { result ≡ raised store number }
{
    move_to_neighbour(store, number, 4, true)
}

// Function 05: the greatest value below the one held.
pub fn lower(store: Store, number: u16) -> Store
    ensures { result ≡ lowered store number }
{
    move_to_neighbour(store, number, 5, false)
}

fn is_identity(number: u16) -> bool
    ensures { result ≡ is_identity number }
{
    number == ID || number == UNIT_TYPE
}

fn is_measurable(unit: u8, number: u16) -> bool
    ensures { result ≡ measurable unit number }
{
    allows(unit, number, 1) && !allows(unit, number, 2) && !is_identity(number)
}

fn judge(unit: u8, number: u16, value: &[u8]) -> Result<(), Refusal>
    ensures { result ≡ measurement unit number value.now }
{
    if !is_measurable(unit, number) {
        return Err(Refusal::NotMeasured);
    }
    if value.len() != size_at(index_of(unit, number)) {
        return Err(Refusal::MeasuredLength);
    }
    Ok(())
}

// Sets a read-only row other than the two of the identity.
pub fn measure(store: Store, number: u16, value: &[u8]) -> Result<Store, Refusal>
    ensures { result ≡ measured_as store number value.now }
{
    judge(store.unit, number, value)?;
    Ok(store_value(store, number, value))
}

// What a command is answered with.
pub fn answered_with(unit: u8, function: u8, number: u16) -> Answer
    ensures { result ≡ answer unit function number }
{
    match function {
        2 => Answer::Silence,
        _ if allows(unit, number, 1) => Answer::Value,
        _ => Answer::Unknown,
    }
}

// A store with an ID in 007C and its unit type in 00B9. The two rows lie where unit type `own` has them.
fn with_identity(store: Store, own: u8, id: [u8; ID_SIZE]) -> Store
    ensures { result ≡ with_identity store own id }
{
    let unit_type = [store.unit, 0];
    let typed = with_value_at(store, index_of(own, UNIT_TYPE), &unit_type);
    with_value_at(typed, index_of(own, ID), &id)
}

// The store as set-up leaves it, with the board's ID and unit type.
pub fn start(id: [u8; ID_SIZE], unit: u8) -> Store
    ensures { result ≡ start_of id unit }
{
    if unit == rows::MICRA {
        let blank = Store {
            unit,
            bytes: start_bytes::MICRA,
        };
        return with_identity(blank, rows::MICRA, id);
    }
    let blank = Store {
        unit,
        bytes: start_bytes::EXPERT,
    };
    with_identity(blank, 3, id)
}

// Whether the row at an index holds a value of its set, or the unit type lacks it.
fn row_sound(store: &Store, index: usize) -> bool
    ensures { result ≡ (not (has_of store.now.unit (row_at index)) || member (set_at index) (value_at store.now.bytes index)) }
{
    !has(store.unit, index) || is_member(index, value_at(&store.bytes, index))
}

// Whether each row that the unit type has holds a value of its set.
#[tactic(auto, using(crate::proofs::Members::sound_turn, crate::proofs::Members::sound_end))]
pub fn sound(store: Store) -> bool
    ensures { result ≡ sound_of store }
{
    for index in 0..rows::ROWS {
        if !row_sound(&store, index) {
            return false;
        }
    }
    true
}
