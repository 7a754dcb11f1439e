// Temperatures: measured ones are tenths of a degree, setpoints whole degrees. The quantity of a row decides which of the
// two its value becomes, if any; each is stored in its own rows only, and a mark becomes neither.
ghost use Rattle.std.specs.Prelude.{false, [], ◌∷◌, ◌≡◌};
ghost use Rattle.rows.specs.Rows.{row_at};
ghost use Rattle.rows.specs.Sets.{bytes_of};
ghost use Rattle.store.specs.Layout.{with_value_at, with_value};
ghost use Rattle.store.specs.Temperatures.{is_mark, bits_of, reading_of};

use crate::Store;
use crate::layout::with_value_at;
use crate::tenths::{Tenths, bits_of, tenths_of};
use rows::lookup::{index_of, quantity_at};
use rows::sets::low_first_number;
use rows::{Quantity, WholeDegrees};

// What a sensor says: a temperature, or one of two marks that are none.
#[derive(Clone, Copy)]
enum Reading {
    Temperature(Tenths),
    SensorMissing,
    ShortCircuit,
}

fn reading_of(bits: u16) -> Reading
    ensures { result ≡ reading_of bits }
{
    match bits {
        0x8000 => Reading::SensorMissing,
        0x7FFF => Reading::ShortCircuit,
        _ => Reading::Temperature(tenths_of(bits)),
    }
}

// Tenths go to a measured row.
fn store_tenths(store: Store, index: usize, temperature: Tenths) -> Store
    requires { ((row_at index).quantity ≡ Quantity.Tenths) × (is_mark (bits_of temperature.tenths) ≡ false) }
    ensures { result ≡ with_value_at store index (bytes_of 2 (bits_of temperature.tenths)) }
{
    let value = bits_of(temperature).to_le_bytes();
    with_value_at(store, index, &value)
}

// Whole degrees go to the row of a setpoint.
fn store_degrees(store: Store, index: usize, temperature: WholeDegrees) -> Store
    requires { (row_at index).quantity ≡ Quantity.WholeDegrees }
    ensures { result ≡ with_value_at store index (temperature.degrees ∷ []) }
{
    let value = [temperature.degrees];
    with_value_at(store, index, &value)
}

// A measured value is a temperature, or a mark, whose bytes are stored as they are.
#[tactic(auto, using(crate::proofs::Degrees::tenths_stored))]
fn store_measured(store: Store, index: usize, value: &[u8]) -> Store
    requires { (row_at index).quantity ≡ Quantity.Tenths }
    ensures { result ≡ with_value_at store index value.now }
{
    match reading_of(low_first_number(value)) {
        Reading::Temperature(temperature) => store_tenths(store, index, temperature),
        _ => with_value_at(store, index, value),
    }
}

// Stores a value: the way of every operation.
#[tactic(auto, using(crate::proofs::Degrees::degrees_stored))]
pub fn store_value(store: Store, number: u16, value: &[u8]) -> Store
    ensures { result ≡ with_value store number value.now }
{
    let index = index_of(store.unit, number);
    match quantity_at(index) {
        Quantity::Plain => with_value_at(store, index, value),
        Quantity::Tenths => store_measured(store, index, value),
        Quantity::WholeDegrees => {
            let degrees = octets::byte_at(value, 0);
            store_degrees(store, index, WholeDegrees { degrees })
        }
    }
}
