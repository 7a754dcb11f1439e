// The properties of the row at an index, and looking a number up. Past the last row: those of a row without unit types, functions and bytes.
ghost use Rattle.std.specs.Prelude.{◌≡◌, get_or};
ghost use Rattle.rows.specs.Rows.{row_at, index_of, allows as allows_of, has as has_of, named};
ghost use Rattle.rows.specs.Layout.{set_at, place_at, size_of};
ghost use Rattle.rows.specs.Columns.{kind_of, kind_from, range_of, quantity_of};

use crate::{Kind, Quantity, Range, columns};

// The entry of a column at an index, or what stands past the last row.
fn entry_at<T: Copy>(column: &[T], index: usize, past: T) -> T
    ensures { result ≡ get_or column.now index past }
{
    column.get(index).copied().unwrap_or(past)
}

fn first_at(index: usize) -> u8
    ensures { result ≡ (row_at index).first }
{
    entry_at(&columns::FIRST, index, 1)
}

fn last_at(index: usize) -> u8
    ensures { result ≡ (row_at index).last }
{
    entry_at(&columns::LAST, index, 0)
}

fn number_at(index: usize) -> u16
    ensures { result ≡ (row_at index).number }
{
    entry_at(&columns::NUMBERS, index, 0)
}

fn functions_at(index: usize) -> u8
    ensures { result ≡ (row_at index).functions }
{
    entry_at(&columns::FUNCTIONS, index, 0)
}

// The kinds, as the column KIND has them.
fn kind_of(number: u8) -> Kind
    ensures { result ≡ kind_from number }
{
    match number {
        0 => Kind::Switch,
        1 => Kind::Number,
        2 => Kind::Text,
        3 => Kind::Free,
        4 => Kind::Clock,
        5 => Kind::Calendar,
        _ => Kind::Time,
    }
}

pub fn kind_at(index: usize) -> Kind
    ensures { result ≡ kind_of (set_at index) }
{
    // Past the last row: free bytes.
    kind_of(entry_at(&columns::KIND, index, 3))
}

// The quantities, as the column QUANTITY has them.
fn quantity_of(number: u8) -> Quantity
    ensures { result ≡ quantity_of number }
{
    match number {
        1 => Quantity::Tenths,
        2 => Quantity::WholeDegrees,
        _ => Quantity::Plain,
    }
}

pub fn quantity_at(index: usize) -> Quantity
    ensures { result ≡ (row_at index).quantity }
{
    quantity_of(entry_at(&columns::QUANTITY, index, 0))
}

pub fn size_at(index: usize) -> usize
    ensures { result ≡ size_of (set_at index) }
{
    usize::from(entry_at(&columns::SIZE, index, 0))
}

#[tactic(auto, unfolding(crate::specs::Rows::rows, crate::specs::Layout::places_from))]
pub fn place_at(index: usize) -> usize
    ensures { result ≡ place_at index }
{
    usize::from(entry_at(&columns::PLACE, index, 0))
}

pub fn range_at(index: usize) -> Range
    ensures { result ≡ range_of (set_at index) }
{
    Range {
        extra: u16::from(entry_at(&columns::EXTRA, index, 0)),
        low: u16::from(entry_at(&columns::LOW, index, 0)),
        high: entry_at(&columns::HIGH, index, 0),
        step: u16::from(entry_at(&columns::STEP, index, 1)),
    }
}

// Whether a unit type has the row at an index.
pub fn has(unit: u8, index: usize) -> bool
    ensures { result ≡ has_of unit (row_at index) }
{
    (first_at(index)..=last_at(index)).contains(&unit)
}

// Whether the row at an index is a unit type's row with a number.
fn is_named(unit: u8, number: u16, index: usize) -> bool
    ensures { result ≡ named unit number (row_at index) }
{
    number_at(index) == number && has(unit, index)
}

// The index of a unit type's row with a number, or the number of rows where there is none.
#[tactic(auto, using(crate::proofs::Tables::index_here, crate::proofs::Tables::index_on, crate::proofs::Tables::index_end))]
pub fn index_of(unit: u8, number: u16) -> usize
    ensures { result ≡ index_of unit number }
{
    for index in 0..columns::ROWS {
        if is_named(unit, number, index) {
            return index;
        }
    }
    columns::ROWS
}

// Whether a unit type's row with a number allows a function.
pub fn allows(unit: u8, number: u16, function: u8) -> bool
    ensures { result ≡ allows_of unit number function }
{
    function <= functions_at(index_of(unit, number))
}
