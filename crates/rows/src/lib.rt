// The rows of both products: a flat table as constant columns, looking a number up in it, and the sets of its rows.
#![tactic(auto)]

mod columns;
pub mod lookup;
pub mod sets;

// The parameters of the identity: the board's ID and its unit type.
pub const ID: u16 = 0x007C;

pub const UNIT_TYPE: u16 = 0x00B9;

// The unit type of the Micra; 3, 4 and 5 are those of the VENTO Expert.
pub const MICRA: u8 = 2;

// How many rows there are.
pub const ROWS: usize = columns::ROWS;

// The kinds of sets.
#[derive(Clone, Copy, Debug, PartialEq, Eq)]
pub enum Kind {
    Switch,
    Number,
    Text,
    Free,
    Clock,
    Calendar,
    Time,
}

// The numbers low, low + step, .. up to high, and one more, which is low itself where there is none.
#[derive(Clone, Copy)]
pub struct Range {
    pub extra: u16,
    pub low: u16,
    pub high: u16,
    pub step: u16,
}

// What a row's value is measured in, if it is a temperature.
#[derive(Clone, Copy)]
pub enum Quantity {
    Plain,
    Tenths,
    WholeDegrees,
}

// A temperature setpoint.
#[repr(C)]
#[derive(Clone, Copy)]
pub struct WholeDegrees {
    pub degrees: u8,
}
