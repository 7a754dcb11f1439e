// Membership in the set of a row, and the neighbours of a number in a range.
ghost use Rattle.std.specs.Prelude.{cond, ◌≡◌, ◌<◌};
ghost use Rattle.rows.specs.Rows.{Switch, Number, Text, Clock, Calendar, Time, row_at};
ghost use Rattle.rows.specs.Layout.{size_of, set_at};
ghost use Rattle.rows.specs.Sets.{low_first_number, in_range, printable, member, greatest as greatest_of, least_above, greatest_below};
ghost use Rattle.rows.specs.Columns.{range_of};

use crate::lookup::{kind_at, quantity_at, range_at, size_at};
use crate::{Kind, Quantity, Range, WholeDegrees};

// The number that the first two bytes make, low byte first.
pub fn low_first_number(value: &[u8]) -> u16
    ensures { result ≡ low_first_number value.now }
{
    u16::from_le_bytes([octets::byte_at(value, 0), octets::byte_at(value, 1)])
}

impl Range {
    fn contains(self, number: u16) -> bool
        requires { 0 < self.step }
        ensures { result ≡ in_range self number }
    {
        number == self.extra
            || (self.low..=self.high).contains(&number) && (number - self.low) % self.step == 0
    }

    fn greatest(self) -> u16
        ensures { result ≡ greatest_of self }
    {
        self.high.max(self.extra)
    }

    #[tactic(auto, using(crate::proofs::Neighbours::after_turn, crate::proofs::Neighbours::after_end))]
    fn least_above(self, number: u16) -> Option<u16>
        requires { 0 < self.step }
        ensures { result ≡ least_above self number }
    {
        for below in number..self.greatest() {
            let next = below + 1;
            if self.contains(next) {
                return Some(next);
            }
        }
        None
    }

    #[tactic(auto, using(crate::proofs::Neighbours::before_turn, crate::proofs::Neighbours::before_end))]
    fn greatest_below(self, number: u16) -> Option<u16>
        requires { 0 < self.step }
        ensures { result ≡ greatest_below self number }
    {
        for next in (0..number).rev() {
            if self.contains(next) {
                return Some(next);
            }
        }
        None
    }
}

#[tactic(auto, unfolding(crate::specs::Sets::printable))]
fn is_printable(value: &[u8]) -> bool
    ensures { result ≡ printable value.now }
{
    value.iter().all(|byte| (0x20..=0x7E).contains(byte))
}

fn is_clock(value: &[u8]) -> bool
    ensures { result ≡ member Clock value.now }
{
    matches!(value, [0..=59, 0..=59, 0..=23])
}

fn is_calendar(value: &[u8]) -> bool
    ensures { result ≡ member Calendar value.now }
{
    match value {
        [day, weekday, month, year] => calendar::is_date(*day, *weekday, *month, *year),
        _ => false,
    }
}

fn is_time(value: &[u8]) -> bool
    ensures { result ≡ member Time value.now }
{
    matches!(value, [0..=59, 0..=23])
}

fn is_switch(value: &[u8]) -> bool
    ensures { result ≡ member Switch value.now }
{
    matches!(value, [0..=1])
}

// Whether the row of a setpoint may hold a temperature.
#[tactic(auto, using(crate::proofs::Rule::step_pos))]
fn takes(index: usize, temperature: WholeDegrees) -> bool
    requires { (row_at index).quantity ≡ Quantity.WholeDegrees }
    ensures { result ≡ in_range (range_of (set_at index)) temperature.degrees }
{
    range_at(index).contains(u16::from(temperature.degrees))
}

#[tactic(auto, using(crate::proofs::Rule::step_pos, crate::proofs::Quantities::degrees_number))]
fn is_number(index: usize, value: &[u8]) -> bool
    ensures { result ≡ member (Number (size_of (set_at index)) (range_of (set_at index))) value.now }
{
    if value.len() != size_at(index) {
        return false;
    }
    match quantity_at(index) {
        Quantity::WholeDegrees => {
            let degrees = octets::byte_at(value, 0);
            takes(index, WholeDegrees { degrees })
        }
        _ => range_at(index).contains(low_first_number(value)),
    }
}

fn is_text(shortest: u16, longest: usize, value: &[u8]) -> bool
    ensures { result ≡ member (Text shortest longest) value.now }
{
    (usize::from(shortest)..=longest).contains(&value.len()) && is_printable(value)
}

// Whether a value is in the set of the row at an index.
pub fn is_member(index: usize, value: &[u8]) -> bool
    ensures { result ≡ member (set_at index) value.now }
{
    match kind_at(index) {
        Kind::Switch => is_switch(value),
        Kind::Number => is_number(index, value),
        Kind::Text => is_text(range_at(index).low, size_at(index), value),
        Kind::Free => value.len() == size_at(index),
        Kind::Clock => is_clock(value),
        Kind::Calendar => is_calendar(value),
        Kind::Time => is_time(value),
    }
}

// The neighbour of a number in the range of the row at an index, up or down.
#[tactic(auto, using(crate::proofs::Rule::step_pos))]
pub fn neighbour(index: usize, number: u16, up: bool) -> Option<u16>
    ensures { result ≡ cond up least_above greatest_below (range_of (set_at index)) number }
{
    let range = range_at(index);
    if up {
        return range.least_above(number);
    }
    range.greatest_below(number)
}
