// The weekly schedule, parameter 0x0077: an entry for each day and period, and what reading and writing make of them.
#![tactic(auto)]

ghost use Rattle.std.specs.Prelude.{◌-◌, ◌<◌, true, ◌≡◌};
ghost use Rattle.schedule.specs.Days.{is_day, is_period, has_entry};
ghost use Rattle.schedule.specs.Entries.{is_temperature, legal, entry_count, place_of, entry_at, with_entry, with_days};
ghost use Rattle.schedule.specs.Entries.{start as start_of, sound as sound_of};
ghost use Rattle.schedule.specs.Operations.{entry_in, asked_by, addressed_by, answered, report_of, written};
ghost use Rattle.schedule.specs.Spans.{span_of, span_in, days_from};

use rows::WholeDegrees;
use std::ops::Range;

const ENTRIES: usize = 28;

// The speed and the temperature of a period, and the minute and hour at which it ends.
#[repr(C)]
#[derive(Clone, Copy)]
pub struct Entry {
    pub speed: u8,
    pub temperature: WholeDegrees,
    pub minute: u8,
    pub hour: u8,
}

// The lowest values.
const LOWEST: Entry = Entry {
    speed: 0,
    temperature: WholeDegrees { degrees: 0 },
    minute: 0,
    hour: 0,
};

// The entries by day and, within a day, by period.
#[repr(C)]
#[derive(Clone, Copy)]
pub struct Schedule {
    pub entries: [Entry; ENTRIES],
}

// What a command is answered with: an entry, the mark of an unknown parameter, or nothing.
#[derive(Clone, Copy)]
pub enum Answer {
    Entry { day: u8, period: u8 },
    Unknown,
    Silence,
}

// The days that a written day stands for.
fn span_of(day: u8) -> Option<Range<u8>>
    ensures { result ≡ span_of day }
{
    match day {
        0 => Some(1..8),
        1..=7 => Some(day..day + 1),
        8 => Some(1..6),
        9 => Some(6..8),
        _ => None,
    }
}

fn is_day(day: u8) -> bool
    ensures { result ≡ is_day day }
{
    (1..=7).contains(&day)
}

fn is_period(period: u8) -> bool
    ensures { result ≡ is_period period }
{
    (1..=4).contains(&period)
}

// Whether a day and a period have an entry.
fn has_entry(day: u8, period: u8) -> bool
    ensures { result ≡ has_entry day period }
{
    is_day(day) && is_period(period)
}

fn is_temperature(temperature: WholeDegrees) -> bool
    ensures { result ≡ is_temperature temperature }
{
    temperature.degrees == 0 || (15..=30).contains(&temperature.degrees)
}

fn is_legal(entry: Entry) -> bool
    ensures { result ≡ legal entry }
{
    entry.speed <= 5 && is_temperature(entry.temperature) && entry.minute <= 59 && entry.hour <= 23
}

// The days that a value writes; none where it is no value of a write.
fn span_in(value: &[u8]) -> Option<Range<u8>>
    ensures { result ≡ span_in value.now }
{
    match value {
        &[day, period, _, _, _, _] if is_period(period) => span_of(day),
        _ => None,
    }
}

// The entry that a value writes.
fn entry_in(value: &[u8]) -> Entry
    ensures { result ≡ entry_in value.now }
{
    Entry {
        speed: octets::byte_at(value, 2),
        temperature: WholeDegrees {
            degrees: octets::byte_at(value, 3),
        },
        minute: octets::byte_at(value, 4),
        hour: octets::byte_at(value, 5),
    }
}

// Where the entry of a day and a period stands.
fn place_of(day: u8, period: u8) -> usize
    requires { has_entry day period ≡ true }
    ensures { (result ≡ place_of day period) × (result < entry_count) }
{
    4 * usize::from(day) + usize::from(period) - 5
}

fn entry_at(schedule: Schedule, day: u8, period: u8) -> Entry
    ensures { result ≡ entry_at schedule day period }
{
    if has_entry(day, period) {
        return schedule.entries[place_of(day, period)];
    }
    LOWEST
}

// Puts an entry in the place of a day and a period, if these exist.
fn put_entry(entries: &mut [Entry; ENTRIES], day: u8, period: u8, new: Entry)
    ensures { entries.new ≡ with_entry entries.old day period new }
{
    if has_entry(day, period) {
        entries[place_of(day, period)] = new;
    }
}

// The entries with another one for a period of each of these days.
#[tactic(auto, using(crate::proofs::Spans::days_turn, crate::proofs::Spans::days_end))]
fn with_days(
    mut entries: [Entry; ENTRIES],
    days: Range<u8>,
    period: u8,
    new: Entry,
) -> [Entry; ENTRIES]
    ensures { result ≡ with_days entries (days_from (days.end - days.start) days.start) period new }
{
    for day in days {
        put_entry(&mut entries, day, period, new);
    }
    entries
}

// 01: the entry of a day and a period.
fn asked(value: &[u8]) -> Answer
    ensures { result ≡ asked_by value.now }
{
    match value {
        &[day, period] if has_entry(day, period) => Answer::Entry { day, period },
        _ => Answer::Unknown,
    }
}

// 03: the entry of the first day written, just after the write.
fn addressed(value: &[u8]) -> Answer
    ensures { result ≡ addressed_by value.now }
{
    let Some(days) = span_in(value) else {
        return Answer::Unknown;
    };
    Answer::Entry {
        day: days.start,
        period: value[1],
    }
}

// What a command of the schedule is answered with.
pub fn answered_with(function: u8, value: &[u8]) -> Answer
    ensures { result ≡ answered function value.now }
{
    match function {
        1 => asked(value),
        2 => Answer::Silence,
        3 => addressed(value),
        _ => Answer::Unknown,
    }
}

// The value reported for the entry of a day and a period; for a day or a period that does not exist, the lowest values.
pub fn report(schedule: Schedule, day: u8, period: u8) -> [u8; 6]
    ensures { result ≡ report_of schedule day period }
{
    let entry = entry_at(schedule, day, period);
    [
        day,
        period,
        entry.speed,
        entry.temperature.degrees,
        entry.minute,
        entry.hour,
    ]
}

// Functions 02 and 03: stores an entry on each day written, unless one of its fields is bad.
#[tactic(auto, using(crate::proofs::Spans::found, crate::proofs::Writing::stored))]
pub fn write(schedule: Schedule, value: &[u8]) -> Schedule
    ensures { result ≡ written schedule value.now }
{
    let Some(days) = span_in(value) else {
        return schedule;
    };
    let entry = entry_in(value);
    if !is_legal(entry) {
        return schedule;
    }
    Schedule {
        entries: with_days(schedule.entries, days, value[1], entry),
    }
}

// The schedule as set-up leaves it.
pub fn start() -> Schedule
    ensures { result ≡ start_of }
{
    Schedule {
        entries: [LOWEST; ENTRIES],
    }
}

// Whether the fields of each entry are in their ranges.
#[tactic(auto, unfolding(crate::specs::Entries::all_legal))]
pub fn sound(schedule: Schedule) -> bool
    ensures { result ≡ sound_of schedule }
{
    schedule.entries.iter().all(|entry| is_legal(*entry))
}
