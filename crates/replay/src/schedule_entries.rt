// The entries of the weekly schedule, as `record` shows and `poke` names them: 0077:D.P for day D and period P.
use crate::output::Output;
use rows::WholeDegrees;
use schedule::{Entry, Schedule};
use std::fmt::Write as _;

fn put_day(out: &mut Output<'_>, schedule: Schedule, day: u8) {
    for period in 1..=4u8 {
        let entry = schedule::report(schedule, day, period);
        let _ = write!(out, " 0077:{day}.{period}=");
        out.put_hex(&entry[2..]);
    }
}

// Puts the entries, days and then periods ascending.
pub(crate) fn put(out: &mut Output<'_>, schedule: Schedule) {
    for day in 1..=7u8 {
        put_day(out, schedule, day);
    }
}

// The index of the entry that a name stands for.
pub(crate) fn place_of(name: &[u8]) -> Option<usize> {
    let [b'0', b'0', b'7', b'7', b':', day, b'.', period] = name else {
        return None;
    };
    match (*day, *period) {
        (b'1'..=b'7', b'1'..=b'4') => Some(
            4 * usize::from(*day - b'1') + usize::from(*period - b'1'),
        ),
        _ => None,
    }
}

// The schedule with the entry at an index made of a value's first four bytes, 0 for those missing.
pub(crate) fn with(schedule: Schedule, index: usize, value: &[u8]) -> Schedule {
    let mut entries = schedule.entries;
    if index < entries.len() {
        entries[index] = Entry {
            speed: octets::byte_at(value, 0),
            temperature: WholeDegrees {
                degrees: octets::byte_at(value, 1),
            },
            minute: octets::byte_at(value, 2),
            hour: octets::byte_at(value, 3),
        };
    }
    Schedule { entries }
}
