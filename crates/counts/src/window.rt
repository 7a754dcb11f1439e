// Counts the records of a capture that is read through a window.
ghost use Rattle.std.specs.Prelude.{◌≡◌, take};
ghost use Rattle.octets.specs.Octets.{overwrite};
ghost use Rattle.counts.specs.Counting.{last_of, CountsWindow};

use captures::Version;
use refusals::Refusal;

// Moves the bytes that are left, the last of the first `end`, to the start of a window; nothing where there are not so many.
pub fn keep(window: &mut [u8], end: usize, ending: Result<usize, Refusal>)
    ensures { window.new ≡ overwrite window.old 0 (last_of ending (take end window.old)) }
{
    let Ok(left) = ending else {
        return;
    };
    let until = octets::first_bytes(window, end).len();
    if until < left {
        return;
    }
    window.copy_within(until - left..until, 0);
}

// Counts the records that stand in a window from `start` to `end`, and moves the bytes that are left to its start.
pub fn count_window(
    counts: &mut [u64],
    window: &mut [u8],
    start: usize,
    end: usize,
    version: Version,
    boards: u16,
) -> Result<usize, Refusal>
    ensures { CountsWindow version boards start end window.old counts.old result counts.new window.new }
{
    let filled = octets::first_bytes(window, end);
    let ending = super::counting::count(
        counts,
        octets::bytes_after(filled, start),
        version,
        boards,
    );
    keep(window, end, ending);
    ending
}
