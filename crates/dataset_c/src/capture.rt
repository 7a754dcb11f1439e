// The calls on captures.
ghost use Rattle.std.specs.Prelude.{◌≡◌};
ghost use Rattle.captures.specs.Form.{record_of};
ghost use Rattle.captures.specs.Reading.{opened_of};
ghost use Rattle.captures.specs.Writing.{head_call, record_call, write_call};
ghost use Rattle.dataset.specs.Captures.{opened_in_numbers, next_numbered, version_numbered, WritesHead, WritesRecord, WritesCapture, RewritesInNumbers, CountsNumbered, ShowsCounts};
ghost use Rattle.rewriting.specs.Rewriting.{rewrite_call};
ghost use Rattle.summing.specs.Text.{text_of};

use dataset::Reply;
use dataset::capture::{CaptureRecord, OpenedCapture};

// Opens a capture, as `captures::reading::open`.
#[unsafe(no_mangle)]
pub extern "C" fn udgornwy_open_capture(capture: &[u8]) -> OpenedCapture
    ensures { result ≡ opened_in_numbers (opened_of capture.now) }
{
    dataset::capture::udgornwy_open_capture(capture)
}

// The first record of what is left of a capture of this version and of so many boards, as `captures::reading::next_record`.
#[unsafe(no_mangle)]
pub extern "C" fn udgornwy_next_record(rest: &[u8], version: u16, boards: u16) -> CaptureRecord
    ensures { result ≡ next_numbered (version_numbered version) boards rest.now }
{
    dataset::capture::udgornwy_next_record(rest, version, boards)
}

// Writes the head of a capture into the first bytes of `buffer`, as `recording::write_head`.
#[unsafe(no_mangle)]
pub extern "C" fn udgornwy_write_head(buffer: &mut [u8], ids: &[u8]) -> Reply
    ensures { WritesHead (head_call buffer.old ids.now) result buffer.new }
{
    dataset::capture::udgornwy_write_head(buffer, ids)
}

// Writes a record of a capture of so many boards into the first bytes of `buffer`, as `recording::write_record`.
#[unsafe(no_mangle)]
pub extern "C" fn udgornwy_write_record(
    buffer: &mut [u8],
    boards: u16,
    index: u16,
    direction: u8,
    counter: u32,
    packet: &[u8],
) -> Reply
    ensures { WritesRecord (record_call buffer.old boards (record_of index direction counter packet.now)) result buffer.new }
{
    dataset::capture::udgornwy_write_record(buffer, boards, index, direction, counter, packet)
}

// Writes a capture into the first bytes of `buffer`, as `recording::write`.
#[unsafe(no_mangle)]
pub extern "C" fn udgornwy_write_capture(
    buffer: &mut [u8],
    ids: &[u8],
    indexes: &[u16],
    directions: &[u8],
    counters: &[u32],
    lengths: &[u16],
    packets: &[u8],
) -> Reply
    ensures { WritesCapture (write_call buffer.old ids.now indexes.now directions.now counters.now lengths.now packets.now) result buffer.new }
{
    dataset::capture::udgornwy_write_capture(
        buffer, ids, indexes, directions, counters, lengths, packets,
    )
}

// Rewrites a capture in version 2 into the first bytes of `buffer`, as `rewriting::rewrite`. Refusal 53: `length` bytes hold what stands before
// the record that is refused.
#[unsafe(no_mangle)]
pub extern "C" fn udgornwy_rewrite_capture(buffer: &mut [u8], capture: &[u8]) -> Reply
    ensures { RewritesInNumbers (rewrite_call buffer.old capture.now) result buffer.new }
{
    dataset::capture::udgornwy_rewrite_capture(buffer, capture)
}

// Counts the records that stand in a window from `start` to `end`, as `counts::window::count_window`. Refusal 51: no version has this number; 53: a
// field outside its range; else `length` bytes are left, and stand at the window's start.
#[unsafe(no_mangle)]
pub extern "C" fn udgornwy_count_window(
    counts: &mut [u64],
    window: &mut [u8],
    start: usize,
    end: usize,
    version: u16,
    boards: u16,
) -> Reply
    ensures { CountsNumbered (version_numbered version) boards start end window.old counts.old result counts.new window.new }
{
    dataset::capture::udgornwy_count_window(counts, window, start, end, version, boards)
}

// Writes counts, and the line of a refusal where its number is not 0, into the first bytes of `text`, as `summing::write`.
#[unsafe(no_mangle)]
pub extern "C" fn udgornwy_show_counts(text: &mut [u8], counts: &[u64], refusal: u8) -> Reply
    ensures { ShowsCounts (text_of counts.now refusal) text.old result text.new }
{
    dataset::capture::udgornwy_show_counts(text, counts, refusal)
}
