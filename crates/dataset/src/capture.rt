// Captures opened, read, written, rewritten, counted and summed up, with answers in numbers.
ghost use Rattle.std.specs.Prelude.{◌≡◌};
ghost use Rattle.captures.specs.Form.{record_of};
ghost use Rattle.captures.specs.Reading.{opened_of};
ghost use Rattle.captures.specs.Writing.{head_call, record_call, write_call};
ghost use Rattle.rewriting.specs.Rewriting.{rewrite_call};
ghost use Rattle.summing.specs.Text.{text_of};
ghost use Rattle.dataset.specs.Captures.{opened_in_numbers, version_numbered, no_record, next_numbered, WritesHead, WritesRecord, WritesCapture, rewritten_reply, RewritesInNumbers, CountsNumbered, ShowsCounts};

use super::Reply;
use captures::Version;
use captures::reading::NextRecord;
use refusals::Refusal;
use rewriting::Rewritten;

// Refusal 0: the IDs, 16 bytes each, stand from `ids` on, the records from `records` on. With any other every number is 0.
#[repr(C)]
#[derive(Clone, Copy)]
pub struct OpenedCapture {
    pub refusal: u16,
    pub version: u16,
    pub boards: u16,
    pub ids: usize,
    pub records: usize,
}

// Opens a capture, as `captures::reading::open`.
pub fn udgornwy_open_capture(capture: &[u8]) -> OpenedCapture
    ensures { result ≡ opened_in_numbers (opened_of capture.now) }
{
    match captures::reading::open(capture) {
        Ok(head) => OpenedCapture {
            refusal: 0,
            version: captures::version_number(head.version),
            boards: head.boards,
            ids: head.ids,
            records: head.records,
        },
        Err(refusal) => OpenedCapture {
            refusal: u16::from(refusal.number()),
            version: 0,
            boards: 0,
            ids: 0,
            records: 0,
        },
    }
}

// The version that a number names.
pub(crate) fn version_numbered(number: u16) -> Option<Version>
    ensures { result ≡ version_numbered number }
{
    if number == captures::version_number(Version::One) {
        return Some(Version::One);
    }
    if number == captures::version_number(Version::Two) {
        return Some(Version::Two);
    }
    None
}

// Kind 0: a record; 1: no record is left; 2: the start of a record; 3: a field outside its range; 4: no version has this number. With any
// other than 0 all numbers behind it are 0.
#[repr(C)]
#[derive(Clone, Copy)]
pub struct CaptureRecord {
    pub kind: u8,
    pub direction: u8,
    pub index: u16,
    pub counter: u32,
    pub packet: usize,
    pub rest: usize,
}

fn no_record(kind: u8) -> CaptureRecord
    ensures { result ≡ no_record kind }
{
    CaptureRecord {
        kind,
        direction: 0,
        index: 0,
        counter: 0,
        packet: 0,
        rest: 0,
    }
}

// The first record of what is left of a capture of this version and of so many boards, as `captures::reading::next_record`.
pub fn udgornwy_next_record(rest: &[u8], version: u16, boards: u16) -> CaptureRecord
    ensures { result ≡ next_numbered (version_numbered version) boards rest.now }
{
    let Some(version) = version_numbered(version) else {
        return no_record(4);
    };
    match captures::reading::next_record(rest, version, boards) {
        NextRecord::End => no_record(1),
        NextRecord::Cut => no_record(2),
        NextRecord::Wrong => no_record(3),
        NextRecord::Record {
            index,
            direction,
            counter,
            packet,
            rest,
        } => CaptureRecord {
            kind: 0,
            direction,
            index,
            counter,
            packet,
            rest,
        },
    }
}

// Writes the head of a capture into the first bytes of `buffer`, as `recording::write_head`.
pub fn udgornwy_write_head(buffer: &mut [u8], ids: &[u8]) -> Reply
    ensures { WritesHead (head_call buffer.old ids.now) result buffer.new }
{
    Reply::from(recording::write_head(buffer, ids))
}

// Writes a record of a capture of so many boards into the first bytes of `buffer`, as `recording::write_record`.
pub fn udgornwy_write_record(
    buffer: &mut [u8],
    boards: u16,
    index: u16,
    direction: u8,
    counter: u32,
    packet: &[u8],
) -> Reply
    ensures { WritesRecord (record_call buffer.old boards (record_of index direction counter packet.now)) result buffer.new }
{
    Reply::from(recording::write_record(buffer, boards, index, direction, counter, packet))
}

// Writes a capture into the first bytes of `buffer`, as `recording::write`.
pub fn udgornwy_write_capture(
    buffer: &mut [u8],
    ids: &[u8],
    indexes: &[u16],
    directions: &[u8],
    counters: &[u32],
    lengths: &[u16],
    packets: &[u8],
) -> Reply
    ensures { WritesCapture (write_call buffer.old ids.now indexes.now directions.now counters.now lengths.now packets.now) result buffer.new }
{
    Reply::from(recording::write(buffer, ids, indexes, directions, counters, lengths, packets))
}

impl From<Rewritten> for Reply {
    ghost from_gives = { λ answer reply. reply ≡ rewritten_reply answer };

    fn from(answer: Rewritten) -> Reply {
        match answer {
            Rewritten::Whole(length) => Reply { refusal: 0, length },
            Rewritten::Part(length) => Reply {
                refusal: u16::from(Refusal::WrongRecord.number()),
                length,
            },
            Rewritten::Refused(refusal) => Reply {
                refusal: u16::from(refusal.number()),
                length: 0,
            },
        }
    }
}

// Rewrites a capture in version 2 into the first bytes of `buffer`, as `rewriting::rewrite`. Refusal 53: `length` bytes hold what stands before
// the record that is refused.
pub fn udgornwy_rewrite_capture(buffer: &mut [u8], capture: &[u8]) -> Reply
    ensures { RewritesInNumbers (rewrite_call buffer.old capture.now) result buffer.new }
{
    Reply::from(rewriting::rewrite(buffer, capture))
}

// Counts the records that stand in a window from `start` to `end`, as `counts::window::count_window`. Refusal 51: no version has this number; 53: a
// field outside its range; else `length` bytes are left, and stand at the window's start.
pub fn udgornwy_count_window(
    counts: &mut [u64],
    window: &mut [u8],
    start: usize,
    end: usize,
    version: u16,
    boards: u16,
) -> Reply
    ensures { CountsNumbered (version_numbered version) boards start end window.old counts.old result counts.new window.new }
{
    let Some(version) = version_numbered(version) else {
        return Reply::from(Err(Refusal::UnknownVersion));
    };
    Reply::from(counts::window::count_window(counts, window, start, end, version, boards))
}

// Writes counts, and the line of a refusal where its number is not 0, into the first bytes of `text`, as `summing::write`. Refusal 1: they
// do not fit.
pub fn udgornwy_show_counts(text: &mut [u8], counts: &[u64], refusal: u8) -> Reply
    ensures { ShowsCounts (text_of counts.now refusal) text.old result text.new }
{
    Reply::from(summing::write(text, counts, refusal).ok_or(Refusal::ShortBuffer))
}
