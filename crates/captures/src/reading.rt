// Reads a capture: its head, and its records one at a time.
ghost use Rattle.std.specs.Prelude.{◌≡◌, ◌+◌, ◌*◌, ◌≤◌, length};
ghost use Rattle.framing.specs.Refusal.{checked};
ghost use Rattle.captures.specs.Form.{index_size, count_at, ids_at};
ghost use Rattle.captures.specs.Numbers.{field};
ghost use Rattle.captures.specs.Reading.{is_version, version_of, board_count, wrong_mark, wrong_version, wrong_boards, opened_of, next_record};

use super::Version;
use framing::Check;
use refusals::Refusal;

// The head of a capture: so many boards, whose IDs of 16 bytes each stand from `ids` on. The records stand from `records` on.
#[derive(Clone, Copy)]
pub struct Head {
    pub version: Version,
    pub boards: u16,
    pub ids: usize,
    pub records: usize,
}

// What stands first in what is left of a capture's records.
#[derive(Clone, Copy)]
pub enum NextRecord {
    // A record. `packet` bytes are left where its packet starts, and `rest` after it.
    Record {
        index: u16,
        direction: u8,
        counter: u32,
        packet: usize,
        rest: usize,
    },
    // No record is left.
    End,
    // The start of a record: `WrongRecord`, where no more bytes come.
    Cut,
    // `WrongRecord`: a field outside its range.
    Wrong,
}

fn check_mark(capture: &[u8]) -> Check
    ensures { result ≡ checked (wrong_mark capture.now) }
{
    framing::passed_if(octets::stands_at(capture, 0, b"VLG"))
}

#[tactic(auto, unfolding(crate::specs::Numbers::bytes_of))]
fn is_version(capture: &[u8], version: Version) -> bool
    ensures { result ≡ is_version version capture.now }
{
    let number = super::version_number(version).to_le_bytes();
    octets::stands_at(capture, super::VERSION_AT, &number)
}

fn check_version(capture: &[u8]) -> Check
    ensures { result ≡ checked (wrong_version capture.now) }
{
    framing::passed_if(is_version(capture, Version::One) || is_version(capture, Version::Two))
}

// The version of a capture that passed the check.
fn version_of(capture: &[u8]) -> Version
    ensures { result ≡ version_of capture.now }
{
    if is_version(capture, Version::One) {
        Version::One
    } else {
        Version::Two
    }
}

// The number that stands at a place near the start, in the bytes of a board index. Past the end a byte counts as 0.
#[tactic(auto, using(crate::proofs::Fields::field_one, crate::proofs::Fields::field_two))]
fn index_at(bytes: &[u8], at: usize, version: Version) -> u16
    requires { at ≤ count_at }
    ensures { result ≡ field at (index_size version) bytes.now }
{
    let low = octets::byte_at(bytes, at);
    match version {
        Version::One => u16::from(low),
        Version::Two => u16::from_le_bytes([low, octets::byte_at(bytes, at + 1)]),
    }
}

fn board_count(capture: &[u8], version: Version) -> u16
    ensures { result ≡ board_count version capture.now }
{
    index_at(capture, super::COUNT_AT, version)
}

// Where the IDs stand.
fn ids_at(version: Version) -> usize
    ensures { result ≡ ids_at version }
{
    super::COUNT_AT + super::index_size(version)
}

// Where the records stand.
fn records_at(version: Version, boards: u16) -> usize
    ensures { result ≡ ids_at version + 16 * boards }
{
    ids_at(version) + framing::ID_SIZE * usize::from(boards)
}

fn check_boards(capture: &[u8], version: Version) -> Check
    ensures { result ≡ checked (wrong_boards version capture.now) }
{
    let boards = board_count(capture, version);
    let Check::Passed = super::check_count(version, usize::from(boards)) else {
        return Check::Failed;
    };
    framing::passed_if(records_at(version, boards) <= capture.len())
}

// The head of a capture.
#[tactic(auto, unfolding(crate::specs::Reading::head_refusals, crate::specs::Reading::head_refusal, framing::specs::Refusal::first_refusal))]
pub fn open(capture: &[u8]) -> Result<Head, Refusal>
    ensures { result ≡ opened_of capture.now }
{
    let Check::Passed = check_mark(capture) else {
        return Err(Refusal::CaptureMark);
    };
    let Check::Passed = check_version(capture) else {
        return Err(Refusal::UnknownVersion);
    };
    let version = version_of(capture);
    let Check::Passed = check_boards(capture, version) else {
        return Err(Refusal::WrongBoards);
    };
    let boards = board_count(capture, version);
    Ok(Head {
        version,
        boards,
        ids: ids_at(version),
        records: records_at(version, boards),
    })
}

// The number of two bytes that stands at a place.
#[tactic(auto, using(crate::proofs::Fields::field_two))]
fn short_at(bytes: &[u8], at: usize) -> u16
    requires { at + 2 ≤ length bytes.now }
    ensures { result ≡ field at 2 bytes.now }
{
    u16::from_le_bytes([bytes[at], bytes[at + 1]])
}

// The number of four bytes that stands at a place.
#[tactic(auto, using(crate::proofs::Fields::field_four))]
fn long_at(bytes: &[u8], at: usize) -> u32
    requires { at + 4 ≤ length bytes.now }
    ensures { result ≡ field at 4 bytes.now }
{
    u32::from_le_bytes([bytes[at], bytes[at + 1], bytes[at + 2], bytes[at + 3]])
}

// The first record of what is left of a capture of this version and of so many boards.
#[tactic(auto, using(crate::proofs::Fields::field_one))]
pub fn next_record(rest: &[u8], version: Version, boards: u16) -> NextRecord
    ensures { result ≡ next_record version boards rest.now }
{
    let index_size = super::index_size(version);
    let packet_at = index_size + super::PACKET_AFTER;
    if rest.is_empty() {
        return NextRecord::End;
    }
    if rest.len() < packet_at {
        return NextRecord::Cut;
    }
    let index = index_at(rest, 0, version);
    let direction = rest[index_size];
    let size = usize::from(short_at(rest, index_size + super::SIZE_AFTER));
    if !super::in_range(usize::from(boards), index, direction, size) {
        return NextRecord::Wrong;
    }
    let packet = rest.len() - packet_at;
    if packet < size {
        return NextRecord::Cut;
    }
    NextRecord::Record {
        index,
        direction,
        counter: long_at(rest, index_size + super::COUNTER_AFTER),
        packet,
        rest: packet - size,
    }
}
