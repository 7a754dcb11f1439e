// The capture form `VLG`: packets as they were sent, with the boards that they belong to.
#![tactic(auto)]

pub mod reading;

ghost use Rattle.std.specs.Prelude.{◌≡◌, ◌≤◌};
ghost use Rattle.framing.specs.Refusal.{checked};
ghost use Rattle.captures.specs.Form.{version_number, index_size, newest, board_limit, wrong_count, fields_in_range};

use framing::Check;

// A form of captures.
#[derive(Clone, Copy)]
pub enum Version {
    One,
    Two,
}

// Of the newest version, which is written: the bytes of a board index, and of the board count.
pub(crate) const INDEX_SIZE: usize = 2;

// The most boards, of the newest version and of any.
pub const BOARD_LIMIT: usize = 1000;

// Where the parts of the head stand.
pub const VERSION_AT: usize = 3;

pub(crate) const COUNT_AT: usize = 5;

pub const IDS_AT: usize = COUNT_AT + INDEX_SIZE;

// The most bytes that stand before the records.
pub const LONGEST_HEAD: usize = IDS_AT + framing::ID_SIZE * BOARD_LIMIT;

// Where the parts of a record stand, after its index.
pub(crate) const COUNTER_AFTER: usize = 1;

pub(crate) const SIZE_AFTER: usize = 5;

pub(crate) const PACKET_AFTER: usize = 7;

pub const PACKET_AT: usize = INDEX_SIZE + PACKET_AFTER;

pub fn version_number(version: Version) -> u16
    ensures { result ≡ version_number version }
{
    match version {
        Version::One => 1,
        Version::Two => 2,
    }
}

// Bytes of a board index, and of the board count.
pub(crate) fn index_size(version: Version) -> usize
    ensures value { result ≡ index_size version }
    ensures upper_bound { result ≤ index_size newest }
{
    match version {
        Version::One => 1,
        Version::Two => INDEX_SIZE,
    }
}

// The most boards.
fn board_limit(version: Version) -> usize
    ensures { result ≡ board_limit version }
{
    match version {
        Version::One => 16,
        Version::Two => BOARD_LIMIT,
    }
}

// `WrongBoards`: a capture has 1 to as many boards as its version has.
pub fn check_count(version: Version, boards: usize) -> Check
    ensures { result ≡ checked (wrong_count version boards) }
{
    framing::passed_if((1..=board_limit(version)).contains(&boards))
}

// Whether the fields of a record are in their ranges.
pub fn in_range(boards: usize, index: u16, direction: u8, size: usize) -> bool
    ensures { result ≡ fields_in_range boards index direction size }
{
    usize::from(index) < boards && direction <= 1 && size <= framing::LONGEST_PACKET
}
