// Writes a capture of version 2, or its head and its records one at a time, into a lent buffer, as `captures` defines their bytes.
#![tactic(auto)]

ghost use Rattle.std.specs.Prelude.{true, not, ◌++◌, ◌≡◌, ◌+◌, ◌<◌, ◌≤◌, ltb, length, get_or};
ghost use Rattle.octets.specs.Octets.{overwrite, Overwrites};
ghost use Rattle.framing.specs.Refusal.{checked};
ghost use Rattle.captures.specs.Form.{mark, version_number, newest, index_size, record_of, record_bytes, records_bytes, head_bytes, capture_bytes};
ghost use Rattle.captures.specs.Numbers.{bytes_of};
ghost use Rattle.recording.specs.Given.{record_given, list_of, describes, StandSideBySide};
ghost use Rattle.captures.specs.Writing.{wrong_ids, head_call, WritesHead, record_call, WritesRecord, record_in_range, every_in_range, write_call, WritesCapture};

use captures::Version;
use framing::Check;
use refusals::Refusal;

// `WrongBoards`: IDs of 16 bytes each, of 1 to 1,000 boards.
fn check_ids(ids: &[u8]) -> Check
    ensures { result ≡ checked (wrong_ids newest ids.now) }
{
    if ids.len() % framing::ID_SIZE != 0 {
        return Check::Failed;
    }
    captures::check_count(Version::Two, ids.len() / framing::ID_SIZE)
}

// What stands before the IDs.
#[tactic(auto, unfolding(captures::specs::Numbers::bytes_of))]
fn head_start(boards: usize) -> [u8; captures::IDS_AT]
    ensures { result ≡ mark ++ bytes_of 2 (version_number newest) ++ bytes_of (index_size newest) boards }
{
    let [version_low, version_high] = captures::version_number(Version::Two).to_le_bytes();
    let [boards_low, boards_high] = ((boards % 65536) as u16).to_le_bytes();
    [
        b'V',
        b'L',
        b'G',
        version_low,
        version_high,
        boards_low,
        boards_high,
    ]
}

// Puts the head into the first bytes of `buffer`, and says whether it fits.
pub fn put_head(buffer: &mut [u8], ids: &[u8]) -> bool
    ensures { Overwrites buffer.old 0 (head_bytes newest ids.now) result buffer.new }
{
    let start = head_start(ids.len() / framing::ID_SIZE);
    octets::overwrite_pair(buffer, 0, &start, ids)
}

// Writes the head of a capture of the boards with these IDs, 16 bytes each, into the first bytes of `buffer`; the rest stays.
#[tactic(auto, unfolding(captures::specs::Writing::head_call_refusals, framing::specs::Refusal::first_refusal))]
pub fn write_head(buffer: &mut [u8], ids: &[u8]) -> Result<usize, Refusal>
    ensures { WritesHead (head_call buffer.old ids.now) result buffer.new }
{
    let Check::Passed = check_ids(ids) else {
        return Err(Refusal::WrongBoards);
    };
    if !put_head(buffer, ids) {
        return Err(Refusal::NoSpace);
    }
    Ok(captures::IDS_AT + ids.len())
}

// A record: the index of its board, its direction, its millisecond counter and its packet.
#[derive(Clone, Copy)]
pub struct Record<'a> {
    pub index: u16,
    pub direction: u8,
    pub counter: u32,
    pub packet: &'a [u8],
}

impl<'a> Record<'a> {
    // Whether the fields are in their ranges.
    fn is_in_range(&self, boards: usize) -> bool
        ensures { result ≡ record_in_range boards (record_given self.now) }
    {
        captures::in_range(boards, self.index, self.direction, self.packet.len())
    }

    // What stands before the packet.
    #[tactic(auto, unfolding(captures::specs::Numbers::bytes_of))]
    fn start(&self) -> [u8; captures::PACKET_AT]
        ensures { result ≡ bytes_of (index_size newest) self.now.index ++ bytes_of 1 self.now.direction ++ bytes_of 4 self.now.counter ++ bytes_of 2 (length self.now.packet.now) }
    {
        let [index_low, index_high] = self.index.to_le_bytes();
        let [first, second, third, fourth] = self.counter.to_le_bytes();
        let [size_low, size_high] = ((self.packet.len() % 65536) as u16).to_le_bytes();
        [
            index_low,
            index_high,
            self.direction,
            first,
            second,
            third,
            fourth,
            size_low,
            size_high,
        ]
    }

    // Puts the record into `buffer` from `at` on, and says whether it fits.
    pub fn put(&self, buffer: &mut [u8], at: usize) -> bool
        ensures { Overwrites buffer.old at (record_bytes newest (record_given self.now)) result buffer.new }
    {
        let start = self.start();
        octets::overwrite_pair(buffer, at, &start, self.packet)
    }
}

// Writes a record of a capture of so many boards into the first bytes of `buffer`; the rest stays.
#[tactic(auto, unfolding(captures::specs::Writing::record_call_refusals, framing::specs::Refusal::first_refusal))]
pub fn write_record(
    buffer: &mut [u8],
    boards: u16,
    index: u16,
    direction: u8,
    counter: u32,
    packet: &[u8],
) -> Result<usize, Refusal>
    ensures { WritesRecord (record_call buffer.old boards (record_of index direction counter packet.now)) result buffer.new }
{
    let count = usize::from(boards);
    let Check::Passed = captures::check_count(Version::Two, count) else {
        return Err(Refusal::WrongBoards);
    };
    let record = Record {
        index,
        direction,
        counter,
        packet,
    };
    if !record.is_in_range(count) {
        return Err(Refusal::WrongRecord);
    }
    if !record.put(buffer, 0) {
        return Err(Refusal::NoSpace);
    }
    Ok(captures::PACKET_AT + packet.len())
}

// Records as a caller gives them: their indexes, directions, counters and lengths of packet in four slices side by side, and their packets
// one after another.
#[derive(Clone, Copy)]
struct Records<'a> {
    indexes: &'a [u16],
    directions: &'a [u8],
    counters: &'a [u32],
    lengths: &'a [u16],
    packets: &'a [u8],
}

impl<'a> Records<'a> {
    // Whether the slices describe a list of records.
    fn check_list(&self) -> Check
        ensures { result ≡ checked (not (describes self.now)) }
    {
        let count = self.indexes.len();
        let side_by_side = self.directions.len() == count
            && self.counters.len() == count
            && self.lengths.len() == count;
        framing::passed_if(side_by_side && octets::adds_up(self.lengths, self.packets.len()))
    }

    // The record at a place in the slices, with this packet.
    fn record(&self, place: usize, packet: &'a [u8]) -> Record<'a>
        requires side_by_side { StandSideBySide self.now }
        requires place_in_bounds { place < length self.now.lengths.now }
        ensures { record_given result ≡ record_of (get_or self.now.indexes.now place 0) (get_or self.now.directions.now place 0) (get_or self.now.counters.now place 0) packet.now }
    {
        Record {
            index: self.indexes[place],
            direction: self.directions[place],
            counter: self.counters[place],
            packet,
        }
    }

    // Whether the fields of each record are in their ranges.
    #[tactic(auto, using(captures::proofs::Lists::every_step, captures::proofs::Lists::list_end), unfolding(captures::specs::Writing::every_in_range))]
    fn check_fields(&self, boards: usize) -> Check
        requires { StandSideBySide self.now }
        ensures { result ≡ checked (not (every_in_range boards (list_of self.now))) }
    {
        let mut left = self.packets;
        for (i, length) in self.lengths.iter().enumerate() {
            let size = usize::from(*length);
            let record = self.record(i, octets::first_bytes(left, size));
            if !record.is_in_range(boards) {
                return Check::Failed;
            }
            left = octets::bytes_after(left, size);
        }
        Check::Passed
    }

    // `NoSpace`: the head, with these IDs, and the records have room.
    #[tactic(auto, using(captures::proofs::Lists::length_capture))]
    fn check_room(&self, room: usize, ids: &[u8]) -> Check
        requires { describes self.now ≡ true }
        ensures { result ≡ checked (ltb room (length (capture_bytes newest ids.now (list_of self.now)))) }
    {
        let Some(behind_head) = room.checked_sub(captures::IDS_AT + ids.len()) else {
            return Check::Failed;
        };
        let Some(left) = behind_head.checked_sub(self.packets.len()) else {
            return Check::Failed;
        };
        framing::passed_if(self.indexes.len() <= left / captures::PACKET_AT)
    }

    // Puts the records into `buffer` from `at` on, where they have room, and says where they end.
    #[tactic(auto, using(captures::proofs::Lists::no_records, captures::proofs::Buffers::put_all))]
    fn put(&self, buffer: &mut [u8], at: usize) -> usize
        requires side_by_side { StandSideBySide self.now }
        requires records_in_bounds { at + length (records_bytes newest (list_of self.now)) ≤ length buffer.old }
        ensures value { result ≡ at + length (records_bytes newest (list_of self.now)) }
        ensures buffer_after { buffer.new ≡ overwrite buffer.old at (records_bytes newest (list_of self.now)) }
    {
        let mut place = at;
        let mut left = self.packets;
        for (i, length) in self.lengths.iter().enumerate() {
            let size = usize::from(*length);
            let record = self.record(i, octets::first_bytes(left, size));
            record.put(buffer, place);
            place += captures::PACKET_AT + record.packet.len();
            left = octets::bytes_after(left, size);
        }
        place
    }
}

// Writes a capture into the first bytes of `buffer`; the rest stays. The boards' IDs, 16 bytes each, stand one after another; the records
// have their indexes, directions, counters and lengths of packet in four slices side by side, and their packets one after another.
#[tactic(auto, using(captures::proofs::Lists::described), unfolding(captures::specs::Writing::write_refusal, captures::specs::Writing::write_refusals, framing::specs::Refusal::first_refusal))]
pub fn write(
    buffer: &mut [u8],
    ids: &[u8],
    indexes: &[u16],
    directions: &[u8],
    counters: &[u32],
    lengths: &[u16],
    packets: &[u8],
) -> Result<usize, Refusal>
    ensures { WritesCapture (write_call buffer.old ids.now indexes.now directions.now counters.now lengths.now packets.now) result buffer.new }
{
    let Check::Passed = check_ids(ids) else {
        return Err(Refusal::WrongBoards);
    };
    let records = Records {
        indexes,
        directions,
        counters,
        lengths,
        packets,
    };
    let Check::Passed = records.check_list() else {
        return Err(Refusal::WrongRecord);
    };
    let boards = ids.len() / framing::ID_SIZE;
    let Check::Passed = records.check_fields(boards) else {
        return Err(Refusal::WrongRecord);
    };
    let Check::Passed = records.check_room(buffer.len(), ids) else {
        return Err(Refusal::NoSpace);
    };
    put_head(buffer, ids);
    let start = captures::IDS_AT + ids.len();
    Ok(records.put(buffer, start))
}
