// Rewrites a capture of either version in version 2, into a lent buffer.
#![tactic(auto)]

ghost use Rattle.std.specs.Prelude.{◌≡◌, ◌+◌, ◌≤◌, length};
ghost use Rattle.octets.specs.Octets.{overwrite};
ghost use Rattle.rewriting.specs.Rewriting.{records_read, bytes_read, reading_given, fitted, rewrite_call, Rewrites};

use captures::Version;
use captures::reading::NextRecord;
use recording::Record;
use refusals::Refusal;

// What became of a capture.
#[derive(Clone, Copy)]
pub enum Rewritten {
    // All of it stands in so many bytes.
    Whole(usize),
    // `WrongRecord`: what stands before the record that is refused, in so many bytes.
    Part(usize),
    // Another refusal.
    Refused(Refusal),
}

// How much of a capture was read.
#[derive(Clone, Copy)]
enum Extent {
    Whole,
    // What stands before the record that is refused.
    Part,
}

// The records of a capture of this version and of so many boards, as they stand in it.
#[derive(Clone, Copy)]
struct Records<'a> {
    bytes: &'a [u8],
    version: Version,
    boards: u16,
}

impl<'a> Records<'a> {
    // How much of them is read, where that has room in version 2.
    #[tactic(auto, using(crate::proofs::Steps::fitted_step))]
    fn fit(&self, room: usize) -> Option<Extent>
        ensures { result ≡ fitted room (reading_given self.now) }
    {
        let mut left = room;
        let mut rest = self.bytes;
        loop {
            match captures::reading::next_record(rest, self.version, self.boards) {
                NextRecord::End => return Some(Extent::Whole),
                NextRecord::Cut | NextRecord::Wrong => return Some(Extent::Part),
                NextRecord::Record {
                    packet,
                    rest: after,
                    ..
                } => {
                    left = left.checked_sub(captures::PACKET_AT + (packet - after))?;
                    rest = octets::bytes_after(rest, rest.len() - after);
                }
            }
        }
    }

    // Puts what is read of them into `buffer` from `at` on, where it has room, and says where it ends.
    #[tactic(auto, using(crate::proofs::Steps::records_step, captures::proofs::Buffers::put_all))]
    fn put(&self, buffer: &mut [u8], at: usize) -> usize
        requires { at + length (records_read (reading_given self.now)) ≤ length buffer.old }
        ensures value { result ≡ at + length (records_read (reading_given self.now)) }
        ensures buffer_after { buffer.new ≡ overwrite buffer.old at (records_read (reading_given self.now)) }
    {
        let mut place = at;
        let mut rest = self.bytes;
        while let NextRecord::Record {
            index,
            direction,
            counter,
            packet,
            rest: after,
        } = captures::reading::next_record(rest, self.version, self.boards)
        {
            let size = packet - after;
            let bytes = octets::first_bytes(octets::bytes_after(rest, rest.len() - packet), size);
            let record = Record {
                index,
                direction,
                counter,
                packet: bytes,
            };
            record.put(buffer, place);
            place += captures::PACKET_AT + size;
            rest = octets::bytes_after(rest, rest.len() - after);
        }
        place
    }
}

// Puts the head of these IDs and what is read of the records into the first bytes of `buffer`, where they have room, and says where they end.
fn put_all(buffer: &mut [u8], ids: &[u8], records: Records) -> usize
    requires { length (bytes_read ids.now (reading_given records)) ≤ length buffer.old }
    ensures value { result ≡ length (bytes_read ids.now (reading_given records.entry)) }
    ensures buffer_after { buffer.new ≡ overwrite buffer.old 0 (bytes_read ids.now (reading_given records.entry)) }
{
    recording::put_head(buffer, ids);
    records.put(buffer, captures::IDS_AT + ids.len())
}

// Rewrites a capture into the first bytes of `buffer`; the rest stays. One that `WrongRecord` refuses is rewritten up to there.
pub fn rewrite(buffer: &mut [u8], capture: &[u8]) -> Rewritten
    ensures { Rewrites (rewrite_call buffer.old capture.now) result buffer.new }
{
    let head = match captures::reading::open(capture) {
        Ok(head) => head,
        Err(refusal) => return Rewritten::Refused(refusal),
    };
    let size = framing::ID_SIZE * usize::from(head.boards);
    let ids = octets::first_bytes(octets::bytes_after(capture, head.ids), size);
    let records = Records {
        bytes: octets::bytes_after(capture, head.records),
        version: head.version,
        boards: head.boards,
    };
    let Some(room) = buffer.len().checked_sub(captures::IDS_AT + ids.len()) else {
        return Rewritten::Refused(Refusal::NoSpace);
    };
    let Some(extent) = records.fit(room) else {
        return Rewritten::Refused(Refusal::NoSpace);
    };
    let end = put_all(buffer, ids, records);
    match extent {
        Extent::Whole => Rewritten::Whole(end),
        Extent::Part => Rewritten::Part(end),
    }
}
