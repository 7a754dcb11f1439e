// Writes the table of a capture, as `tables` defines it: whole into a lent buffer, or the rows of one window after another.
#![tactic(auto)]

ghost use Rattle.std.specs.Prelude.{◌≡◌, ◌+◌, ◌≤◌, Some, length};
ghost use Rattle.octets.specs.Octets.{overwrite};
ghost use Rattle.tables.specs.Rows.{header_line};
ghost use Rattle.exporting.specs.Text.{reading_given, lines_given, room_after};
ghost use Rattle.exporting.specs.Exporting.{refused_after, put_until, PutsRecords, ExportsTable, ExportsRecords, Exports};

use captures::Version;
use captures::reading::NextRecord;
use refusals::Refusal;
use rows::Record;

mod rows;
pub mod window;

// A capture that was exported: the table's length, how many responses are refused, and the refusal of the capture.
#[derive(Clone, Copy, Debug, PartialEq, Eq)]
pub struct Exported {
    pub length: usize,
    pub refused: u64,
    pub capture: Option<Refusal>,
}

// One refused response more, up to the largest number.
fn refused_after(count: u64, refused: bool) -> u64
    ensures { result ≡ refused_after count refused }
{
    count.saturating_add(u64::from(refused))
}

// Records that were put: where their rows end, how many responses are refused, those before them too, and how they end, as `counts` says it.
#[derive(Clone, Copy)]
pub(crate) struct Records {
    pub(crate) end: usize,
    pub(crate) refused: u64,
    pub(crate) ending: Result<usize, Refusal>,
}

fn put_until(end: usize, refused: u64, ending: Result<usize, Refusal>) -> Records
    ensures { result ≡ put_until end refused ending }
{
    Records {
        end,
        refused,
        ending,
    }
}

// The records of these bytes, of a capture of this version and of so many boards, with their IDs.
#[derive(Clone, Copy)]
pub(crate) struct Source<'a> {
    pub(crate) ids: &'a [u8],
    pub(crate) records: &'a [u8],
    pub(crate) version: Version,
    pub(crate) boards: u16,
}

impl<'a> Source<'a> {
    // What is left of some room after the rows of the records; none where the room is too small.
    fn fit(&self, room: usize) -> Option<usize>
        ensures { result ≡ room_after room (lines_given self.now) }
    {
        let mut left = room;
        let mut rest = self.records;
        loop {
            match captures::reading::next_record(rest, self.version, self.boards) {
                NextRecord::End | NextRecord::Cut | NextRecord::Wrong => return Some(left),
                NextRecord::Record {
                    index,
                    direction,
                    counter,
                    packet,
                    rest: after,
                } => {
                    let record = Record {
                        index,
                        direction,
                        counter,
                        packet: block::part(rest, packet, after),
                    };
                    left = record.room_after(left, self.ids)?;
                    rest = block::part(rest, after, 0);
                }
            }
        }
    }

    // Puts the rows of the records into `text` from `at` on, where they have room.
    pub(crate) fn put(&self, text: &mut [u8], at: usize, earlier: u64) -> Records
        requires { at + length (lines_given self.now) ≤ length text.old }
        ensures { PutsRecords self.now.ids.now (reading_given self.now) text.old at earlier result text.new }
    {
        let mut end = at;
        let mut refused = earlier;
        let mut rest = self.records;
        loop {
            match captures::reading::next_record(rest, self.version, self.boards) {
                NextRecord::End => return put_until(end, refused, Ok(0)),
                NextRecord::Cut => return put_until(end, refused, Ok(rest.len())),
                NextRecord::Wrong => return put_until(end, refused, Err(Refusal::WrongRecord)),
                NextRecord::Record {
                    index,
                    direction,
                    counter,
                    packet,
                    rest: after,
                } => {
                    let record = Record {
                        index,
                        direction,
                        counter,
                        packet: block::part(rest, packet, after),
                    };
                    let put = record.put(text, end, self.ids);
                    end = put.end;
                    refused = refused_after(refused, put.refused);
                    rest = block::part(rest, after, 0);
                }
            }
        }
    }

    // Exports the records behind the header; that it has no room is judged before anything is written.
    fn export(&self, buffer: &mut [u8]) -> Option<Exported>
        ensures { ExportsRecords self.now.ids.now (reading_given self.now) buffer.old result buffer.new }
    {
        let room = buffer.len().checked_sub(tables::HEADER_SIZE)?;
        self.fit(room)?;
        octets::overwrite(buffer, 0, &tables::header());
        let put = self.put(buffer, tables::HEADER_SIZE, 0);
        Some(Exported {
            length: put.end,
            refused: put.refused,
            capture: counts::counting::refusal_at_end(put.ending),
        })
    }
}

// Exports the header alone, of a capture whose head has this refusal.
fn export_header(buffer: &mut [u8], refusal: Refusal) -> Option<Exported>
    ensures { ExportsTable header_line 0 (Some refusal) buffer.old result buffer.new }
{
    if !octets::overwrite(buffer, 0, &tables::header()) {
        return None;
    }
    Some(Exported {
        length: tables::HEADER_SIZE,
        refused: 0,
        capture: Some(refusal),
    })
}

// Exports a capture into the first bytes of `buffer`; the rest stays. None where the table has no room there. A capture that
// `WrongRecord` refuses is exported up to there.
pub fn export(buffer: &mut [u8], capture: &[u8]) -> Option<Exported>
    ensures { Exports buffer.old capture.now result buffer.new }
{
    match captures::reading::open(capture) {
        Err(refusal) => export_header(buffer, refusal),
        Ok(head) => {
            let size = framing::ID_SIZE * usize::from(head.boards);
            let source = Source {
                ids: octets::first_bytes(octets::bytes_after(capture, head.ids), size),
                records: octets::bytes_after(capture, head.records),
                version: head.version,
                boards: head.boards,
            };
            source.export(buffer)
        }
    }
}
