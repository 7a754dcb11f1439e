// Counts the records of a capture.
ghost use Rattle.std.specs.Prelude.{◌≡◌, ◌+◌, ◌*◌, set, get_or};
ghost use Rattle.counts.specs.Counting.{numbers_per_board, more, refusal_at_end, Counts};

use captures::Version;
use captures::reading::NextRecord;
use refusals::Refusal;

// The numbers of packets, 0 to 10, have so many counts for each board.
pub const NUMBERS: usize = 11;

// Where a number is counted.
fn place(index: u16, number: u8) -> usize
    ensures { result ≡ index * numbers_per_board + number }
{
    usize::from(index) * NUMBERS + usize::from(number)
}

// One more at a place, where there is one.
fn count_one(counts: &mut [u64], at: usize)
    ensures { counts.new ≡ set counts.old at (more (get_or counts.old at 0)) }
{
    if at < counts.len() {
        counts[at] = counts[at].saturating_add(1);
    }
}

// Counts the records of these bytes of a capture of this version and of so many boards. `Ok` tells how many bytes are left, the start of a
// record: `WrongRecord` applies where there are any and no more come. `Err` is `WrongRecord`, at a field outside its range.
#[tactic(auto, using(crate::proofs::Counted::ended, crate::proofs::Counted::cut, crate::proofs::Counted::outside))]
pub fn count(
    counts: &mut [u64],
    bytes: &[u8],
    version: Version,
    boards: u16,
) -> Result<usize, Refusal>
    ensures { Counts version boards bytes.now counts.old result counts.new }
{
    let mut rest = bytes;
    loop {
        match captures::reading::next_record(rest, version, boards) {
            NextRecord::End => return Ok(0),
            NextRecord::Cut => return Ok(rest.len()),
            NextRecord::Wrong => return Err(Refusal::WrongRecord),
            NextRecord::Record {
                index,
                direction,
                counter: _,
                packet,
                rest: after,
            } => {
                let refusal = super::judging::judge(direction, block::part(rest, packet, after));
                count_one(counts, place(index, refusals::number_or_zero(refusal)));
                rest = block::part(rest, after, 0);
            }
        }
    }
}

// The refusal, where no more bytes come.
pub fn refusal_at_end(ending: Result<usize, Refusal>) -> Option<Refusal>
    ensures { result ≡ refusal_at_end ending }
{
    match ending {
        Ok(0) => None,
        Ok(_) => Some(Refusal::WrongRecord),
        Err(refusal) => Some(refusal),
    }
}
