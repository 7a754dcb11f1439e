// Writes the counts of `counts` as text, and the summary of a capture: a line for each board and number that occurs.
#![tactic(auto)]

ghost use Rattle.std.specs.Prelude.{◌∷◌, [], ◌++◌, ◌≡◌, ◌≤◌, drop, length};
ghost use Rattle.numerals.specs.Numerals.{decimal, Before};
ghost use Rattle.tool.specs.Listing.{line_of, Shows};
ghost use Rattle.summing.specs.Text.{pair_line, pair_at, lines_of, last_line, text_of, summary_of, Holds, room_after, WritesLines};

use tool::listing::Line;

// Room for the text of the counts of all boards: lines of up to 28 bytes, and that of a refusal.
pub const LONGEST_TEXT: usize = captures::BOARD_LIMIT * counts::counting::NUMBERS * 28 + 11;

// The longest line of a pair: three numbers, and a byte after each.
const LONGEST_LINE: usize = 3 * (numerals::DIGITS + 1);

// Puts a number in decimal, and then a mark, before `end`, and says where they start.
fn write_field(bytes: &mut [u8], end: usize, number: u64, mark: u8) -> usize
    requires le_end { 21 ≤ end }
    requires end_in_bounds { end ≤ length bytes.old }
    ensures { Before (decimal number ++ mark ∷ []) end bytes.old result bytes.new }
{
    let at = end - 1;
    bytes[at] = mark;
    let numeral = numerals::decimal(number);
    let digits = numeral.text();
    let start = at - digits.len();
    octets::overwrite(bytes, start, digits);
    start
}

// A line, in the bytes from `start` on.
#[derive(Clone, Copy)]
struct PairLine {
    bytes: [u8; LONGEST_LINE],
    start: usize,
}

impl PairLine {
    fn text(&self) -> &[u8]
        ensures { result.now ≡ drop self.now.start self.now.bytes }
    {
        octets::bytes_after(&self.bytes, self.start)
    }
}

// The line of a pair; no byte where it does not occur.
fn pair_line(index: u64, number: u64, count: u64) -> PairLine
    ensures { Holds (pair_line index number count) result }
{
    let mut bytes = [0u8; LONGEST_LINE];
    if count == 0 {
        return PairLine {
            bytes,
            start: LONGEST_LINE,
        };
    }
    let count_at = write_field(&mut bytes, LONGEST_LINE, count, b'\n');
    let number_at = write_field(&mut bytes, count_at, number, b',');
    let start = write_field(&mut bytes, number_at, index, b',');
    PairLine { bytes, start }
}

// The line of the pair that is counted at a place.
fn line_at(place: usize, count: u64) -> PairLine
    ensures { Holds (pair_at place count) result }
{
    let index = place / counts::counting::NUMBERS;
    let number = place % counts::counting::NUMBERS;
    pair_line(index as u64, number as u64, count)
}

// What is left of some room after the lines of all counts, where they have room.
#[tactic(auto, using(crate::proofs::Lines::room_more))]
fn room_after(room: usize, counts: &[u64]) -> Option<usize>
    ensures { result ≡ room_after room (lines_of counts.now) }
{
    let mut left = room;
    for (place, count) in counts.iter().enumerate() {
        let line = line_at(place, *count);
        left = left.checked_sub(line.text().len())?;
    }
    Some(left)
}

// Puts the lines of all counts into the first bytes of `text`, and says where they end.
fn write_lines(text: &mut [u8], counts: &[u64]) -> usize
    requires { length (lines_of counts.now) ≤ length text.old }
    ensures { WritesLines (lines_of counts.now) text.old result text.new }
{
    let mut at: usize = 0;
    for (place, count) in counts.iter().enumerate() {
        let line = line_at(place, *count);
        let bytes = line.text();
        octets::overwrite(text, at, bytes);
        at += bytes.len();
    }
    at
}

// The line of the refusal; no byte where its number is 0.
fn last_line(refusal: u8) -> Line
    ensures { result ≡ line_of (last_line refusal) }
{
    if refusal == 0 {
        return Line {
            bytes: [0; 11],
            size: 0,
        };
    }
    tool::listing::refused_line(refusal)
}

// Writes counts, and the line of a refusal where its number is not 0, into the first bytes of `text`; the rest stays.
pub fn write(text: &mut [u8], counts: &[u64], refusal: u8) -> Option<usize>
    ensures { Shows (text_of counts.now refusal) text.old result text.new }
{
    let left = room_after(text.len(), counts)?;
    let line = last_line(refusal);
    if left < line.size {
        return None;
    }
    let at = write_lines(text, counts);
    octets::overwrite(text, at, &line.bytes[..line.size]);
    Some(at + line.size)
}

// Writes the summary of a capture into the first bytes of `text`; the rest stays.
#[tactic(auto, using(crate::proofs::Summaries::refused_shown))]
pub fn summary(text: &mut [u8], capture: &[u8]) -> Option<usize>
    ensures { Shows (summary_of capture.now) text.old result text.new }
{
    match captures::reading::open(capture) {
        Ok(head) => {
            let mut counts = [0u64; captures::BOARD_LIMIT * counts::counting::NUMBERS];
            let bytes = octets::bytes_after(capture, head.records);
            let ending = counts::counting::count(&mut counts, bytes, head.version, head.boards);
            let refusal = counts::counting::refusal_at_end(ending);
            write(text, &counts, refusals::number_or_zero(refusal))
        }
        Err(refusal) => write(text, &[], refusal.number()),
    }
}
