// Tables: what they are, their header, and the lines that the export program writes behind one. `exporting` writes rows, `importing` reads them.
#![tactic(auto)]

ghost use Rattle.std.specs.Prelude.{◌≡◌, ◌+◌, ◌≤◌, length};
ghost use Rattle.octets.specs.Octets.{overwrite};
ghost use Rattle.tables.specs.Rows.{header_line};
ghost use Rattle.tables.specs.Ending.{number_line, last_lines, Holds};

pub const HEADER_SIZE: usize = 48;

// The header of a table.
#[tactic(auto, unfolding(crate::specs::Fields::quoted))]
pub fn header() -> [u8; HEADER_SIZE]
    ensures { result ≡ header_line }
{
    *b"\"board\",\"direction\",\"counter\",\"number\",\"value\"\r\n"
}

// The longest line behind a table: a word, a number and a line feed.
const LONGEST_LINE: usize = 8 + numerals::DIGITS + 1;

// Puts a word, a number in decimal and a line feed into `text` from `at` on, where they have room, and says where they end.
fn put_line(text: &mut [u8], at: usize, word: &[u8], number: u64) -> usize
    requires { at + length word.now + 21 ≤ length text.old }
    ensures value { result ≡ at + length (number_line word.now number) }
    ensures text_after { text.new ≡ overwrite text.old at (number_line word.now number) }
{
    let numeral = numerals::decimal(number);
    let digits = numeral.text();
    octets::overwrite_pair(text, at, word, digits);
    let end = at + word.len() + digits.len();
    octets::overwrite(text, end, b"\n");
    end + 1
}

// The lines behind a table, in the first `size` bytes.
#[derive(Clone, Copy)]
pub struct LastLines {
    pub bytes: [u8; 2 * LONGEST_LINE],
    pub size: usize,
}

// What the export program writes behind a table: `refused,N`, and `capture,N` where its number is not 0.
pub fn last_lines(refused: u64, capture: u8) -> LastLines
    ensures { Holds (last_lines refused capture) result }
{
    let mut bytes = [0u8; 2 * LONGEST_LINE];
    let end = put_line(&mut bytes, 0, b"refused,", refused);
    if capture == 0 {
        return LastLines { bytes, size: end };
    }
    let size = put_line(&mut bytes, end, b"capture,", u64::from(capture));
    LastLines { bytes, size }
}
