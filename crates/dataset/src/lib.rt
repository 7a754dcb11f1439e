// The calls on captures and tables for programs in other languages: answers are numbers.
#![tactic(auto)]

ghost use Rattle.std.specs.Prelude.{◌≡◌};
ghost use Rattle.dataset.specs.Captures.{written_reply};

pub mod capture;
pub mod table;

use refusals::{Refusal, number_in};

// As the board's calls answer. Refusal 0: not refused. The length is that of the bytes or of the text.
#[repr(C)]
#[derive(Clone, Copy)]
pub struct Reply {
    pub refusal: u16,
    pub length: usize,
}

impl From<Result<usize, Refusal>> for Reply {
    ghost from_gives = { λ answer reply. reply ≡ written_reply answer };

    fn from(answer: Result<usize, Refusal>) -> Reply {
        Reply {
            refusal: u16::from(number_in(answer)),
            length: answer.unwrap_or(0),
        }
    }
}
