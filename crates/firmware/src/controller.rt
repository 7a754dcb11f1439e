// The board's calls for firmware in other languages: answers are numbers, and a packet takes the record as lent.
ghost use Rattle.std.specs.Prelude.{◌≡◌};
ghost use Rattle.model.specs.Measurement.{measure_call};
ghost use Rattle.model.specs.Record.{set_up};
ghost use Rattle.model.specs.Step.{call};
ghost use Rattle.firmware.specs.Controller.{Replies, reply_of, result_of, set_up_result, measure_result};

use super::Reply;
use model::{Answer, Answered, Board};
use refusals::number_in;

impl From<Answer> for Reply {
    ghost from_gives = { λ answer reply. reply ≡ reply_of answer };

    fn from(answer: Answer) -> Reply {
        match answer {
            Answer::Refused(refusal) => Reply {
                refusal: u16::from(refusal.number()),
                length: 0,
            },
            Answer::Silence => Reply {
                refusal: 0,
                length: 0,
            },
            Answer::Response(length) => Reply { refusal: 0, length },
        }
    }
}

// Lets a packet change the lent record: the packet step on it, and what comes back is stored there.
pub fn udgornwy_packet(board: &mut Board, packet: &[u8], response: &mut [u8]) -> Reply
    ensures { Replies (call board.old packet.now response.old) board.new result response.new }
{
    let stepped = board::packet(*board, packet, response);
    *board = stepped.board;
    Reply::from(stepped.answer)
}

// The board to keep, and the number of the refusal, 0 where there is none.
#[repr(C)]
#[derive(Clone, Copy)]
pub struct CallResult {
    pub board: Board,
    pub refusal: u16,
}

impl From<Answered> for CallResult {
    ghost from_gives = { λ answered kept. kept ≡ result_of answered.board answered.verdict };

    fn from(answered: Answered) -> CallResult {
        CallResult {
            board: answered.board,
            refusal: u16::from(number_in(answered.verdict)),
        }
    }
}

// Sets a board up.
pub fn udgornwy_set_up(id: &[u8], password: &[u8], mode: u8, unit: u8) -> CallResult
    ensures { result ≡ set_up_result (set_up id.now password.now mode unit) }
{
    CallResult::from(board::set_up(id, password, mode, unit))
}

// Stores a measured value in its read-only row.
pub fn udgornwy_measure(board: Board, number: u16, value: &[u8]) -> CallResult
    ensures { result ≡ measure_result (measure_call board number value.now) }
{
    CallResult::from(board::measure(board, number, value))
}
