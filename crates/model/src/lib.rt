// A board's record, and what set-up, a packet and a measurement are answered with. What each of them does is defined in `specs/`, with
// demands 1, 2 and 3 proved of the definitions; `board` has the code.
#![tactic(auto)]

use refusals::Refusal;
use schedule::Schedule;
use store::Store;

// What a board's parameters hold: the rows, and the entries of the weekly schedule.
#[repr(C)]
#[derive(Clone, Copy)]
pub struct Parameters {
    pub store: Store,
    pub schedule: Schedule,
}

// A board's record. The password is the first `size` bytes of `password`; `mode` is the mode in force.
#[repr(C)]
#[derive(Clone, Copy)]
pub struct Board {
    pub id: [u8; framing::ID_SIZE],
    pub password: [u8; framing::LONGEST_PASSWORD],
    pub size: u8,
    pub mode: u8,
    pub parameters: Parameters,
}

// What set-up and a measurement are answered with, beside the record.
#[derive(Clone, Copy)]
pub struct Answered {
    pub board: Board,
    pub verdict: Result<(), Refusal>,
}

// What a packet is answered with.
#[derive(Clone, Copy)]
pub enum Answer {
    Refused(Refusal),
    Silence,
    // The length of the response.
    Response(usize),
}

#[derive(Clone, Copy)]
pub struct Stepped {
    pub board: Board,
    pub answer: Answer,
}
