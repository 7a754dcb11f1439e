// The board: the code of set-up, packets and measurements. `model` defines what each of them does; `commands` runs the
// commands of a block.
#![tactic(auto)]

mod checks;
mod packets;
mod records;

ghost use Rattle.model.specs.Measurement.{MeasuresBoard, measure_call};
ghost use Rattle.model.specs.Record.{SetsUp, set_up};
ghost use Rattle.model.specs.Step.{Steps, call};

use model::{Answered, Board, Stepped};

// Sets a board up with an ID, a password, the mode in force and its unit type. A refused set-up gives a board too: zero ID, no password,
// client, Micra.
pub fn set_up(id: &[u8], password: &[u8], mode: u8, unit: u8) -> Answered
    ensures { SetsUp (set_up id.now password.now mode unit) result }
{
    records::set_up(id, password, mode, unit)
}

// Takes a packet of any length. A response fills the first bytes of `response`; with any other answer the buffer stays as it was.
pub fn packet(board: Board, packet: &[u8], response: &mut [u8]) -> Stepped
    ensures { Steps (call board packet.now response.old) result response.new }
{
    packets::packet(board, packet, response)
}

// Stores a measured value in its read-only row.
pub fn measure(board: Board, number: u16, value: &[u8]) -> Answered
    ensures { MeasuresBoard (measure_call board number value.now) result }
{
    records::measure(board, number, value)
}
