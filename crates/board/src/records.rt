// A board's record: made by set-up, and judged by every call that takes one.
ghost use Rattle.std.specs.Prelude.{◌-◌, ◌≤◌, not, ◌&&◌, ◌++◌, ◌≡◌, length, replicate};
ghost use Rattle.octets.specs.Octets.{same};
ghost use Rattle.store.specs.Layout.{value_of};
ghost use Rattle.store.specs.Sound.{sound as rows_sound};
ghost use Rattle.store.specs.Start.{start as start_rows};
ghost use Rattle.schedule.specs.Entries.{start as start_entries};
ghost use Rattle.framing.specs.Refusal.{checked};
ghost use Rattle.model.specs.Measurement.{MeasuresBoard, measure_call};
ghost use Rattle.model.specs.Record.{SetsUp, entries_sound, is_unit, parameters_of, set_up, sound, start_board, unit_type, unset, with_parameters};

use super::checks;
use framing::Check;
use model::{Answered, Board, Parameters};
use refusals::Refusal;
use store::Store;

// Bytes as an array of a size that has room for them, what they leave of it zero.
fn padded<const N: usize>(bytes: &[u8]) -> [u8; N]
    requires { length bytes.now ≤ N }
    ensures { result ≡ bytes.now ++ replicate (N - length bytes.now) 0 }
{
    let mut array = [0u8; N];
    array[..bytes.len()].copy_from_slice(bytes);
    array
}

// The rows and the schedule as set-up leaves them.
fn start_parameters(id: [u8; framing::ID_SIZE], unit: u8) -> Parameters
    ensures { result ≡ parameters_of (start_rows id unit) start_entries }
{
    Parameters {
        store: store::start(id, unit),
        schedule: schedule::start(),
    }
}

// The start record of an ID of 16 bytes and a password of at most 8.
fn start(id: &[u8], password: &[u8], mode: u8, unit: u8) -> Board
    requires { (length id.now ≡ 16) × (length password.now ≤ 8) }
    ensures { result ≡ start_board (set_up id.now password.now mode unit) }
{
    let own = padded(id);
    Board {
        id: own,
        password: padded(password),
        size: password.len() as u8,
        mode,
        parameters: start_parameters(own, unit),
    }
}

// A refused set-up still gives a board: a zero ID, no password, client, Micra.
fn refused(refusal: Refusal) -> Answered
    ensures { (result.board ≡ start_board unset) × (result.verdict ≡ Err refusal) }
{
    Answered {
        board: start(&[0u8; framing::ID_SIZE], b"", 1, rows::MICRA),
        verdict: Err(refusal),
    }
}

#[tactic(auto, unfolding(model::specs::Record::set_up_refusals, model::specs::Record::set_up_refusal, model::specs::Record::set_up_board, framing::specs::Refusal::first_refusal))]
pub(crate) fn set_up(id: &[u8], password: &[u8], mode: u8, unit: u8) -> Answered
    ensures { SetsUp (set_up id.now password.now mode unit) result }
{
    let Check::Passed = checks::check_id(id) else {
        return refused(Refusal::BadId);
    };
    let Check::Passed = checks::check_new_password(password) else {
        return refused(Refusal::BadPassword);
    };
    let Check::Passed = checks::check_mode(mode) else {
        return refused(Refusal::BadMode);
    };
    let Check::Passed = checks::check_unit(unit) else {
        return refused(Refusal::BadUnitType);
    };
    Answered {
        board: start(id, password, mode, unit),
        verdict: Ok(()),
    }
}

// Whether each row is in its set, and 007C and 00B9 are as the identity says.
fn check_rows(id: [u8; framing::ID_SIZE], store: Store) -> Check
    ensures { result ≡ checked (not (rows_sound store && same (value_of store 0x007C) id && same (value_of store 0x00B9) (unit_type store.unit))) }
{
    let own = store::held(&store.bytes, store.unit, rows::ID);
    let unit_type = store::held(&store.bytes, store.unit, rows::UNIT_TYPE);
    framing::passed_if(
        store::sound(store)
            && octets::equal(own, &id)
            && octets::equal(unit_type, &[store.unit, 0]),
    )
}

// Whether the unit type is one, and on a Micra each entry of the schedule is legal.
fn check_entries(parameters: Parameters) -> Check
    ensures { result ≡ checked (not (is_unit parameters.store.unit && entries_sound parameters)) }
{
    let unit = parameters.store.unit;
    let Check::Passed = checks::check_unit(unit) else {
        return Check::Failed;
    };
    if unit != rows::MICRA {
        return Check::Passed;
    }
    framing::passed_if(schedule::sound(parameters.schedule))
}

// Refusal 70: each call takes only a record that set-up and the calls can make.
#[tactic(auto, unfolding(model::specs::Record::sound))]
pub(crate) fn check_record(board: Board) -> Check
    ensures { result ≡ checked (not (sound board)) }
{
    let Check::Passed = checks::check_id(&board.id) else {
        return Check::Failed;
    };
    let size = usize::from(board.size);
    if framing::LONGEST_PASSWORD < size {
        return Check::Failed;
    }
    let Check::Passed = checks::check_new_password(&board.password[..size]) else {
        return Check::Failed;
    };
    let Check::Passed = checks::check_mode(board.mode) else {
        return Check::Failed;
    };
    let Check::Passed = check_entries(board.parameters) else {
        return Check::Failed;
    };
    check_rows(board.id, board.parameters.store)
}

// The record with other parameters.
pub(crate) fn with_parameters(board: Board, parameters: Parameters) -> Board
    ensures { result ≡ with_parameters board parameters }
{
    Board {
        parameters,
        ..board
    }
}

#[tactic(auto, unfolding(model::specs::Measurement::measure_refusals, model::specs::Measurement::measure_refusal, model::specs::Measurement::measured_board, framing::specs::Refusal::first_refusal))]
pub(crate) fn measure(board: Board, number: u16, value: &[u8]) -> Answered
    ensures { MeasuresBoard (measure_call board number value.now) result }
{
    let Check::Passed = check_record(board) else {
        return Answered {
            board,
            verdict: Err(Refusal::BadRecord),
        };
    };
    let held = board.parameters;
    match store::measure(held.store, number, value) {
        Ok(store) => {
            let parameters = Parameters {
                store,
                schedule: held.schedule,
            };
            Answered {
                board: with_parameters(board, parameters),
                verdict: Ok(()),
            }
        }
        Err(refusal) => Answered {
            board,
            verdict: Err(refusal),
        },
    }
}
