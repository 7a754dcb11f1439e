// What a packet is answered with.
ghost use Rattle.std.specs.Prelude.{◌≤◌, ◌≡◌};
ghost use Rattle.board.specs.Answering.{Leaves, answered, frame_in, judged, request_to, responded};
ghost use Rattle.model.specs.Step.{Steps, call, request_of};

use super::{checks, records};
use commands::Scope;
use framing::Check;
use model::{Answer, Board, Stepped};
use refusals::Refusal;

// What a packet carries, as parts of its bytes.
#[derive(Clone, Copy)]
struct Carried<'a> {
    id: &'a [u8],
    password: &'a [u8],
    function: u8,
    block: &'a [u8],
}

fn refused(board: Board, refusal: Refusal) -> Stepped
    ensures { (result.board ≡ board) × (result.answer ≡ Answer.Refused refusal) }
{
    Stepped {
        board,
        answer: Answer::Refused(refusal),
    }
}

// Runs the commands and writes the response, or refuses with 12.
fn respond(scope: Scope, board: Board, carried: Carried, response: &mut [u8]) -> Stepped
    ensures { Leaves (responded scope (request_of board (frame_in carried.entry)) response.old) result response.new }
{
    let Some(ran) = commands::run(scope, board.parameters, carried.function, carried.block) else {
        return refused(board, Refusal::LongResponse);
    };
    let next = records::with_parameters(board, ran.parameters);
    let draft = ran.draft;
    if draft.length == 0 {
        return Stepped {
            board: next,
            answer: Answer::Silence,
        };
    }
    let reports = &draft.bytes[..draft.length];
    let Some(written) = framing::write(response, &board.id, carried.password, 6, reports) else {
        return refused(board, Refusal::LongResponse);
    };
    Stepped {
        board: next,
        answer: Answer::Response(written),
    }
}

// The checks of a request, 7 to 11, to a board of this ID, password and mode: which parameters it may have reported.
#[tactic(auto, using(crate::proofs::Responding::own_password), unfolding(model::specs::Step::request_refusals, framing::specs::Refusal::first_refusal))]
fn judge(own: &[u8], secret: &[u8], mode: u8, carried: Carried) -> Result<Scope, Refusal>
    ensures { result ≡ judged (request_to own.now secret.now mode (frame_in carried.entry)) }
{
    let Check::Passed = checks::check_address(own, carried.id) else {
        return Err(Refusal::OtherId);
    };
    let scope = checks::scope_of(mode, carried.id);
    let Check::Passed = checks::check_password(scope, secret, carried.password) else {
        return Err(Refusal::OtherPassword);
    };
    let Check::Passed = checks::check_function(carried.function) else {
        return Err(Refusal::NoFunction);
    };
    let Check::Passed = checks::check_block(carried.function, carried.block) else {
        return Err(Refusal::MalformedBlock);
    };
    let Check::Passed = checks::check_reads(scope, carried.function, carried.block) else {
        return Err(Refusal::DiscoveryWrites);
    };
    Ok(scope)
}

// The response to a request, or its refusal.
fn answer(board: Board, carried: Carried, response: &mut [u8]) -> Stepped
    requires { board.size ≤ 8 }
    ensures { Leaves (answered (request_of board (frame_in carried.entry)) response.old) result response.new }
{
    let secret = &board.password[..usize::from(board.size)];
    match judge(&board.id, secret, board.mode, carried) {
        Ok(scope) => respond(scope, board, carried, response),
        Err(refusal) => refused(board, refusal),
    }
}

#[tactic(auto, unfolding(model::specs::Step::step, model::specs::Step::step_refusal, model::specs::Step::step_refusals, framing::specs::Refusal::first_refusal))]
pub(crate) fn packet(board: Board, packet: &[u8], response: &mut [u8]) -> Stepped
    ensures { Steps (call board packet.now response.old) result response.new }
{
    let Check::Passed = records::check_record(board) else {
        return refused(board, Refusal::BadRecord);
    };
    let Check::Passed = checks::check_buffer(response.len()) else {
        return refused(board, Refusal::ShortBuffer);
    };
    match framing::read(packet) {
        Ok(places) => {
            let carried = Carried {
                id: &packet[places.id..places.id + framing::ID_SIZE],
                password: &packet[places.password..places.function],
                function: packet[places.function],
                block: &packet[places.block..places.end],
            };
            answer(board, carried, response)
        }
        Err(refusal) => refused(board, refusal),
    }
}
