// Reads a response packet.
ghost use Rattle.std.specs.Prelude.{◌≡◌};
ghost use Rattle.framing.specs.Packet.{places_of};
ghost use Rattle.framing.specs.Refusal.{first_refusal, checked};
ghost use Rattle.framing.specs.Statements.{Stands};
ghost use Rattle.tool.specs.Response.{read_call, received, frame_refusals, response_of, response_as, any_response_of, other_id, other_password, no_response, malformed_block};

use super::kinds;
use super::kinds::Kind;
use framing::{Check, Places};
use refusals::Refusal;

// Where the data block of an accepted packet stands, from `block` to `end`. The reports of a response are what
// `reports::next_report` hands out, from page 0 on.
#[derive(Clone, Copy, Debug, PartialEq, Eq)]
pub struct Block {
    pub block: usize,
    pub end: usize,
}

// The packets that boards send.
struct Responses;

impl Kind for Responses {
    ghost wrong_function = { no_response };

    ghost wrong_block = { λ function block. malformed_block block };

    fn check_function(function: u8) -> Check {
        framing::passed_if(function == 6)
    }

    fn check_block(_function: u8, block: &[u8]) -> Check {
        framing::passed_if(reports::well_formed(block))
    }
}

fn check_same_id(asked: &[u8], found: &[u8]) -> Check
    ensures { result ≡ checked (other_id asked.now found.now) }
{
    if framing::is_default_id(asked) {
        return Check::Passed;
    }
    framing::passed_if(octets::equal(found, asked))
}

fn check_same_password(sent: &[u8], found: &[u8]) -> Check
    ensures { result ≡ checked (other_password sent.now found.now) }
{
    framing::passed_if(octets::equal(found, sent))
}

// Refusals 7 to 10, of a packet that passed 2 to 6.
#[tactic(auto, using(framing::proofs::Answers::id_found, framing::proofs::Answers::password_found, crate::proofs::Refusals::response_left), unfolding(crate::specs::Response::frame_refusals, crate::specs::Response::response_refusals, framing::specs::Refusal::first_refusal))]
fn read_frame(packet: &[u8], places: Places, id: &[u8], password: &[u8]) -> Result<Block, Refusal>
    requires { Stands packet.now places }
    ensures { result ≡ response_as (first_refusal frame_refusals (received (read_call packet.now id.now password.now))) (places_of packet.now) }
{
    let start = places.id;
    let end = start + framing::ID_SIZE;
    let Check::Passed = check_same_id(id, &packet[start..end]) else {
        return Err(Refusal::OtherId);
    };
    let Check::Passed = check_same_password(password, &packet[places.password..places.function])
    else {
        return Err(Refusal::OtherPassword);
    };
    kinds::read_block::<Responses>(packet, places)
}

// Judges a response to a request that asked for `id` and sent `password`.
#[tactic(auto, unfolding(crate::specs::Response::read_refusal, crate::specs::Response::read_refusals, framing::specs::Refusal::first_refusal))]
pub fn read(packet: &[u8], id: &[u8], password: &[u8]) -> Result<Block, Refusal>
    ensures { result ≡ response_of (read_call packet.now id.now password.now) }
{
    let Check::Passed = super::check_id(id) else {
        return Err(Refusal::ExpectedId);
    };
    let Check::Passed = super::check_password(password) else {
        return Err(Refusal::BadPassword);
    };
    let places = framing::read(packet)?;
    read_frame(packet, places, id, password)
}

// Judges a response of which ID and password are taken as they are.
#[tactic(auto, unfolding(crate::specs::Response::any_response_refusal, crate::specs::Response::any_response_refusals, crate::specs::Response::response_refusals))]
pub fn read_any(packet: &[u8]) -> Result<Block, Refusal>
    ensures { result ≡ any_response_of packet.now }
{
    kinds::read_any::<Responses>(packet)
}
