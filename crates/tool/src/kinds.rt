// Reads a packet of one kind, request or response: one reader for both, which knows the kind by its two checks.
ghost use Rattle.std.specs.Prelude.{◌≡◌, ℕ, Bool, List};
ghost use Rattle.framing.specs.Packet.{places_of, frame_of};
ghost use Rattle.framing.specs.Refusal.{first_refusal, checked};
ghost use Rattle.framing.specs.Statements.{Stands};
ghost use Rattle.tool.specs.Kinds.{kind_refusals, any_kind_refusal};
ghost use Rattle.tool.specs.Response.{response_as};

use super::response::Block;
use framing::{Check, Places};
use refusals::Refusal;

// What a packet of a kind must be, beside what every packet must be.
pub trait Kind {
    ghost wrong_function: { ℕ → Bool };

    ghost wrong_block: { ℕ → List ℕ → Bool };

    // `NoFunction`.
    fn check_function(function: u8) -> Check
        ensures { result ≡ checked (wrong_function function) };

    // `MalformedBlock`.
    fn check_block(function: u8, block: &[u8]) -> Check
        ensures { result ≡ checked (wrong_block function block.now) };
}

// `NoFunction` and `MalformedBlock`, of a packet that `framing::read` takes apart.
#[tactic(auto, using(framing::proofs::Answers::function_found, framing::proofs::Answers::block_found), unfolding(framing::specs::Refusal::first_refusal))]
pub(crate) fn read_block<K: Kind>(packet: &[u8], places: Places) -> Result<Block, Refusal>
    requires { Stands packet.now places }
    ensures { result ≡ response_as (first_refusal (kind_refusals K.wrong_function K.wrong_block) (frame_of packet.now)) (places_of packet.now) }
{
    let function = packet[places.function];
    let Check::Passed = K::check_function(function) else {
        return Err(Refusal::NoFunction);
    };
    let Check::Passed = K::check_block(function, &packet[places.block..places.end]) else {
        return Err(Refusal::MalformedBlock);
    };
    Ok(Block {
        block: places.block,
        end: places.end,
    })
}

// Judges a packet of which ID and password are taken as they are.
pub fn read_any<K: Kind>(packet: &[u8]) -> Result<Block, Refusal>
    ensures { result ≡ response_as (any_kind_refusal K.wrong_function K.wrong_block packet.now) (places_of packet.now) }
{
    let places = framing::read(packet)?;
    read_block::<K>(packet, places)
}
