// Judges a packet of a capture.
ghost use Rattle.std.specs.Prelude.{◌≡◌};
ghost use Rattle.block.specs.Request.{no_function, no_commands};
ghost use Rattle.framing.specs.Refusal.{in_code};
ghost use Rattle.counts.specs.Judging.{judged};

use framing::Check;
use refusals::Refusal;
use tool::kinds::Kind;

// The packets that the tool sends.
struct Requests;

impl Kind for Requests {
    ghost wrong_function = { no_function };

    ghost wrong_block = { no_commands };

    fn check_function(function: u8) -> Check {
        framing::passed_if((1..=5).contains(&function))
    }

    fn check_block(function: u8, block: &[u8]) -> Check {
        framing::passed_if(block::request::well_formed(block, function))
    }
}

// Why a packet is refused, if it is: direction 1 is a response, any other a request.
#[tactic(auto, using(crate::proofs::Judged::why_refused), unfolding(crate::specs::Judging::judged, crate::specs::Judging::any_request_refusal, crate::specs::Judging::any_request_refusals, crate::specs::Judging::request_refusals))]
pub fn judge(direction: u8, packet: &[u8]) -> Option<Refusal>
    ensures { result ≡ in_code (judged direction packet.now) }
{
    if direction == 1 {
        return tool::response::read_any(packet).err();
    }
    tool::kinds::read_any::<Requests>(packet).err()
}
