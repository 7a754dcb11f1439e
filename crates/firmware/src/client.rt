// The tool's calls for programs in other languages: answers are numbers.
ghost use Rattle.std.specs.Prelude.{◌≡◌};
ghost use Rattle.refusals.specs.Refusals.{number_in};
ghost use Rattle.firmware.specs.Client.{WritesInNumbers, ListsInNumbers, written_reply};
ghost use Rattle.tool.specs.Listing.{listing};
ghost use Rattle.tool.specs.Request.{write_call};
ghost use Rattle.tool.specs.Response.{read_call, response_of};

use super::Reply;
use refusals::{Refusal, number_in};

impl From<Result<usize, Refusal>> for Reply {
    ghost from_gives = { λ answer reply. reply ≡ written_reply answer };

    fn from(answer: Result<usize, Refusal>) -> Reply {
        Reply {
            refusal: u16::from(number_in(answer)),
            length: answer.unwrap_or(0),
        }
    }
}

// Writes the request packet of a command list into the first bytes of `buffer`, as `request::write`.
pub fn udgornwy_write(
    buffer: &mut [u8],
    id: &[u8],
    password: &[u8],
    functions: &[u8],
    numbers: &[u16],
    lengths: &[u16],
    values: &[u8],
) -> Reply
    ensures { WritesInNumbers (write_call buffer.old id.now password.now functions.now numbers.now lengths.now values.now) result buffer.new }
{
    Reply::from(tool::request::write(buffer, id, password, functions, numbers, lengths, values))
}

// Judges a response to a request that asked for `id` and sent `password`: the number of the refusal, 0 where there is none.
pub fn udgornwy_read(packet: &[u8], id: &[u8], password: &[u8]) -> u16
    ensures { result ≡ number_in (response_of (read_call packet.now id.now password.now)) }
{
    u16::from(number_in(tool::response::read(packet, id, password)))
}

// Lists a response in the first bytes of `text`. Refusal 1: the listing does not fit.
pub fn udgornwy_list(text: &mut [u8], packet: &[u8]) -> Reply
    ensures { ListsInNumbers (listing packet.now) text.old result text.new }
{
    Reply::from(tool::listing::list(text, packet).ok_or(Refusal::ShortBuffer))
}
