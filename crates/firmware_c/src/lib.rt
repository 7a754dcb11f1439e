// The calls of include/udgornwy.h on packets, boards and the tool, as a static library for programs in other languages.
#![tactic(auto)]

ghost use Rattle.std.specs.Prelude.{◌≡◌};
ghost use Rattle.firmware.specs.Client.{WritesInNumbers, ListsInNumbers};
ghost use Rattle.firmware.specs.Controller.{Replies, set_up_result, measure_result};
ghost use Rattle.firmware.specs.Packet.{parts_of};
ghost use Rattle.framing.specs.Packet.{parsed_of};
ghost use Rattle.model.specs.Measurement.{measure_call};
ghost use Rattle.model.specs.Record.{set_up};
ghost use Rattle.model.specs.Step.{call};
ghost use Rattle.refusals.specs.Refusals.{number_in};
ghost use Rattle.tool.specs.Listing.{listing};
ghost use Rattle.tool.specs.Request.{write_call};
ghost use Rattle.tool.specs.Response.{response_of, read_call};

use firmware::Reply;
use firmware::controller::CallResult;
use firmware::packet::Parts;
use model::Board;

// Takes a packet of any length apart, as `udgornwy_packet`, `udgornwy_read` and `udgornwy_list` do.
#[unsafe(no_mangle)]
pub extern "C" fn udgornwy_parse(packet: &[u8]) -> Parts
    ensures { result ≡ parts_of (parsed_of packet.now) }
{
    firmware::packet::udgornwy_parse(packet)
}

// Lets a packet change the lent record: the packet step on it, and what comes back is stored there.
#[unsafe(no_mangle)]
pub extern "C" fn udgornwy_packet(board: &mut Board, packet: &[u8], response: &mut [u8]) -> Reply
    ensures { Replies (call board.old packet.now response.old) board.new result response.new }
{
    firmware::controller::udgornwy_packet(board, packet, response)
}

// Sets a board up.
#[unsafe(no_mangle)]
pub extern "C" fn udgornwy_set_up(id: &[u8], password: &[u8], mode: u8, unit: u8) -> CallResult
    ensures { result ≡ set_up_result (set_up id.now password.now mode unit) }
{
    firmware::controller::udgornwy_set_up(id, password, mode, unit)
}

// Stores a measured value in its read-only row.
#[unsafe(no_mangle)]
pub extern "C" fn udgornwy_measure(board: Board, number: u16, value: &[u8]) -> CallResult
    ensures { result ≡ measure_result (measure_call board number value.now) }
{
    firmware::controller::udgornwy_measure(board, number, value)
}

// Writes the request packet of a command list into the first bytes of `buffer`, as `request::write`.
#[unsafe(no_mangle)]
pub extern "C" fn udgornwy_write(
    buffer: &mut [u8],
    id: &[u8],
    password: &[u8],
    functions: &[u8],
    numbers: &[u16],
    lengths: &[u16],
    values: &[u8],
) -> Reply
    ensures { WritesInNumbers (write_call buffer.old id.now password.now functions.now numbers.now lengths.now values.now) result buffer.new }
{
    firmware::client::udgornwy_write(buffer, id, password, functions, numbers, lengths, values)
}

// Judges a response to a request that asked for `id` and sent `password`: the number of the refusal, 0 where there is none.
#[unsafe(no_mangle)]
pub extern "C" fn udgornwy_read(packet: &[u8], id: &[u8], password: &[u8]) -> u16
    ensures { result ≡ number_in (response_of (read_call packet.now id.now password.now)) }
{
    firmware::client::udgornwy_read(packet, id, password)
}

// Lists a response in the first bytes of `text`. Refusal 1: the listing does not fit.
#[unsafe(no_mangle)]
pub extern "C" fn udgornwy_list(text: &mut [u8], packet: &[u8]) -> Reply
    ensures { ListsInNumbers (listing packet.now) text.old result text.new }
{
    firmware::client::udgornwy_list(text, packet)
}
