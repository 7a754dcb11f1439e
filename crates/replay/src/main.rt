// Replays a list of calls from standard input on one board, and writes a line for each to standard output.
#![tactic(auto)]

mod board_calls;
mod calls;
mod capture_calls;
mod fields;
mod hex;
mod lines;
mod output;
mod record_calls;
mod schedule_entries;
mod table_calls;
mod tool_calls;

use output::Output;

fn main(rt: HostRuntime) {
    // Room for a line and its end, for the text of the answers, and for the bytes that a line gives.
    let mut window = [0u8; lines::LONGEST + 1];
    let mut text = [0u8; output::ROOM];
    let mut room = [0u8; hex::MOST];
    let mut out = Output::new(rt.stdout(), &mut text);
    lines::replay(&mut rt.stdin(), &mut window, &mut room, &mut out);
}
