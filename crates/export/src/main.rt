// Exports one capture: a capture of any size on standard input, its table on standard output, and behind it how many responses are
// refused and the refusal of the capture, if there is one.
#![tactic(auto)]

mod stream;

use std::io;
use std::process::ExitCode;
use stream::{Ended, StreamError};

// The window holds the longest head.
const WINDOW: usize = 16384;

// Says on standard error what failed.
fn failed(rt: &HostRuntime, what: &str, error: io::Error) -> ExitCode {
    let _ = rt.eprintln(format_args!("export: {what}: {error}"));
    ExitCode::FAILURE
}

// Writes the lines behind the table.
fn end_table(rt: &HostRuntime, ended: Ended) -> ExitCode {
    let lines = tables::last_lines(ended.refused, refusals::number_or_zero(ended.capture));
    match rt
        .stdout()
        .write_all(octets::first_bytes(&lines.bytes, lines.size))
    {
        Ok(()) => ExitCode::SUCCESS,
        Err(error) => failed(rt, "standard output", error),
    }
}

// Exports the capture on standard input. Text, window and room for the IDs are lent.
fn export(rt: &HostRuntime, text: &mut [u8], window: &mut [u8], ids: &mut [u8]) -> ExitCode {
    let mut stdin = rt.stdin();
    match stream::write_table(&mut stdin, rt.stdout(), text, window, ids) {
        Ok(ended) => end_table(rt, ended),
        Err(StreamError::Read(error)) => failed(rt, "standard input", error),
        Err(StreamError::Write(error)) => failed(rt, "standard output", error),
    }
}

fn main(rt: HostRuntime) -> ExitCode {
    let mut text = [0u8; 40 * WINDOW];
    let mut window = [0u8; WINDOW];
    let mut ids = [0u8; framing::ID_SIZE * captures::BOARD_LIMIT];
    export(&rt, &mut text, &mut window, &mut ids)
}
