// Sums up one capture: a capture of any size on standard input, its summary on standard output.
#![tactic(auto)]

mod stream;

use std::io;
use std::process::ExitCode;

// Says on standard error what failed.
fn failed(rt: &HostRuntime, what: &str, error: io::Error) -> ExitCode {
    let _ = rt.eprintln(format_args!("summary: {what}: {error}"));
    ExitCode::FAILURE
}

// Sums up the capture on standard input. Counts, window and text are lent.
fn sum_up(rt: &HostRuntime, pairs: &mut [u64], window: &mut [u8], text: &mut [u8]) -> ExitCode {
    let mut stdin = rt.stdin();
    let refusal = match stream::count(&mut stdin, pairs, window) {
        Ok(refusal) => refusal,
        Err(error) => return failed(rt, "standard input", error),
    };
    let number = refusals::number_or_zero(refusal);
    let Some(length) = summing::write(text, pairs, number) else {
        return ExitCode::SUCCESS;
    };
    match rt.stdout().write_all(octets::first_bytes(text, length)) {
        Ok(()) => ExitCode::SUCCESS,
        Err(error) => failed(rt, "standard output", error),
    }
}

fn main(rt: HostRuntime) -> ExitCode {
    let mut window = [0u8; 65536];
    let mut pairs = [0u64; captures::BOARD_LIMIT * counts::counting::NUMBERS];
    let mut text = [0u8; summing::LONGEST_TEXT];
    sum_up(&rt, &mut pairs, &mut window, &mut text)
}
