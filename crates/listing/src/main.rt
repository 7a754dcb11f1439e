// Lists one response: a packet on standard input, its listing on standard output.
#![tactic(auto)]

use std::io;
use std::io::Stdout;

// Writes the listing of a packet.
fn list(to: Stdout, packet: &[u8]) -> io::Result<()> {
    // The longest listing.
    let mut text = [0u8; 1753];
    let Some(length) = tool::listing::list(&mut text, packet) else {
        return Ok(());
    };
    to.write_all(octets::first_bytes(&text, length))
}

fn main(rt: HostRuntime) -> io::Result<()> {
    // One byte more than the longest packet, so that a longer input is refused by its length.
    let mut packet = [0u8; framing::LONGEST_PACKET + 1];
    let mut stdin = rt.stdin();
    let count = input::fill_until(&mut stdin, &mut packet, framing::LONGEST_PACKET + 1)?;
    list(rt.stdout(), octets::first_bytes(&packet, count))
}
