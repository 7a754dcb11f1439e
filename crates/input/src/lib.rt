// Reads standard input into a window.
#![tactic(auto)]

ghost use Rattle.input.specs.Filling.{Fills};

use std::io;
use std::io::Read;

// Reads once behind the first `held` bytes of the window, which stay, and says how many bytes the window holds then. What is read is
// not known.
pub fn fill<R: Read>(input: &mut R, window: &mut [u8], held: usize) -> io::Result<usize>
    ensures { Fills held window.old result window.new }
{
    if window.len() < held {
        return Ok(held);
    }
    let got = input.read(&mut window[held..])?;
    Ok(held + got)
}

// Reads until the window holds so many bytes, or is full, or the input ends, and says how many bytes it holds then.
pub fn fill_until<R: Read>(input: &mut R, window: &mut [u8], wanted: usize) -> io::Result<usize>
    ensures { Fills 0 window.old result window.new }
{
    let mut held: usize = 0;
    while held < wanted {
        let filled = fill(input, window, held)?;
        if filled <= held {
            return Ok(held);
        }
        held = filled;
    }
    Ok(held)
}
