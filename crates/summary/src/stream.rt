// Counts the records of a capture that is read from standard input through a window.
use captures::reading::Head;
use refusals::Refusal;
use std::io;
use std::io::Stdin;

// Counts the records that stand in the window behind the head, up to `filled`, and then those that are read behind the bytes that are left.
// Says the refusal of the capture. Nothing says that the input ends, so the turns are counted.
fn count_records(
    stdin: &mut Stdin,
    pairs: &mut [u64],
    window: &mut [u8],
    head: Head,
    filled: usize,
) -> io::Result<Option<Refusal>> {
    let mut start = head.records;
    let mut end = filled;
    for _ in 0..u64::MAX {
        let ending = counts::window::count_window(
            pairs,
            window,
            start,
            end,
            head.version,
            head.boards,
        );
        let Ok(left) = ending else {
            return Ok(counts::counting::refusal_at_end(ending));
        };
        let until = input::fill(stdin, window, left)?;
        if until <= left {
            return Ok(counts::counting::refusal_at_end(ending));
        }
        start = 0;
        end = until;
    }
    Err(io::Error::from(io::ErrorKind::Other))
}

// Counts the records of the capture on standard input, and says its refusal.
pub(crate) fn count(
    stdin: &mut Stdin,
    pairs: &mut [u64],
    window: &mut [u8],
) -> io::Result<Option<Refusal>> {
    let filled = input::fill_until(stdin, window, captures::LONGEST_HEAD)?;
    match captures::reading::open(octets::first_bytes(window, filled)) {
        Ok(head) => count_records(stdin, pairs, window, head, filled),
        Err(refusal) => Ok(Some(refusal)),
    }
}
