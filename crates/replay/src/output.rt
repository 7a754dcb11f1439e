// The text of the answers.
use refusals::Refusal;
use std::fmt;
use std::fmt::Write as _;
use std::io::{Stdout, Write as _};

// How long the text is: longer than any bytes that are put at once, of which a value of a table has most, 510.
pub(crate) const ROOM: usize = 65536;

// What each byte of a lent buffer is before the call.
pub(crate) const FILLER: u8 = 0xA5;

// The answers that are not written out yet, in the first bytes of a text. An answer may be longer than the text, as that of a table is.
#[derive(Drop)]
pub(crate) struct Output<'a> {
    out: Stdout,
    text: &'a mut [u8],
    end: usize,
}

impl fmt::Write for Output<'_> {
    fn write_str(&mut self, text: &str) -> fmt::Result {
        self.put(text.as_bytes());
        Ok(())
    }
}

impl<'a> Output<'a> {
    pub(crate) fn new(out: Stdout, text: &'a mut [u8]) -> Output<'a> {
        Output { out, text, end: 0 }
    }

    // Writes out what was put. What cannot be written is passed over.
    pub(crate) fn flush(&mut self) {
        let out = self.out;
        let end = self.end;
        let _ = (&out).write_all(octets::first_bytes(self.text, end));
        self.end = 0;
    }

    // Puts bytes behind the text. Where it has no room for them, what was put before is written out first.
    pub(crate) fn put(&mut self, bytes: &[u8]) {
        if self.text.len().saturating_sub(self.end) < bytes.len() {
            self.flush();
        }
        let end = self.end;
        if octets::overwrite(self.text, end, bytes) {
            self.end = end.saturating_add(bytes.len());
        }
    }

    // Puts bytes as pairs of digits. Where there is no room for all of them, each pair is put by itself.
    fn put_pairs(&mut self, bytes: &[u8]) {
        let end = self.end;
        let until = end.saturating_add(bytes.len().saturating_mul(2));
        if let Some(pairs) = self.text.get_mut(end..until) {
            for (pair, byte) in pairs.chunks_exact_mut(2).zip(bytes) {
                pair.copy_from_slice(&pair_of(*byte));
            }
            self.end = until;
            return;
        }
        for byte in bytes {
            self.put(&pair_of(*byte));
        }
    }

    // Puts any number of bytes as pairs of digits, so many at a time that a long text has room for most of them at once.
    pub(crate) fn put_hex(&mut self, bytes: &[u8]) {
        for part in bytes.chunks(256) {
            self.put_pairs(part);
        }
    }

    // The same, but `-` for no bytes.
    pub(crate) fn put_field(&mut self, bytes: &[u8]) {
        if bytes.is_empty() {
            self.put(b"-");
        }
        self.put_hex(bytes);
    }

    pub(crate) fn put_refused(&mut self, refusal: Refusal) {
        let _ = write!(self, "refused {}", refusal.number());
    }

    // The refusal of what was read up to there.
    pub(crate) fn put_ending(&mut self, refusal: Refusal) {
        self.put(b" ");
        self.put_refused(refusal);
    }

    // The number of a parameter, before its value.
    pub(crate) fn put_number(&mut self, page: u8, low: u8) {
        self.put_hex(&[page, low]);
        self.put(b"=");
    }

    // A parameter and its value.
    pub(crate) fn put_held(&mut self, page: u8, low: u8, value: &[u8]) {
        self.put(b" ");
        self.put_number(page, low);
        self.put_field(value);
    }

    pub(crate) fn put_unknown(&mut self, page: u8, low: u8) {
        self.put(b" ");
        self.put_number(page, low);
        self.put(b"unknown");
    }

    // The lines of a text, joined by vertical bars, or `-` for no line; the last line's end is left out.
    pub(crate) fn put_joined(&mut self, lines: &[u8]) {
        let Some(size) = lines.len().checked_sub(1) else {
            self.put(b"-");
            return;
        };
        for byte in octets::first_bytes(lines, size) {
            self.put(&[if *byte == b'\n' { b'|' } else { *byte }]);
        }
    }

    // A mark where a call changed a buffer outside the length it gave back.
    pub(crate) fn put_dirty(&mut self, rest: &[u8]) {
        if !is_clean(rest) {
            self.put(b" dirty");
        }
    }

    // The refusal of a call to which a buffer was lent.
    pub(crate) fn put_refusal(&mut self, refusal: Refusal, buffer: &[u8]) {
        self.put_refused(refusal);
        self.put_dirty(buffer);
    }

    // What a call wrote into the first bytes of a lent buffer, behind its name.
    pub(crate) fn put_written(&mut self, name: &[u8], buffer: &[u8], length: usize) {
        self.put(name);
        self.put_hex(octets::first_bytes(buffer, length));
        self.put_dirty(octets::bytes_after(buffer, length));
    }

    // The answer of a call that writes into a lent buffer.
    pub(crate) fn put_answer(
        &mut self,
        name: &[u8],
        answer: Result<usize, Refusal>,
        buffer: &[u8],
    ) {
        match answer {
            Ok(length) => self.put_written(name, buffer, length),
            Err(refusal) => self.put_refusal(refusal, buffer),
        }
    }
}

const DIGITS: [u8; 16] = *b"0123456789ABCDEF";

// The two digits of a byte.
fn pair_of(byte: u8) -> [u8; 2] {
    [
        DIGITS[usize::from(byte / 16)],
        DIGITS[usize::from(byte % 16)],
    ]
}

// Whether each byte is the filler. Every byte is looked at, which is faster than to stop at the first that is not.
fn is_clean(bytes: &[u8]) -> bool {
    let mut clean = true;
    for byte in bytes {
        clean &= *byte == FILLER;
    }
    clean
}
