// The lines of standard input, as their bytes come.
use crate::output::{Output, STDERR};
use std::io::{Read, Stdin};

// The most bytes that are read at once.
const CHUNK: usize = 65536;

// The bytes of the input that are read and not answered, from `from` up to `to` of a buffer; those before `seen` have no line's end.
#[derive(Drop)]
pub(crate) struct Input<'a> {
    buffer: &'a mut [u8],
    from: usize,
    seen: usize,
    to: usize,
    // Whether bytes of the first line were dropped because it is too long, and whether the input has ended.
    is_long: bool,
    has_ended: bool,
}

impl<'a> Input<'a> {
    // Nothing is read.
    pub(crate) fn new(buffer: &'a mut [u8]) -> Self {
        Input {
            buffer,
            from: 0,
            seen: 0,
            to: 0,
            is_long: false,
            has_ended: false,
        }
    }

    // The next line, if there is one and every read and write goes well. The turns are so many that no run uses them up.
    pub(crate) fn next_line(&mut self, stdin: Stdin, out: &mut Output) -> Option<&mut [u8]> {
        for _ in 0..u64::MAX {
            if let Some(end) = self.line_end() {
                return Some(self.line(end, end.saturating_add(1)));
            }
            if self.has_ended {
                return None;
            }
            if self.more(stdin, out)? == 0 {
                self.has_ended = true;
                return self.last_line();
            }
        }
        None
    }

    // Looks on for the end of the first line.
    fn line_end(&mut self) -> Option<usize> {
        let to = self.to.min(self.buffer.len());
        let seen = self.seen.min(to);
        self.seen = to;
        let end = self.buffer[seen..to].iter().position(|b| *b == b'\n')?;
        Some(seen + end)
    }

    // The first line, which ends at `end`; the next begins at `next`. One that is too long is empty, which is no call either.
    fn line(&mut self, end: usize, next: usize) -> &mut [u8] {
        let end = end.min(self.buffer.len());
        let from = if self.is_long {
            end
        } else {
            self.from.min(end)
        };
        self.from = next;
        self.seen = next;
        self.is_long = false;
        &mut self.buffer[from..end]
    }

    // What stands behind the last line's end is a line too.
    fn last_line(&mut self) -> Option<&mut [u8]> {
        let to = self.to;
        if !self.is_long && to <= self.from {
            return None;
        }
        Some(self.line(to, to))
    }

    // Writes the answers that wait, reads once, and answers how many bytes came: none at the end of the input.
    fn more(&mut self, mut stdin: Stdin, out: &mut Output) -> Option<usize> {
        if !out.flush() {
            return None;
        }
        self.make_place();
        let at = self.to.min(self.buffer.len());
        let to = at + CHUNK.min(self.buffer.len() - at);
        let Ok(n) = stdin.read(&mut self.buffer[at..to]) else {
            io::write_all(STDERR, b"treecalls: reading failed\n");
            out.fail();
            return None;
        };
        self.to = at.saturating_add(n);
        Some(n)
    }

    // Moves what is there of the line to the front, if that is nothing or fills the buffer up to its end. A line that fills all of the buffer
    // is too long, and its bytes are dropped.
    fn make_place(&mut self) {
        let to = self.to.min(self.buffer.len());
        let from = self.from.min(to);
        let mut n = to - from;
        if n > 0 {
            if to < self.buffer.len() {
                return;
            }
            if from == 0 {
                self.is_long = true;
                n = 0;
            }
        }
        fields::copy_within(self.buffer, from, 0, n);
        self.from = 0;
        self.seen = n;
        self.to = n;
    }
}
