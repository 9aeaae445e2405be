// Answers wait in a buffer, which is written when it is full and before more input is read.
ghost use Rattle.std.specs.Prelude.{◌<◌, ◌≤◌};

// The numbers that the system gives standard output and standard error.
const STDOUT: i32 = 1;

pub(crate) const STDERR: i32 = 2;

// The elements of a list, and the bytes in hex, that are put at once.
const RUN: usize = 64;

// The answers that wait, so many bytes of a buffer, and whether every read and every write so far went well.
#[derive(Drop)]
pub(crate) struct Output<'a> {
    buffer: &'a mut [u8],
    waiting: usize,
    is_good: bool,
}

impl<'a> Output<'a> {
    // Nothing waits.
    pub(crate) fn new(buffer: &'a mut [u8]) -> Self {
        Output {
            buffer,
            waiting: 0,
            is_good: true,
        }
    }

    // The exit status, after the last answers are written.
    pub(crate) fn status(&mut self) -> u32
        ensures { result ≤ 1 }
    {
        if self.flush() { 0 } else { 1 }
    }

    // Writes what waits, and answers whether every read and every write so far went well.
    pub(crate) fn flush(&mut self) -> bool {
        let n = self.waiting.min(self.buffer.len());
        self.is_good = self.is_good && write(&self.buffer[..n]);
        self.waiting = 0;
        self.is_good
    }

    // A read has failed: nothing more is written.
    pub(crate) fn fail(&mut self) {
        self.is_good = false;
    }

    // Bytes as they are. Those that wait are written first, if there is no place behind them; more than the buffer holds are written too.
    pub(crate) fn bytes(&mut self, s: &[u8]) {
        if self.place() < s.len() {
            self.flush();
        }
        let at = self.waiting.min(self.buffer.len());
        if self.buffer.len() - at < s.len() {
            self.is_good = self.is_good && write(s);
            return;
        }
        let end = at + s.len();
        self.buffer[at..end].copy_from_slice(s);
        self.waiting = end;
    }

    // How many bytes there is place for behind those that wait.
    fn place(&self) -> usize {
        self.buffer.len() - self.waiting.min(self.buffer.len())
    }

    // A byte.
    pub(crate) fn byte(&mut self, b: u8) {
        self.bytes(&[b]);
    }

    // Writes what waits, unless there is place behind it for a run of any list: no element has more than 42 bytes.
    fn make_place(&mut self) {
        if self.place() < 42 * RUN {
            self.flush();
        }
    }

    // A number with a space before it.
    pub(crate) fn number(&mut self, n: u64) {
        self.make_place();
        self.waiting = spaced(self.buffer, self.waiting, b' ', n);
    }

    // The double with these bits, in 16 hex digits with a space before them.
    pub(crate) fn double(&mut self, bits: u64) {
        self.make_place();
        let at = mark(self.buffer, self.waiting, b' ');
        self.waiting = digits_of_bits(self.buffer, at, bits);
    }

    // The elements of a list, each put at a place of the buffer by a function that answers where it ends.
    pub(crate) fn runs<T: Copy, F: Fn(&mut [u8], usize, T) -> usize>(&mut self, list: &[T], put: F)
        requires { F.IsAlwaysCallable put }
    {
        for run in list.chunks(RUN) {
            self.make_place();
            let mut at = self.waiting;
            for x in run {
                at = put(self.buffer, at, *x);
            }
            self.waiting = at;
        }
    }

    // Masks, each with its count behind a colon.
    pub(crate) fn counted(&mut self, masks: &[u64], counts: &[u32]) {
        for (masks, counts) in masks.chunks(RUN).zip(counts.chunks(RUN)) {
            self.make_place();
            let mut at = self.waiting;
            for (mask, count) in masks.iter().zip(counts) {
                at = spaced(self.buffer, at, b' ', *mask);
                at = spaced(self.buffer, at, b':', u64::from(*count));
            }
            self.waiting = at;
        }
    }

    // Bytes in lower-case hex, `-` for none.
    pub(crate) fn hex(&mut self, s: &[u8]) {
        if s.is_empty() {
            self.byte(b'-');
            return;
        }
        self.runs(s, hex_byte);
    }
}

// Writes bytes to standard output, and answers whether that went well. A write that fails is told once on standard error, so that answers
// cut short do not pass for whole.
fn write(s: &[u8]) -> bool {
    if io::write_all(STDOUT, s) {
        return true;
    }
    io::write_all(STDERR, b"treecalls: writing failed\n");
    false
}

// Puts 64 bits in hex at `at`, the highest digit first, what there is place for, and answers where they end.
fn digits_of_bits(out: &mut [u8], at: usize, bits: u64) -> usize {
    let mut place = at;
    let mut rest = bits;
    for _ in 0..16 {
        place = mark(out, place, glyph((rest >> 60) as u8));
        rest <<= 4;
    }
    place
}

// Puts a byte at `at`, if there is place for it, and answers where it ends.
pub(crate) fn mark(out: &mut [u8], at: usize, b: u8) -> usize {
    if at < out.len() {
        out[at] = b;
        return at + 1;
    }
    at
}

// Puts a mark and a number behind it at `at`, if there is place for the longest, and answers where they end.
pub(crate) fn spaced(out: &mut [u8], at: usize, mark: u8, n: u64) -> usize {
    let place = at.min(out.len());
    if out.len() - place < 21 {
        return at;
    }
    let end = place + 1 + digits_of(n);
    out[place] = mark;
    digits(&mut out[place + 1..end], n);
    end
}

// How many decimal digits a number has.
fn digits_of(n: u64) -> usize
    ensures { result ≤ 20 }
{
    let mut rest = n;
    for k in 1..20 {
        if rest < 10 {
            return k;
        }
        rest /= 10;
    }
    20
}

// Puts the last decimal digits of a number, as many as there is place for.
fn digits(out: &mut [u8], n: u64) {
    let mut rest = n;
    for digit in out.iter_mut().rev() {
        *digit = b'0' + (rest % 10) as u8;
        rest /= 10;
    }
}

// Puts a byte in hex at `at`, its high digit first, if there is place for it, and answers where it ends.
fn hex_byte(out: &mut [u8], at: usize, b: u8) -> usize {
    let high = mark(out, at, glyph(b / 16));
    mark(out, high, glyph(b % 16))
}

// A hex digit.
fn glyph(d: u8) -> u8
    requires { d < 16 }
{
    if d < 10 { b'0' + d } else { b'a' - 10 + d }
}
