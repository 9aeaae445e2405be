// Lines to be written wait in a buffer, which is written when it is full and at the end.
ghost use Rattle.std.specs.Prelude.{◌≡◌, ◌≤◌};

// Standard output and standard error.
pub const STDOUT_FILENO: i32 = 1;

pub const STDERR_FILENO: i32 = 2;

// How many bytes may wait.
const ROOM: usize = 512;

// How many bytes wait, which they are, for which descriptor, and whether every write so far went well.
#[derive(Clone, Copy)]
pub struct Waiting {
    pub fd: i32,
    pub bytes: usize,
    pub is_good: bool,
    text: [u8; ROOM],
}

// Nothing waits for this descriptor.
pub fn nothing_waits(fd: i32) -> Waiting
    ensures { (result.fd ≡ fd) × (result.bytes ≡ 0) }
{
    empty(fd)
}

// Bytes as they are.
pub fn put(out: &mut Waiting, s: &[u8])
    ensures fd_value { out.new.fd ≡ out.old.fd }
    ensures bytes_in_bounds { out.new.bytes ≤ 512 }
{
    add(out, s);
}

// A number in decimal digits, and a word behind it.
pub fn put_counted(out: &mut Waiting, n: u64, word: &[u8])
    ensures fd_value { out.new.fd ≡ out.old.fd }
    ensures bytes_in_bounds { out.new.bytes ≤ 512 }
{
    add_number(out, n);
    add(out, word);
}

// Writes what waits, and answers whether every write went well.
pub fn flush(out: &mut Waiting) -> bool
    ensures { (out.new.fd ≡ out.old.fd) × (out.new.bytes ≡ 0) }
{
    write_waiting(out);
    out.bytes = 0;
    out.is_good
}

// The same as `nothing_waits`, for the functions of this crate.
pub(crate) fn empty(fd: i32) -> Waiting
    ensures { (result.fd ≡ fd) × (result.bytes ≡ 0) }
{
    Waiting {
        fd,
        bytes: 0,
        is_good: true,
        text: [0; ROOM],
    }
}

// Bytes as they are, which wait behind those that do.
pub(crate) fn add(out: &mut Waiting, s: &[u8])
    ensures fd_value { out.new.fd ≡ out.old.fd }
    ensures bytes_in_bounds { out.new.bytes ≤ 512 }
{
    let at = out.bytes.min(ROOM);
    if ROOM - at < s.len() {
        add_first(out, s);
        return;
    }
    out.text[at..at + s.len()].copy_from_slice(s);
    out.bytes = at + s.len();
}

// The same, after those that wait are written; more than there is room for are written too.
fn add_first(out: &mut Waiting, s: &[u8])
    ensures fd_value { out.new.fd ≡ out.old.fd }
    ensures bytes_in_bounds { out.new.bytes ≤ 512 }
{
    write_waiting(out);
    out.bytes = if ROOM < s.len() {
        out.is_good = out.is_good && io::write_all(out.fd, s);
        0
    } else {
        out.text[..s.len()].copy_from_slice(s);
        s.len()
    };
}

// A number in decimal digits.
pub(crate) fn add_number(out: &mut Waiting, n: u64)
    ensures fd_value { out.new.fd ≡ out.old.fd }
    ensures bytes_in_bounds { out.new.bytes ≤ 512 }
{
    let mut text = [0u8; 20];
    let k = io::decimal(n, &mut text);
    add(out, &text[..k]);
}

// Writes what waits, unless a write has failed. It waits still.
pub(crate) fn write_waiting(out: &mut Waiting)
    ensures { (out.new.fd ≡ out.old.fd) × (out.new.bytes ≡ out.old.bytes) }
{
    let n = out.bytes.min(ROOM);
    out.is_good = out.is_good && io::write_all(out.fd, &out.text[..n]);
}
