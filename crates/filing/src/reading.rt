// Files, read into a lent buffer: whole, or by pieces.
ghost use Rattle.std.specs.Prelude.{◌≡◌, ◌≤◌, length, IfSome};
ghost use Rattle.std.specs.Io.{ReadsAtMost};
ghost use Rattle.io.specs.Counts.{IsPrefixLen};

use crate::failing;
use crate::waiting::STDERR_FILENO;
use std::env::FillError;
use std::fs;
use std::io::{Error, Read};
use std::rt::{Env, Files};

// What is read: standard input, or a file.
#[derive(Drop)]
pub enum Source<F> {
    Input,
    File(F),
}

// A file that is being read: how many bytes of it the buffer holds, and where what follows is read from. One that has ended is closed, and
// nothing follows.
#[derive(Drop)]
pub struct Held<F> {
    pub bytes: usize,
    pub source: Option<Source<F>>,
}

// The system's numbers of an argument that is missing, of one that is too long, and of a name that is no text.
const MISSING: i32 = 22;

const TOO_LONG: i32 = 36;

const NO_TEXT: i32 = 84;

// Puts argument i, the name of a file, at the front of buf, and answers how many bytes it has; none, where it cannot be had, as is told.
pub fn name_at(rt: &impl Env, program: &[u8], i: usize, buf: &mut [u8]) -> Option<usize>
    ensures { IfSome result (λ n. IsPrefixLen n buf.new) }
{
    path_at(rt, program, i, buf)
}

// Reads the file that argument i names, whole; standard input where it is `-`, if that may be. Answers how many bytes the file has; none,
// where it cannot be read, as is told.
pub fn read_file<R: Env + Files + Input>(
    rt: &R,
    program: &[u8],
    i: usize,
    may_be_input: bool,
    buf: &mut [u8],
) -> Option<usize>
    ensures { IfSome result (λ n. IsPrefixLen n buf.new) }
{
    let mut path = io::buffer();
    let n = path_at(rt, program, i, &mut path)?;
    read_named(rt, &path[..n], may_be_input, buf)
}

// Opens the file of this name, and fills the buffer with what it begins with. What cannot be read is told, here and below.
pub fn begin_file<R: Files + Input>(
    rt: &R,
    path: &[u8],
    may_be_input: bool,
    buf: &mut [u8],
) -> Option<Held<R::File>>
    ensures { IfSome result (λ held. IsPrefixLen held.bytes buf.new) }
{
    let begun = opened(rt, path, may_be_input)?;
    fill(rt, path, buf, begun)
}

// Fills the buffer with what follows in the file.
pub fn next_piece<R: Files + Input>(
    rt: &R,
    path: &[u8],
    buf: &mut [u8],
    before: Held<R::File>,
) -> Option<Held<R::File>>
    ensures { IfSome result (λ held. IsPrefixLen held.bytes buf.new) }
{
    let mut held = before;
    held.bytes = 0;
    fill(rt, path, buf, held)
}

// Reads the rest of the file behind what the buffer holds, and answers how many bytes the file has. A file that fills the buffer is too long.
pub fn read_rest<R: Files + Input>(
    rt: &R,
    path: &[u8],
    buf: &mut [u8],
    before: Held<R::File>,
) -> Option<usize>
    ensures { IfSome result (λ n. IsPrefixLen n buf.new) }
{
    let held = fill(rt, path, buf, before)?;
    whole(path, held)
}

// The same as `name_at`, for the functions of this crate.
pub(crate) fn path_at(rt: &impl Env, program: &[u8], i: usize, buf: &mut [u8]) -> Option<usize>
    ensures { IfSome result (λ n. IsPrefixLen n buf.new) }
{
    match rt.arg(i, buf) {
        Ok(n) => Some(n),
        Err(e) => {
            tell_unnamed(program, e);
            None
        }
    }
}

// Tells that a name could not be had, by the system's number for it.
fn tell_unnamed(program: &[u8], e: FillError) {
    let code = match e {
        FillError::NotPresent => MISSING,
        FillError::TooLong => TOO_LONG,
    };
    io::write_all(STDERR_FILENO, program);
    failing::tell(b": a name", Error::from_raw_os_error(code));
}

// Reads the file of this name, whole.
pub(crate) fn read_named<R: Files + Input>(
    rt: &R,
    path: &[u8],
    may_be_input: bool,
    buf: &mut [u8],
) -> Option<usize>
    ensures { IfSome result (λ n. IsPrefixLen n buf.new) }
{
    let begun = opened(rt, path, may_be_input)?;
    let held = fill(rt, path, buf, begun)?;
    whole(path, held)
}

// How many bytes are held of a file, where that is all of it. A file that fills the buffer is too long, which is told.
fn whole<F: Drop>(path: &[u8], held: Held<F>) -> Option<usize>
    ensures { IfSome result (λ n. n ≡ held.bytes) }
{
    if held.source.is_none() {
        return Some(held.bytes);
    }
    io::write_all(STDERR_FILENO, path);
    io::write_all(STDERR_FILENO, b": too long\n");
    None
}

// Opens the file of this name, of which nothing is held yet. One that cannot be opened is told.
fn opened<R: Files>(rt: &R, path: &[u8], may_be_input: bool) -> Option<Held<R::File>> {
    match source_of(rt, path, may_be_input) {
        Ok(source) => Some(Held {
            bytes: 0,
            source: Some(source),
        }),
        Err(e) => {
            failing::tell(path, e);
            None
        }
    }
}

// Where the file of this name is read from, opened.
fn source_of<R: Files>(
    rt: &R,
    path: &[u8],
    may_be_input: bool,
) -> std::io::Result<Source<R::File>> {
    if may_be_input && path == b"-".as_slice() {
        return Ok(Source::Input);
    }
    Ok(Source::File(fs::open(rt, text_of(path)?)?))
}

// A name as text: std opens no file with another one.
fn text_of(path: &[u8]) -> std::io::Result<&str> {
    std::str::from_utf8(path).map_err(|_| Error::from_raw_os_error(NO_TEXT))
}

// Fills the buffer behind what it holds, up to the file's end. The turns are so many that no run uses them up.
fn fill<R: Files + Input>(
    rt: &R,
    path: &[u8],
    buf: &mut [u8],
    before: Held<R::File>,
) -> Option<Held<R::File>>
    ensures { IfSome result (λ held. IsPrefixLen held.bytes buf.new) }
{
    let mut held = before;
    held.bytes = held.bytes.min(buf.len());
    for _ in 0..u64::MAX {
        if held.source.is_none() || held.bytes == buf.len() {
            break;
        }
        held = read_more(rt, path, buf, held)?;
    }
    Some(held)
}

// Reads once, behind what the buffer holds, and closes a file that has ended; standard input may be named again, and has ended then.
fn read_more<R: Files + Input>(
    rt: &R,
    path: &[u8],
    buf: &mut [u8],
    before: Held<R::File>,
) -> Option<Held<R::File>>
    requires { before.bytes ≤ length buf.old }
    ensures { IfSome result (λ held. held.bytes ≤ length buf.new) }
{
    let at = before.bytes;
    let mut source = before.source;
    match read(rt, &mut source, &mut buf[at..]) {
        Ok(0) => Some(Held {
            bytes: at,
            source: None,
        }),
        Ok(n) => Some(Held {
            bytes: at + n,
            source,
        }),
        Err(e) => {
            failing::tell(path, e);
            None
        }
    }
}

// Reads once into buf, and answers how many bytes that gave.
fn read<R: Files + Input>(
    rt: &R,
    source: &mut Option<Source<R::File>>,
    buf: &mut [u8],
) -> std::io::Result<usize>
    ensures { ReadsAtMost result buf.new }
{
    match source {
        None => Ok(0),
        Some(Source::Input) => rt.reader().read(buf),
        Some(Source::File(file)) => file.read(buf),
    }
}
