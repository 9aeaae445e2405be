// A file that is written: first under another name beside it, so that it is never left half written.
ghost use Rattle.filing.specs.Saving.{SavedAs};

use crate::waiting::STDERR_FILENO;
use crate::{arguments, telling};
use answers::Refusal;
use std::fs;
use std::fs::OpenFile;
use std::io::Write;
use std::rt::{Env, Files};

// What stands behind the name while the file is written.
const PART: &[u8] = b".part";

// Writes the bytes that a call left in `file` to the file that argument i names, and answers whether that was done. What a call refused is
// told under the name `what`.
#[tactic(auto, unfolding(crate::specs::Saving::SavedAs))]
pub fn save_answer<R: Env + Files>(
    rt: &R,
    program: &[u8],
    i: usize,
    what: &[u8],
    answer: Result<usize, Refusal>,
    file: &[u8],
) -> bool
    ensures { SavedAs answer result }
{
    match answer {
        Ok(n) => {
            let k = n.min(file.len());
            save(rt, program, i, &file[..k])
        }
        Err(r) => {
            telling::tell(what, answers::refusal_number(r));
            false
        }
    }
}

// Writes the bytes to the file that argument i names, and answers whether that was done.
fn save<R: Env + Files>(rt: &R, program: &[u8], i: usize, bytes: &[u8]) -> bool {
    let mut path = io::buffer();
    let n = arguments::bytes_of(rt, i, &mut path);
    let is_saved = save_named(rt, &path[..n], bytes);
    if !is_saved {
        tell_failed(program, &path[..n]);
    }
    is_saved
}

// Tells that the file of this name could not be written.
fn tell_failed(program: &[u8], path: &[u8]) {
    io::write_all(STDERR_FILENO, program);
    io::write_all(STDERR_FILENO, b": writing ");
    io::write_all(STDERR_FILENO, path);
    io::write_all(STDERR_FILENO, b" failed\n");
}

// Writes the bytes to the file of this name. With what stands behind it a name has at most 4,095 bytes.
fn save_named<R: Files>(rt: &R, path: &[u8], bytes: &[u8]) -> bool {
    let n = path.len();
    if 4095 - PART.len() < n {
        return false;
    }
    let mut part = io::buffer();
    part[..n].copy_from_slice(path);
    part[n..n + PART.len()].copy_from_slice(PART);
    replace_named(rt, &part[..n + PART.len()], path, bytes)
}

// The same with the name of the file beside it. A name that is no UTF-8 cannot be written to.
fn replace_named<R: Files>(rt: &R, part: &[u8], path: &[u8], bytes: &[u8]) -> bool {
    match (std::str::from_utf8(part), std::str::from_utf8(path)) {
        (Ok(part), Ok(path)) => replace(rt, part, path, bytes).is_ok(),
        _ => false,
    }
}

// Writes the bytes to a file beside the one of this name, and puts it in that one's place.
fn replace<R: Files>(rt: &R, part: &str, path: &str, bytes: &[u8]) -> std::io::Result<()> {
    let file = fs::create(rt, part)?;
    let replaced = write(file, bytes).and_then(|()| fs::rename(rt, part, path));
    if replaced.is_err() {
        let _ = fs::remove_file(rt, part);
    }
    replaced
}

// Writes the bytes, sees that they are kept, and closes the file.
fn write<F: Write + OpenFile + Drop>(mut file: F, bytes: &[u8]) -> std::io::Result<()> {
    file.write_all(bytes)?;
    file.sync_all()
}
