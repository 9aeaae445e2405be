// What the system refuses, told on standard error.
ghost use Rattle.io.specs.Counts.{IsPrefixLen};

use crate::waiting::STDERR_FILENO;
use std::io::{Error, Write};

// What std puts behind the system's words, before their number.
const NUMBER: &[u8] = b" (os error ";

// Tells that what has this name failed, and why, in the system's words alone.
pub(crate) fn tell(name: &[u8], error: Error) {
    let mut text = [0u8; 256];
    let n = write_error(error, &mut text);
    let k = before_number(&text[..n]);
    io::write_all(STDERR_FILENO, name);
    io::write_all(STDERR_FILENO, b": ");
    io::write_all(STDERR_FILENO, &text[..k]);
    io::write_all(STDERR_FILENO, b"\n");
}

// Writes the error to the front of the text, as std does, and answers how many bytes of it have room.
fn write_error(error: Error, text: &mut [u8]) -> usize
    ensures { IsPrefixLen result text.new }
{
    let left = left_behind(error, text);
    text.len().saturating_sub(left)
}

// The same, and answers how many bytes are left.
fn left_behind(error: Error, text: &mut [u8]) -> usize {
    let mut rest: &mut [u8] = text;
    let _ = write!(rest, "{error}");
    rest.len()
}

// How many bytes stand before the number of an error: all, where it has none.
fn before_number(text: &[u8]) -> usize
    ensures { IsPrefixLen result text.now }
{
    for i in 0..text.len() {
        if text[i..].starts_with(NUMBER) {
            return i;
        }
    }
    text.len()
}
