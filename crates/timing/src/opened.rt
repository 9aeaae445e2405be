// The collection that is timed: one lane, room for 1,024 trees and 4,096 splits, 8,192 places, constants that jump about. Its
// store has 254,472 bytes, and 778,760 where lengths are kept.
use crate::lines;
use answers::{Lane, Refusal};

// Opens the collection and takes every text, in one call.
pub(crate) fn fill(s: &mut [u8], kept: bool, names: &[u8], texts: &[u8]) {
    let mut verdicts = [0u32; 2048];
    open(s, kept, names);
    let _ = take_texts(s, texts, &mut verdicts);
}

// Takes every text in one call: as a batch, or as a NEXUS file where the first byte is `#`, with which no text of a collection begins.
pub(crate) fn take_texts(
    s: &mut [u8],
    texts: &[u8],
    verdicts: &mut [u32],
) -> Result<usize, Refusal> {
    if lines::first_byte(texts) == b'#' {
        return nexus::feed_file(s, texts, verdicts);
    }
    feeding::batch(s, Lane(0), texts, verdicts)
}

// Opens the collection and takes each text by a call of its own.
pub(crate) fn fill_singly(s: &mut [u8], kept: bool, names: &[u8], texts: &[u8]) {
    open(s, kept, names);
    let mut rest = texts;
    while let Some(e) = lines::place_of(b';', rest) {
        feeding::feed(s, Lane(0), &rest[..e + 1]);
        rest = &rest[e + 1..];
    }
}

// Opens the collection in the store.
pub(crate) fn open(s: &mut [u8], kept: bool, names: &[u8]) {
    let mut first = [0u64; 64];
    let mut second = [0u64; 64];
    spread(&mut first, 1);
    spread(&mut second, 2);
    open_with(s, kept, names, &first, &second);
}

// Opens the collection with as many of the constants as there are names.
fn open_with(s: &mut [u8], kept: bool, names: &[u8], first: &[u64], second: &[u64]) {
    let n = lines::count_names(names);
    let k = n as usize;
    if first.len() < k {
        return;
    }
    if second.len() < k {
        return;
    }
    let _ = table::open(
        s,
        n,
        1,
        1024,
        4096,
        8192,
        kept,
        names,
        &first[..k],
        &second[..k],
    );
}

// Opens an empty collection of the same names in the store, with as little room as can be.
pub(crate) fn open_empty(s: &mut [u8], names: &[u8]) {
    let zeros = [0u64; 64];
    open_smallest(s, names, &zeros);
}

// Opens it with as many constants, all 0, as there are names.
fn open_smallest(s: &mut [u8], names: &[u8], zeros: &[u64]) {
    let n = lines::count_names(names);
    let k = n as usize;
    if zeros.len() < k {
        return;
    }
    let _ = table::open(s, n, 1, 1, 1, 1, false, names, &zeros[..k], &zeros[..k]);
}

// Fills a list of constants with numbers below the 8,192 places.
fn spread(list: &mut [u64], from: u64) {
    let mut x = from;
    for place in list {
        x = next(x);
        *place = x % 8192;
    }
}

// The number behind x, in the sequence of the minimal standard generator.
pub(crate) fn next(x: u64) -> u64 {
    x % 2147483647 * 48271 % 2147483647
}

// The first text, with its semicolon; all that is left, where there is no semicolon.
pub(crate) fn first_text(texts: &[u8]) -> &[u8] {
    match lines::place_of(b';', texts) {
        Some(n) => &texts[..n + 1],
        None => texts,
    }
}
