// Where the texts of a piece end, and whether quotes are open: q says whether they are before the piece. What the functions answer
// is said in crate trees, specs/Text.antt and specs/Batch.antt.
ghost use Rattle.std.specs.Prelude.{◌≡◌, false, ◌≤◌, length};
ghost use Rattle.trees.specs.Plain.{member};
ghost use Rattle.trees.specs.Text.{apostrophe, open_after, ends_text, before_end};
ghost use Rattle.trees.specs.Batch.{texts_in};
ghost use Rattle.text.specs.Ends.{block_bytes};

use crate::turned;

// The byte that ends a text.
const SEMICOLON: u8 = b';';

// The quote.
const APOSTROPHE: u8 = b'\'';

// How many bytes are looked at together: `block_bytes` of specs/Ends.antt.
const BLOCK: usize = 64;

// How many bytes stand before the first end of a text: all, where there is none. A block without a semicolon is passed without a
// branch for each byte.
pub fn text_end(piece: &[u8], q: bool) -> usize
    ensures value { result ≡ length (before_end q piece.now) }
    ensures upper_bound { result ≤ length piece.now }
{
    let mut quoted = q;
    let blocks = piece.len() / BLOCK;
    for k in 0..blocks {
        let at = BLOCK * k;
        let n = end_in_block(&piece[at..at + BLOCK], quoted);
        if n < BLOCK {
            return at + n;
        }
        quoted = open_after(&piece[at..at + BLOCK], quoted);
    }
    let at = BLOCK * blocks;
    let last = first_end(&piece[at..], quoted);
    at + last
}

// The same of a block.
fn end_in_block(block: &[u8], q: bool) -> usize
    ensures value { result ≡ length (before_end q block.now) }
    ensures upper_bound { result ≤ length block.now }
{
    if holds(block, SEMICOLON) {
        return first_end(block, q);
    }
    block.len()
}

// The same byte by byte.
fn first_end(piece: &[u8], q: bool) -> usize
    ensures value { result ≡ length (before_end q piece.now) }
    ensures upper_bound { result ≤ length piece.now }
{
    let mut quoted = q;
    for i in 0..piece.len() {
        if ends_text(quoted, piece[i]) {
            return i;
        }
        quoted = turned(quoted, piece[i]);
    }
    piece.len()
}

// How many texts a piece ends.
pub fn count_texts(piece: &[u8], q: bool) -> usize
    ensures { result ≡ texts_in q piece.now }
{
    let mut quoted = q;
    let mut n = 0;
    let blocks = piece.len() / BLOCK;
    for k in 0..blocks {
        let at = BLOCK * k;
        let more = count_block(&piece[at..at + BLOCK], quoted);
        quoted = open_after(&piece[at..at + BLOCK], quoted);
        n += more;
    }
    let at = BLOCK * blocks;
    let last = count_block(&piece[at..], quoted);
    n + last
}

// How many texts a block ends.
fn count_block(block: &[u8], q: bool) -> usize
    requires { length block.now ≤ block_bytes }
    ensures value { result ≡ texts_in q block.now }
    ensures upper_bound { result ≤ length block.now }
{
    if holds(block, APOSTROPHE) {
        return count_quoted(block, q);
    }
    if q {
        return 0;
    }
    count_plain(block)
}

// The same byte by byte.
fn count_quoted(block: &[u8], q: bool) -> usize
    requires { length block.now ≤ block_bytes }
    ensures value { result ≡ texts_in q block.now }
    ensures upper_bound { result ≤ length block.now }
{
    let mut quoted = q;
    let mut n = 0;
    for i in 0..block.len() {
        let ends = ends_text(quoted, block[i]);
        if ends {
            n += 1;
        }
        quoted = turned(quoted, block[i]);
    }
    n
}

// The same where no quotes are open and none stands in the block. They are counted in a byte, so that many bytes are compared at once.
fn count_plain(block: &[u8]) -> usize
    requires block_len_bound { length block.now ≤ block_bytes }
    requires block_value { member apostrophe block.now ≡ false }
    ensures value { result ≡ texts_in false block.now }
    ensures upper_bound { result ≤ length block.now }
{
    let mut n = 0u8;
    for i in 0..block.len() {
        if block[i] == SEMICOLON {
            n += 1;
        }
    }
    usize::from(n)
}

// Whether quotes are open behind a piece.
pub fn open_after(piece: &[u8], q: bool) -> bool
    ensures { result ≡ open_after q piece.now }
{
    let mut inside = q;
    for i in 0..piece.len() {
        inside = turned(inside, piece[i]);
    }
    inside
}

// Whether the byte b stands in a block. All bytes are looked at, without a branch, so that many are compared at once.
fn holds(block: &[u8], b: u8) -> bool
    ensures { result ≡ member b block.now }
{
    let mut found = false;
    for i in 0..block.len() {
        if block[i] == b {
            found = true;
        }
    }
    found
}

// Whether the byte b ends a text.
fn ends_text(q: bool, b: u8) -> bool
    ensures { result ≡ ends_text q b }
{
    if q {
        return false;
    }
    b == SEMICOLON
}
