// The blocks of a file. It is judged whole, and nothing of it is held but places.
ghost use Rattle.std.specs.Prelude.{◌≡◌, ◌+◌, ◌*◌, ◌≤◌, length};
ghost use Rattle.trees.specs.Nexus.{most_keys};
ghost use Rattle.nexus.specs.Blocks.{OtherEnd, NextAs, ListedAs, CountedAs, EndsAs, TreesAs, FileAs};

use crate::lines::{Begun, Line};
use crate::{commands, comments, lines, pairs, tokens};

// What stands behind other blocks: the TREES block, with the place behind its beginning; the last bytes, with their place; or what is wrong.
#[derive(Clone, Copy)]
pub(crate) enum Next {
    Trees(usize),
    Last(usize),
    Wrong,
}

// Passes other blocks.
fn next_block(f: &[u8], from: usize) -> Next
    requires { from ≤ length f.now }
    ensures { NextAs f.now from result }
{
    let mut at = from;
    // No range counts these places, nor those in the loops below: each is behind a command or a block.
    loop {
        let end = commands::command_end(f, at);
        if end == f.len() {
            return Next::Last(at);
        }
        let b = lines::block_begun(&f[at..end]);
        match b {
            Begun::Trees => return Next::Trees(end + 1),
            Begun::Wrong => return Next::Wrong,
            Begun::Other => {}
        }
        let Some(next) = past_other(f, end + 1) else {
            return Next::Wrong;
        };
        at = next;
    }
}

// Past the end of another block, from its first command on; none where it never ends.
fn past_other(f: &[u8], from: usize) -> Option<usize>
    requires { from ≤ length f.now }
    ensures { OtherEnd f.now from result }
{
    let mut at = from;
    loop {
        let end = commands::command_end(f, at);
        if end == f.len() {
            return None;
        }
        if lines::ends_other(&f[at..end]) {
            return Some(end + 1);
        }
        at = end + 1;
    }
}

// A TRANSLATE list: the command from `from` up to `end` lists so many pairs; `at` is the place behind it.
#[derive(Clone, Copy)]
pub(crate) struct Listing {
    pub from: usize,
    pub end: usize,
    pub pairs: usize,
    pub at: usize,
}

// Reads the TRANSLATE list that may stand at the beginning of the TREES block; none where it is wrong, or no command ends there.
fn read_list(f: &[u8], from: usize, places: &mut [usize]) -> Option<Listing>
    requires from_in_bounds { from ≤ length f.now }
    requires most_keys_in_bounds { 4 * most_keys ≤ length places.old }
    ensures listed_as { ListedAs f.now from places.new result }
    ensures places_len_unchanged { length places.new ≡ length places.old }
{
    let end = commands::command_end(f, from);
    if end == f.len() {
        return None;
    }
    let w = tokens::first_token(&f[from..end], 0);
    if !tokens::is_word(&f[from..end], w.from, w.end, b"TRANSLATE") {
        return Some(Listing {
            from,
            end: from,
            pairs: 0,
            at: from,
        });
    }
    let n = pairs::read_pairs(&f[from..end], w.end, places)?;
    Some(Listing {
        from,
        end,
        pairs: n,
        at: end + 1,
    })
}

// The lines of the TREES block: how many trees they give; `at` is the place behind the block.
#[derive(Clone, Copy)]
pub(crate) struct Lines {
    pub trees: usize,
    pub at: usize,
}

// Counts the trees of the TREES block, from the place behind its list on; none where a line is wrong, or the block never ends.
fn count_lines(f: &[u8], from: usize) -> Option<Lines>
    requires { from ≤ length f.now }
    ensures { CountedAs f.now from result }
{
    let mut at = from;
    let mut n = 0;
    loop {
        let end = commands::command_end(f, at);
        if end == f.len() {
            return None;
        }
        let l = lines::read_line(&f[at..end]);
        match l {
            Line::End => {
                return Some(Lines {
                    trees: n,
                    at: end + 1,
                })
            }
            Line::Wrong => return None,
            Line::Text(_) => {}
        }
        n += 1;
        at = end + 1;
    }
}

// Whether other blocks and blanks alone stand from `from` on.
fn ends_well(f: &[u8], from: usize) -> bool
    requires { from ≤ length f.now }
    ensures { EndsAs f.now from result }
{
    let next = next_block(f, from);
    match next {
        Next::Trees(_) => false,
        Next::Wrong => false,
        Next::Last(at) => comments::skip(f, at) == f.len(),
    }
}

// A file that was read: its TRANSLATE command stands from `from` up to `end` and lists so many pairs; its first tree's line begins at
// `lines`, and it gives so many trees.
#[derive(Clone, Copy)]
pub(crate) struct Blocks {
    pub from: usize,
    pub end: usize,
    pub pairs: usize,
    pub lines: usize,
    pub trees: usize,
}

// Reads a whole file: the places of its pairs, and where its trees stand; none where it is malformed.
pub(crate) fn read_file(f: &[u8], places: &mut [usize]) -> Option<Blocks>
    requires { 4 * most_keys ≤ length places.old }
    ensures { FileAs f.now places.new result }
{
    let w = tokens::first_token(f, 0);
    if !tokens::is_word(f, w.from, w.end, b"#NEXUS") {
        return None;
    }
    let next = next_block(f, w.end);
    match next {
        Next::Trees(at) => read_trees(f, at, places),
        Next::Last(_) => None,
        Next::Wrong => None,
    }
}

// Reads the TREES block from its first command on, and what stands behind it.
fn read_trees(f: &[u8], from: usize, places: &mut [usize]) -> Option<Blocks>
    requires from_in_bounds { from ≤ length f.now }
    requires most_keys_in_bounds { 4 * most_keys ≤ length places.old }
    ensures { TreesAs f.now from places.new result }
{
    let list = read_list(f, from, places)?;
    let counted = count_lines(f, list.at)?;
    if !ends_well(f, counted.at) {
        return None;
    }
    Some(Blocks {
        from: list.from,
        end: list.end,
        pairs: list.pairs,
        lines: list.at,
        trees: counted.trees,
    })
}
