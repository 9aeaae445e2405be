// `splitfiles show NAMES FILE`.
use answers::Refusal;
use filing::{Done, STDERR_FILENO, STDOUT_FILENO, Waiting};
use std::rt::Env;

// The argument.
const FILE: usize = 3;

// Prints what the bytes of the file hold. `masks` and `counts` are for its splits.
pub(crate) fn show(
    rt: &impl Env,
    taxa: u32,
    file: &[u8],
    lent: &[u8],
    masks: &mut [u64],
    counts: &mut [u32],
) -> Option<Done> {
    match splitfile::read_splits(lent, file, masks, counts) {
        Ok((trees, n)) => {
            let mut out = filing::nothing_waits(STDOUT_FILENO);
            put_counts(taxa, trees, n, &mut out);
            put_splits(masks, counts, n, &mut out);
            show_trees(rt, file, lent, &mut out)
        }
        Err(r) => {
            filing::tell_refused_argument(rt, FILE, answers::refusal_number(r));
            None
        }
    }
}

// Puts the line of the counts. Of how many trees a file without records is, is not known.
fn put_counts(taxa: u32, trees: usize, splits: usize, out: &mut Waiting) {
    filing::put(out, b"taxa ");
    filing::put_counted(out, u64::from(taxa), b" trees ");
    if splits == 0 {
        filing::put(out, b"- splits 0\n");
    } else {
        filing::put_counted(out, trees as u64, b" splits ");
        filing::put_counted(out, splits as u64, b"\n");
    }
}

// Puts the lines of the first n splits.
fn put_splits(masks: &[u64], counts: &[u32], n: usize, out: &mut Waiting) {
    for (mask, count) in masks.iter().zip(counts).take(n) {
        filing::put_counted(out, *mask, b" ");
        filing::put_counted(out, u64::from(*count), b"\n");
    }
}

// Prints all that waits and the two trees of the file.
fn show_trees(rt: &impl Env, file: &[u8], lent: &[u8], out: &mut Waiting) -> Option<Done> {
    let mut text = [0u8; 4352];
    let majority = splitfile::majority_tree(lent, file, &mut text);
    put_tree(b"majority ", majority, &text, out);
    let strict = splitfile::strict_tree(lent, file, &mut text);
    put_tree(b"strict ", strict, &text, out);
    if !filing::flush(out) {
        io::write_all(STDERR_FILENO, b"splitfiles: writing failed\n");
        return None;
    }
    Some(done(rt, majority))
}

// Puts the line of a tree: a word, and the tree that a call answered and left in `text`; none, where it refused.
fn put_tree(word: &[u8], answer: Result<usize, Refusal>, text: &[u8], out: &mut Waiting) {
    filing::put(out, word);
    match answer {
        Ok(n) => {
            let k = filing::within(n, text);
            filing::put(out, &text[..k]);
        }
        Err(_) => filing::put(out, b"none"),
    }
    filing::put(out, b"\n");
}

// What was done. Where no majority tree is given, the file is empty, or chosen splits disagree, which is told. The strict splits are among
// the majority's, and agree where those do.
fn done(rt: &impl Env, majority: Result<usize, Refusal>) -> Done {
    match majority {
        Ok(_) | Err(Refusal::NoTrees) => Done::All,
        Err(r) => {
            filing::tell_refused_argument(rt, FILE, answers::refusal_number(r));
            Done::Rest
        }
    }
}
