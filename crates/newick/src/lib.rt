// Reading a tree: the verdict on a text over an opening's names, and the records of an accepted text's splits: masks, places and
// identifiers; where lengths are kept, the splits' lengths too. The same in two steps: the shape of a text, and the verdict by labels that
// stand elsewhere.
//
// The contracts cite `specs/Judge.antt` (`Prepared`, `JudgedAs`, `JudgedWith`); crate trees, `specs/Verdict.antt`, says what `judged`
// and `judged_with` are, crate records, `specs/Records.antt`, what the records of splits are, and `specs/Words.antt` a length as a word.
// Of the two steps, `specs/Shape.antt` has `ShapeRead`, `specs/Leaves.antt` has `Tokens`, and `specs/Shaping.antt` has `Shaping`.
#![tactic(auto)]

ghost use Rattle.std.specs.Prelude.{◌≡◌, ℕ, ◌≤◌, min, List, length};
ghost use Rattle.trees.specs.Held.{most_text};
ghost use Rattle.records.specs.Records.{most_words};
ghost use Rattle.head.specs.Head.{opening_at};
ghost use Rattle.newick.specs.Words.{most_lengths};
ghost use Rattle.newick.specs.Leaves.{most_leaves, Tokens};
ghost use Rattle.newick.specs.Sound.{TreeRead};
ghost use Rattle.newick.specs.Shaping.{Shaping};
ghost use Rattle.newick.specs.Judge.{Prepared, JudgedAs, JudgedWith};

use answers::Refusal;
use head::KEYS;
use leaves::{MOST_LEAVES, SUMS};
use noting::MOST_LENGTHS;
pub use shape::{Mark, NODES, TOKENS, read_shape};

mod leaves;
mod noting;
mod ordered;
mod placing;
mod shape;
mod splits;

// The verdict on a text, by the index of the names; the records of its splits stand at the front of a list.
pub fn judge(
    head: &[u8],
    starts: &[u8; KEYS],
    links: &[u8; 64],
    text: &[u8],
    records: &mut [u64],
) -> Result<usize, Refusal>
    requires prepared { Prepared head.now starts.now links.now }
    requires text_len_bound { length text.now ≤ most_text }
    requires most_words_in_bounds { most_words ≤ length records.old }
    ensures { JudgedAs (opening_at head.now) text.now result records.old records.new }
{
    let mut sums = [0u64; SUMS];
    let mut nodes = [0u16; NODES];
    let (k, n) = read_tree(head, starts, links, text, &mut sums, &mut nodes)?;
    Ok(ordered::gather_splits(head, k, &sums, n, &nodes, records))
}

// The verdict where lengths are kept; the lengths of the splits stand at the front of another list, in the order of the records.
pub fn judge_lengths(
    head: &[u8],
    starts: &[u8; KEYS],
    links: &[u8; 64],
    text: &[u8],
    records: &mut [u64],
    lengths: &mut [u64],
) -> Result<usize, Refusal>
    requires prepared { Prepared head.now starts.now links.now }
    requires text_len_bound { length text.now ≤ most_text }
    requires most_words_in_bounds { (most_words ≤ length records.old) × (most_lengths ≤ length lengths.old) }
    ensures { JudgedWith (opening_at head.now) text.now result records.old lengths.old records.new lengths.new }
{
    let mut sums = [0u64; SUMS];
    let mut nodes = [0u16; NODES];
    let (k, n) = read_tree(head, starts, links, text, &mut sums, &mut nodes)?;
    let mut words = [0u64; MOST_LENGTHS];
    if !noting::note_lengths(text, &mut words) {
        return Err(Refusal::InexactLength);
    }
    let s = ordered::gather_splits(head, k, &sums, n, &nodes, records);
    placing::place_lengths(
        head::taxa(head),
        &sums,
        n - 1,
        &nodes,
        &words,
        s,
        records,
        lengths,
    );
    Ok(s)
}

// The verdict on a tree whose shape was read, by the labels that the tokens mark in other bytes than its text; the records of its splits
// stand at the front of a list.
pub fn judge_shape(
    head: &[u8],
    starts: &[u8; KEYS],
    links: &[u8; 64],
    labels: &[u8],
    leaves: usize,
    inner: usize,
    tokens: &[u16; TOKENS],
    nodes: &[u16; NODES],
    records: &mut [u64],
) -> Result<usize, Refusal>
    requires prepared { Prepared head.now starts.now links.now }
    requires tokens { Tokens labels.now tokens.now (min leaves most_leaves) }
    requires by_index { (s : List ℕ) × Shaping s labels.now leaves tokens.now inner nodes.now }
    requires most_words_in_bounds { most_words ≤ length records.old }
    ensures { (s : List ℕ) → Shaping s labels.now leaves tokens.now inner nodes.now → JudgedAs (opening_at head.now) s result records.old records.new }
{
    let mut sums = [0u64; SUMS];
    let (k, n) = read_leaves(
        head, starts, links, labels, leaves, inner, tokens, &mut sums,
    )?;
    Ok(ordered::gather_splits(head, k, &sums, n, nodes, records))
}

// Reads a text up to its leaves: their running sums, and the spans of its inner nodes.
fn read_tree(
    head: &[u8],
    starts: &[u8; KEYS],
    links: &[u8; 64],
    text: &[u8],
    sums: &mut [u64; SUMS],
    nodes: &mut [u16; NODES],
) -> Result<(usize, usize), Refusal>
    requires prepared { Prepared head.now starts.now links.now }
    requires text_len_bound { length text.now ≤ most_text }
    ensures { TreeRead (opening_at head.now) text.now result sums.new nodes.old nodes.new }
{
    let mut tokens = [0u16; TOKENS];
    let c = shape::read_shape(text, &mut tokens, nodes);
    if text.len() < c.at {
        return Err(Refusal::BadForm);
    }
    read_leaves(head, starts, links, text, c.leaves, c.inner, &tokens, sums)
}

// Reads the leaves of a tree with so many leaves and inner nodes, by the labels that the tokens mark: their running sums.
fn read_leaves(
    head: &[u8],
    starts: &[u8; KEYS],
    links: &[u8; 64],
    labels: &[u8],
    leaves: usize,
    inner: usize,
    tokens: &[u16; TOKENS],
    sums: &mut [u64; SUMS],
) -> Result<(usize, usize), Refusal>
    requires prepared { Prepared head.now starts.now links.now }
    requires tokens { Tokens labels.now tokens.now (min leaves most_leaves) }
    ensures { (s m : List ℕ) → Shaping s labels.now leaves tokens.now inner m → TreeRead (opening_at head.now) s result sums.new m m }
{
    let k = leaves.min(MOST_LEAVES);
    leaves::sum_leaves(head, starts, links, labels, k, tokens, sums)?;
    if !masks::is_same(
        records::mask_of(sums, k),
        masks::every_taxon(head::taxa(head)),
    ) {
        return Err(Refusal::MissingTaxon);
    }
    Ok((k, inner))
}
