// The verdict on a plain text, handed whole to an empty lane, in a whole store whose names are indexed: written out, or known by its shape
// and the names of its leaves. No lane is touched.
ghost use Rattle.std.specs.Prelude.{◌≡◌, true, List, ℕ, ◌≤◌, min, length};
ghost use Rattle.trees.specs.Held.{most_text};
ghost use Rattle.head.specs.Head.{opening_at, names_at};
ghost use Rattle.head.specs.Index.{Indexed};
ghost use Rattle.layout.specs.WholeStore.{whole_at};
ghost use Rattle.newick.specs.Leaves.{most_leaves, Tokens};
ghost use Rattle.newick.specs.Shaping.{Shaping};
ghost use Rattle.nexus.specs.Verdicts.{Judges, Hands};

use answers::{Refusal, Tree};
use head::KEYS;
use layout::MOST_TEXT;
use newick::{NODES, TOKENS};
use records::MOST_WORDS;

// The verdict on the text of n bytes at the front of a buffer; 4,609 bytes stand for any text that is longer than 4,608.
pub(crate) fn judge_text(
    s: &mut [u8],
    starts: &[u8; KEYS],
    links: &[u8; 64],
    text: &[u8],
    n: usize,
) -> Result<Option<Tree>, Refusal>
    requires s_value { whole_at s.old ≡ true }
    requires indexed { Indexed (names_at s.old) starts.now links.now }
    requires text_len { length text.now ≡ most_text }
    ensures { Judges s.old text.now n result s.new }
{
    if MOST_TEXT < n {
        return Err(Refusal::TooLong);
    }
    let mut records = [0u64; MOST_WORDS];
    let mut lengths = [0u64; 64];
    let k = feeding::judge_text(s, starts, links, &text[..n], &mut records, &mut lengths)?;
    recording::accept(s, k, &records, &lengths)
}

// The verdict on a tree whose shape was read, by the labels of its leaves in a list of names, where lengths are not kept. Its plain text is no
// longer than a text may be.
pub(crate) fn judge_named(
    s: &mut [u8],
    starts: &[u8; KEYS],
    links: &[u8; 64],
    list: &[u8],
    leaves: usize,
    inner: usize,
    names: &[u16; TOKENS],
    nodes: &[u16; NODES],
) -> Result<Option<Tree>, Refusal>
    requires s_value { (whole_at s.old ≡ true) × ((opening_at s.old).numbers.kept ≡ 0) }
    requires indexed { Indexed (names_at s.old) starts.now links.now }
    requires tokens { Tokens list.now names.now (min leaves most_leaves) }
    requires by_index { (x : List ℕ) × Shaping x list.now leaves names.now inner nodes.now }
    ensures { (x : List ℕ) → length x ≤ most_text → Shaping x list.now leaves names.now inner nodes.now → Hands s.old x result s.new }
{
    let mut records = [0u64; MOST_WORDS];
    let lengths = [0u64; 64];
    let k = newick::judge_shape(
        s,
        starts,
        links,
        list,
        leaves,
        inner,
        names,
        nodes,
        &mut records,
    )?;
    recording::accept(s, k, &records, &lengths)
}
