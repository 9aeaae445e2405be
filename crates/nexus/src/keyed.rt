// A tree judged by its keys, its plain text unwritten, where that is enough: every leaf of it is a key, it has no quotes, and comments at its
// front alone. Of such a tree the plain text need not be written and read; docs/BENCH.md says what that saves.
ghost use Rattle.std.specs.Prelude.{◌≡◌, true, false, List, ℕ, ◌*◌, ◌≤◌, length};
ghost use Rattle.trees.specs.Plain.{member};
ghost use Rattle.trees.specs.Text.{apostrophe};
ghost use Rattle.trees.specs.Held.{most_text};
ghost use Rattle.trees.specs.Nexus.{uncommented};
ghost use Rattle.trees.specs.NexusCall.{keys_of, replaced};
ghost use Rattle.head.specs.Head.{opening_at, names_at};
ghost use Rattle.head.specs.Index.{Indexed};
ghost use Rattle.layout.specs.WholeStore.{whole_at};
ghost use Rattle.newick.specs.Leaves.{Tokens};
ghost use Rattle.nexus.specs.Commands.{pairs_in, Placed};
ghost use Rattle.nexus.specs.Named.{labelled};
ghost use Rattle.nexus.specs.Keyed.{most_keyed, BareFrom, NamesAs, Standing, KeyedAs};

use crate::{commands, comments, keys, verdicts};
use answers::{Refusal, Tree};
use head::KEYS;
use layout::MOST_TEXT;
use newick::{NODES, TOKENS};

// How many leaves such a tree has at most: `most_keyed` of specs/Keyed.antt.
const MOST_KEYED: usize = 64;

// Judges the tree for which these bytes stand in a file, if it is such a tree and lengths are not kept.
pub(crate) fn judge_keys(
    s: &mut [u8],
    starts: &[u8; KEYS],
    links: &[u8; 64],
    raw: &[u8],
    list: &[u8],
    pairs: usize,
    places: &[usize],
    firsts: &[u8; KEYS],
    nexts: &[u8; 64],
) -> Option<Result<Option<Tree>, Refusal>>
    requires s_value { whole_at s.old ≡ true }
    requires indexed { Indexed (names_at s.old) starts.now links.now }
    requires placed { Placed list.now pairs places.now }
    requires indexed_2 { Indexed (keys_of (pairs_in list.now pairs places.now)) firsts.now nexts.now }
    requires places_value { labelled (pairs_in list.now pairs places.now) ≡ true }
    ensures { KeyedAs s.old (replaced (pairs_in list.now pairs places.now) (uncommented false raw.now)) result s.new }
{
    if head::kept(s) != 0 {
        return None;
    }
    let from = bare_from(raw)?;
    let bytes = raw.len();
    judge_bare(
        s,
        starts,
        links,
        &raw[from..],
        bytes,
        list,
        pairs,
        places,
        firsts,
        nexts,
    )
}

// Judges the tree of a bare text that stands, behind blanks, for so many bytes at most.
fn judge_bare(
    s: &mut [u8],
    starts: &[u8; KEYS],
    links: &[u8; 64],
    text: &[u8],
    bytes: usize,
    list: &[u8],
    pairs: usize,
    places: &[usize],
    firsts: &[u8; KEYS],
    nexts: &[u8; 64],
) -> Option<Result<Option<Tree>, Refusal>>
    requires s_value { (whole_at s.old ≡ true) × ((opening_at s.old).numbers.kept ≡ 0) }
    requires indexed { Indexed (names_at s.old) starts.now links.now }
    requires text_len_bound { (length text.now ≤ most_text) × (length text.now ≤ bytes) × (member apostrophe text.now ≡ false) }
    requires placed { Placed list.now pairs places.now }
    requires indexed_2 { Indexed (keys_of (pairs_in list.now pairs places.now)) firsts.now nexts.now }
    requires places_value { labelled (pairs_in list.now pairs places.now) ≡ true }
    ensures { (u : List ℕ) → Standing u text.now bytes → KeyedAs s.old (replaced (pairs_in list.now pairs places.now) u) result s.new }
{
    let mut tokens = [0u16; TOKENS];
    let mut nodes = [0u16; NODES];
    let c = newick::read_shape(text, &mut tokens, &mut nodes);
    if text.len() < c.at {
        return None;
    }
    if MOST_KEYED < c.leaves {
        return None;
    }
    let mut names = [0u16; TOKENS];
    let n = name_leaves(
        list, pairs, places, firsts, nexts, text, c.leaves, &tokens, &mut names,
    )?;
    if MOST_TEXT - n < bytes {
        return None;
    }
    Some(verdicts::judge_named(s, starts, links, list, c.leaves, c.inner, &names, &nodes))
}

// Where a tree's text begins behind blanks and comments, if neither quotes nor comments stand in it and it is no longer than a text may be;
// none, if not.
pub(crate) fn bare_from(raw: &[u8]) -> Option<usize>
    ensures { BareFrom raw.now result }
{
    let from = comments::skip(raw, 0);
    if commands::past_plain(raw, from) < raw.len() {
        return None;
    }
    if MOST_TEXT < raw.len() - from {
        return None;
    }
    Some(from)
}

// Looks up the first k tokens of a text, notes where the names of these keys stand in the list, and answers how many bytes they have; none
// where one is no key, or they have more than 4,608. Places are noted in 16 bits: a name behind them is left to the plain text.
pub(crate) fn name_leaves(
    list: &[u8],
    n: usize,
    places: &[usize],
    starts: &[u8; KEYS],
    links: &[u8; 64],
    text: &[u8],
    k: usize,
    tokens: &[u16; TOKENS],
    names: &mut [u16],
) -> Option<usize>
    requires placed { Placed list.now n places.now }
    requires indexed { Indexed (keys_of (pairs_in list.now n places.now)) starts.now links.now }
    requires k_le_most_keyed { (k ≤ most_keyed) × Tokens text.now tokens.now k }
    requires most_keyed_in_bounds { 2 * most_keyed ≤ length names.old }
    ensures { NamesAs (pairs_in list.now n places.now) list.now text.now tokens.now k names.new result }
{
    let mut bytes = 0;
    for j in 0..k {
        let b = tokens[2 * j] as usize;
        let e = tokens[2 * j + 1] as usize;
        let p = keys::find_key(list, n, places, starts, links, text, b, e)?;
        let name = keys::name_at(places, p);
        if 65535 < name.end {
            return None;
        }
        if MOST_TEXT - bytes < name.end - name.from {
            return None;
        }
        names[2 * j] = name.from as u16;
        names[2 * j + 1] = name.end as u16;
        bytes += name.end - name.from;
    }
    Some(bytes)
}
