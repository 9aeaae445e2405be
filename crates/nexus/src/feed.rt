// The trees of a file that was read, fed one after another.
ghost use Rattle.std.specs.Prelude.{◌≡◌, true, false, ◌≤◌, length};
ghost use Rattle.trees.specs.Held.{most_text};
ghost use Rattle.trees.specs.Nexus.{uncommented};
ghost use Rattle.trees.specs.NexusCall.{keys_of, replaced};
ghost use Rattle.head.specs.Head.{names_at};
ghost use Rattle.head.specs.Index.{Indexed};
ghost use Rattle.layout.specs.WholeStore.{whole_at};
ghost use Rattle.nexus.specs.Commands.{pairs_in, Placed};
ghost use Rattle.nexus.specs.Named.{labelled};
ghost use Rattle.nexus.specs.Verdicts.{LineAt, LinesAt, Hands, FeedsLines};

use crate::lines::Line;
use crate::tokens::Token;
use crate::{commands, keyed, keys, lines, plain, verdicts};
use answers::{Refusal, Tree};
use head::KEYS;
use layout::MOST_TEXT;

// Feeds the n trees whose lines begin at `from`, and writes each verdict: names and keys are indexed first.
pub(crate) fn feed_trees(
    s: &mut [u8],
    f: &[u8],
    from: usize,
    n: usize,
    list: &[u8],
    pairs: usize,
    places: &[usize],
    verdicts: &mut [u32],
)
    requires s_value { whole_at s.old ≡ true }
    requires from_in_bounds { from ≤ length f.now }
    requires lines_at { LinesAt f.now from n }
    requires placed { Placed list.now pairs places.now }
    requires places_value { labelled (pairs_in list.now pairs places.now) ≡ true }
    requires n_in_bounds { n ≤ length verdicts.old }
    ensures { FeedsLines (pairs_in list.now pairs places.now) f.now from n s.old verdicts.old s.new verdicts.new }
{
    let mut starts = [0u8; KEYS];
    let mut links = [0u8; 64];
    head::build_index(s, &mut starts, &mut links);
    let mut firsts = [0u8; KEYS];
    let mut nexts = [0u8; 64];
    keys::index_keys(list, pairs, places, &mut firsts, &mut nexts);
    feed_lines(
        s, &starts, &links, f, from, n, list, pairs, places, &firsts, &nexts, verdicts,
    );
}

// Feeds the n trees whose lines begin at `from`, and writes each verdict, in a whole store whose names are indexed, by keys that are.
fn feed_lines(
    s: &mut [u8],
    starts: &[u8; KEYS],
    links: &[u8; 64],
    f: &[u8],
    from: usize,
    n: usize,
    list: &[u8],
    pairs: usize,
    places: &[usize],
    firsts: &[u8; KEYS],
    nexts: &[u8; 64],
    verdicts: &mut [u32],
)
    requires s_value { whole_at s.old ≡ true }
    requires indexed { Indexed (names_at s.old) starts.now links.now }
    requires from_in_bounds { from ≤ length f.now }
    requires lines_at { LinesAt f.now from n }
    requires placed { Placed list.now pairs places.now }
    requires places_value { labelled (pairs_in list.now pairs places.now) ≡ true }
    requires indexed_2 { Indexed (keys_of (pairs_in list.now pairs places.now)) firsts.now nexts.now }
    requires n_in_bounds { n ≤ length verdicts.old }
    ensures { FeedsLines (pairs_in list.now pairs places.now) f.now from n s.old verdicts.old s.new verdicts.new }
{
    let mut text = [0u8; MOST_TEXT];
    let mut at = from;
    for i in 0..n {
        let line = text_at(f, at);
        let b = line.from;
        let e = line.end;
        let progress = feed_text(
            s,
            starts,
            links,
            &f[b..e],
            list,
            pairs,
            places,
            firsts,
            nexts,
            &mut text,
        );
        verdicts[i] = answers::verdict_number(progress);
        at = e + 1;
    }
}

// Feeds one tree, by the bytes that stand in the file for it: by its keys, if that is enough; else its plain text is written into a buffer that
// every tree uses.
fn feed_text(
    s: &mut [u8],
    starts: &[u8; KEYS],
    links: &[u8; 64],
    raw: &[u8],
    list: &[u8],
    pairs: usize,
    places: &[usize],
    firsts: &[u8; KEYS],
    nexts: &[u8; 64],
    text: &mut [u8],
) -> Result<Option<Tree>, Refusal>
    requires s_value { whole_at s.old ≡ true }
    requires indexed { Indexed (names_at s.old) starts.now links.now }
    requires placed { Placed list.now pairs places.now }
    requires places_value { labelled (pairs_in list.now pairs places.now) ≡ true }
    requires indexed_2 { Indexed (keys_of (pairs_in list.now pairs places.now)) firsts.now nexts.now }
    requires text_len { length text.old ≡ most_text }
    ensures hands { Hands s.old (replaced (pairs_in list.now pairs places.now) (uncommented false raw.now)) result s.new }
    ensures text_len_2 { length text.new ≡ most_text }
{
    let k = keyed::judge_keys(s, starts, links, raw, list, pairs, places, firsts, nexts);
    match k {
        Some(p) => p,
        None => {
            let n = plain::write_text(list, pairs, places, firsts, nexts, raw, text);
            verdicts::judge_text(s, starts, links, text, n)
        }
    }
}

// Where the text of the tree stands whose line begins at `at`.
fn text_at(f: &[u8], at: usize) -> Token
    requires { at ≤ length f.now }
    ensures { LineAt f.now at result }
{
    let end = commands::command_end(f, at);
    let l = lines::read_line(&f[at..end]);
    match l {
        Line::Text(from) => Token {
            from: at + from,
            end,
        },
        Line::End => Token { from: end, end },
        Line::Wrong => Token { from: end, end },
    }
}
