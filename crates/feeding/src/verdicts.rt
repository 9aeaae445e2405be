// The verdict on a lane's text, in a whole store whose names are indexed: 6, then the text's own
// verdict, then 11 and 12; an accepted tree is recorded.
ghost use Rattle.std.specs.Prelude.{◌≡◌, true, ◌+◌, ◌≤◌, ◌<◌, length, take, drop};
ghost use Rattle.trees.specs.Held.{most_text};
ghost use Rattle.records.specs.Records.{most_words};
ghost use Rattle.head.specs.Head.{numbers_at, names_at, opening_at};
ghost use Rattle.head.specs.Index.{Indexed};
ghost use Rattle.layout.specs.Store.{lane_from};
ghost use Rattle.layout.specs.WholeStore.{whole_at};
ghost use Rattle.newick.specs.Words.{most_lengths};
ghost use Rattle.newick.specs.Judge.{Prepared};
ghost use Rattle.feeding.specs.Judging.{JudgedIn};
ghost use Rattle.feeding.specs.Texts.{Finished};

use answers::{Lane, Refusal, Tree};
use head::KEYS;
use layout::MOST_TEXT;
use records::MOST_WORDS;

// The verdict on the text of a lane, which is empty afterwards.
pub(crate) fn finish_text(
    s: &mut [u8],
    starts: &[u8; KEYS],
    links: &[u8; 64],
    l: Lane,
) -> Result<Option<Tree>, Refusal>
    requires s_value { whole_at s.old ≡ true }
    requires l_bound { l.0 < (numbers_at s.old).lanes }
    requires indexed { Indexed (names_at s.old) starts.now links.now }
    ensures { Finished s.old l.0 result s.new }
{
    let n = lanes::lane_length(s, l);
    if MOST_TEXT < n {
        lanes::empty_lane(s, l);
        return Err(Refusal::TooLong);
    }
    let mut records = [0u64; MOST_WORDS];
    let mut lengths = [0u64; 64];
    let judged = judge_lane(s, starts, links, l, n, &mut records, &mut lengths);
    lanes::empty_lane(s, l);
    let k = judged?;
    recording::accept(s, k, &records, &lengths)
}

// The verdict on the n bytes that a lane holds.
fn judge_lane(
    s: &[u8],
    starts: &[u8; KEYS],
    links: &[u8; 64],
    l: Lane,
    n: usize,
    records: &mut [u64],
    lengths: &mut [u64],
) -> Result<usize, Refusal>
    requires s_value { whole_at s.now ≡ true }
    requires l_bound { l.0 < (numbers_at s.now).lanes }
    requires indexed { Indexed (names_at s.now) starts.now links.now }
    requires n_le_most_text { n ≤ most_text }
    requires most_words_in_bounds { (most_words ≤ length records.old) × (most_lengths ≤ length lengths.old) }
    ensures { JudgedIn (opening_at s.now) (take n (drop (lane_from l.0 + 8) s.now)) result records.old lengths.old records.new lengths.new }
{
    judge_text(s, starts, links, lanes::text_of(s, l, n), records, lengths)
}

// The verdict on a text; its lengths are read only where they are kept.
pub fn judge_text(
    s: &[u8],
    starts: &[u8; KEYS],
    links: &[u8; 64],
    text: &[u8],
    records: &mut [u64],
    lengths: &mut [u64],
) -> Result<usize, Refusal>
    requires prepared { Prepared s.now starts.now links.now }
    requires text_len_bound { length text.now ≤ most_text }
    requires most_words_in_bounds { (most_words ≤ length records.old) × (most_lengths ≤ length lengths.old) }
    ensures { JudgedIn (opening_at s.now) text.now result records.old lengths.old records.new lengths.new }
{
    if head::kept(s) == 0 {
        return newick::judge(s, starts, links, text, records);
    }
    newick::judge_lengths(s, starts, links, text, records, lengths)
}
