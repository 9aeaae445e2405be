// One text after another, in a whole store whose names are indexed.
ghost use Rattle.std.specs.Prelude.{◌≡◌, true, ◌<◌, length};
ghost use Rattle.trees.specs.Batch.{none_accepted, batching};
ghost use Rattle.head.specs.Head.{numbers_at, names_at};
ghost use Rattle.head.specs.Index.{Indexed};
ghost use Rattle.layout.specs.Store.{held_at};
ghost use Rattle.layout.specs.WholeStore.{whole_at};
ghost use Rattle.store.specs.Lent.{Holds};
ghost use Rattle.feeding.specs.Feeding.{SameOutside};
ghost use Rattle.feeding.specs.Texts.{FedWell, texts_at};

use crate::verdicts;
use answers::{Fed, Lane};
use head::KEYS;

// Feeds one piece.
pub(crate) fn feed_piece(
    s: &mut [u8],
    starts: &[u8; KEYS],
    links: &[u8; 64],
    l: Lane,
    piece: &[u8],
) -> Fed
    requires s_value { whole_at s.old ≡ true }
    requires l_bound { l.0 < (numbers_at s.old).lanes }
    requires indexed { Indexed (names_at s.old) starts.now links.now }
    ensures { FedWell s.old l.0 piece.now result s.new }
{
    let quoted = lanes::quotes_open(s, l);
    let n = text::text_end(piece, quoted);
    lanes::extend_lane(s, l, &piece[..n]);
    if n == piece.len() {
        return Fed {
            taken: n,
            progress: Ok(None),
        };
    }
    let progress = verdicts::finish_text(s, starts, links, l);
    Fed {
        taken: n + 1,
        progress,
    }
}

// Feeds a piece of as many texts as there are verdicts, and what is behind them; writes each verdict.
pub(crate) fn feed_texts(
    s: &mut [u8],
    starts: &[u8; KEYS],
    links: &[u8; 64],
    l: Lane,
    piece: &[u8],
    verdicts: &mut [u32],
)
    requires s_value { whole_at s.old ≡ true }
    requires l_bound { l.0 < (numbers_at s.old).lanes }
    requires indexed { Indexed (names_at s.old) starts.now links.now }
    requires verdicts_len { length verdicts.old ≡ texts_at (held_at s.old) l.0 piece.now }
    ensures holds { Holds (batching (length verdicts.old) (held_at s.old) l.0 piece.now).after s.old s.new }
    ensures verdicts_after { verdicts.new ≡ (batching (length verdicts.old) (held_at s.old) l.0 piece.now).verdicts }
    ensures same_outside { none_accepted (batching (length verdicts.old) (held_at s.old) l.0 piece.now).verdicts ≡ true → SameOutside s.old l.0 s.new }
{
    let mut at = 0;
    for i in 0..verdicts.len() {
        let fed = feed_piece(s, starts, links, l, &piece[at..]);
        let progress = fed.progress;
        verdicts[i] = answers::verdict_number(progress);
        at += fed.taken;
    }
    feed_piece(s, starts, links, l, &piece[at..]);
}
