// One lane of a whole store: its text is made longer, emptied, measured, and judged at closing; whether
// quotes are open behind it. Every other byte of the store stays as it is.
//
// Its contracts cite `specs/Lanes.antt` (`LaneIs`), crate trees, `specs/Held.antt` (`longer`, `open_in`,
// `closing`), and crate layout, `specs/Store.antt`; the laws that callers use stand in
// `specs/LaneLaws.antt` and `specs/ClosingLaws.antt`.
#![tactic(auto)]

ghost use Rattle.std.specs.Prelude.{◌≡◌, true, [], ◌+◌, ◌≤◌, ◌<◌, leb, take, drop};
ghost use Rattle.trees.specs.Plain.{every};
ghost use Rattle.trees.specs.Text.{is_blank};
ghost use Rattle.trees.specs.Held.{holding, overrun, longer, lane_of, open_in, closing, most_text};
ghost use Rattle.answers.specs.Answers.{finish_given};
ghost use Rattle.fields.specs.Field.{number};
ghost use Rattle.head.specs.Head.{numbers_at};
ghost use Rattle.layout.specs.Store.{lane_from, held_at, ran_over_open};
ghost use Rattle.layout.specs.WholeStore.{whole_at};
ghost use Rattle.lanes.specs.Lanes.{LaneIs, over_length};

use answers::{Lane, Refusal};
use layout::{MOST_TEXT, RAN_OVER, RAN_OVER_OPEN, lane_from};

// Puts the piece behind the bytes that lane l holds. Past 4,608 bytes the lane has run over, and one
// that ran over stays so; then all that is kept of its text is whether quotes are open behind it.
pub fn extend_lane(s: &mut [u8], l: Lane, piece: &[u8])
    requires s_value { whole_at s.old ≡ true }
    requires l_bound { l.0 < (numbers_at s.old).lanes }
    ensures { LaneIs s.old l.0 (longer (lane_of (held_at s.old) l.0) piece.now) s.new }
{
    let n = lane_length(s, l);
    if !has_room(n, piece.len()) {
        let quoted = quotes_open(s, l);
        run_over(s, l, text::open_after(piece, quoted));
        return;
    }
    let from = lane_from(l);
    fields::copy_from(s, from + 8 + n, piece, 0, piece.len());
    fields::put16(s, from, (n + piece.len()) as u16);
}

// Whether a text of n bytes can be so many bytes longer.
fn has_room(n: usize, more: usize) -> bool
    ensures { result ≡ leb (n + more) most_text }
{
    if MOST_TEXT < n {
        return false;
    }
    more <= MOST_TEXT - n
}

// Makes lane l one that ran over; q says whether quotes are open.
fn run_over(s: &mut [u8], l: Lane, q: bool)
    requires s_value { whole_at s.old ≡ true }
    requires l_bound { l.0 < (numbers_at s.old).lanes }
    ensures { LaneIs s.old l.0 (overrun q) s.new }
{
    fields::put16(s, lane_from(l), over_length(q));
}

// The length that says so of a lane.
fn over_length(q: bool) -> u16
    ensures { result ≡ over_length q }
{
    if q {
        return RAN_OVER_OPEN as u16;
    }
    RAN_OVER as u16
}

// Makes lane l hold no bytes.
pub fn empty_lane(s: &mut [u8], l: Lane)
    requires s_value { whole_at s.old ≡ true }
    requires l_bound { l.0 < (numbers_at s.old).lanes }
    ensures { LaneIs s.old l.0 (holding []) s.new }
{
    fields::put16(s, lane_from(l), 0);
}

// How many bytes lane l holds; 4,609 and 4,610 say that it ran over.
pub fn lane_length(s: &[u8], l: Lane) -> usize
    requires s_value { whole_at s.now ≡ true }
    requires l_bound { l.0 < (numbers_at s.now).lanes }
    ensures value { result ≡ number 2 s.now (lane_from l.0) }
    ensures upper_bound { result ≤ ran_over_open }
{
    let from = lane_from(l);
    layout::number16(s, from)
}

// The n bytes of text that lane l holds.
pub fn text_of(s: &[u8], l: Lane, n: usize) -> &[u8]
    requires s_value { whole_at s.now ≡ true }
    requires l_bound { l.0 < (numbers_at s.now).lanes }
    requires n_le_most_text { n ≤ most_text }
    ensures { result.now ≡ take n (drop (lane_from l.0 + 8) s.now) }
{
    let from = lane_from(l) + 8;
    let end = from + n;
    &s[from..end]
}

// Whether quotes are open behind the text of lane l, also where it ran over.
pub fn quotes_open(s: &[u8], l: Lane) -> bool
    requires s_value { whole_at s.now ≡ true }
    requires l_bound { l.0 < (numbers_at s.now).lanes }
    ensures { result ≡ open_in (lane_of (held_at s.now) l.0) }
{
    let n = lane_length(s, l);
    if MOST_TEXT < n {
        return n == RAN_OVER_OPEN;
    }
    text::open_after(text_of(s, l, n), false)
}

// What closing lane l answers: 6 where it ran over, 7 where it holds any byte but blanks, else done.
pub fn closing_answer(s: &[u8], l: Lane) -> Result<(), Refusal>
    requires s_value { whole_at s.now ≡ true }
    requires l_bound { l.0 < (numbers_at s.now).lanes }
    ensures { finish_given result ≡ (closing (held_at s.now) l.0).answer }
{
    let n = lane_length(s, l);
    if MOST_TEXT < n {
        return Err(Refusal::TooLong);
    }
    let b = lane_from(l) + 8;
    let e = b + n;
    if !all_blanks(&s[b..e]) {
        return Err(Refusal::BadForm);
    }
    Ok(())
}

// Whether every byte is a blank.
fn all_blanks(bytes: &[u8]) -> bool
    ensures { result ≡ every is_blank bytes.now }
{
    bytes.iter().all(|b| text::is_blank(*b))
}
