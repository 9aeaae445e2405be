// A tree's plain text: a blank for each comment, and its keys replaced by names except after `)` or `:`. What stands in quotes stays.
ghost use Rattle.std.specs.Prelude.{◌≡◌, [], ◌∷◌, true, false, ◌+◌, ◌≤◌, ◌<◌, length, get_or};
ghost use Rattle.trees.specs.Text.{apostrophe};
ghost use Rattle.trees.specs.Held.{most_text};
ghost use Rattle.trees.specs.Nexus.{uncommented};
ghost use Rattle.trees.specs.NexusCall.{keys_of, shown, replaced, free_behind};
ghost use Rattle.fields.specs.Run.{copied};
ghost use Rattle.head.specs.Index.{Indexed};
ghost use Rattle.nexus.specs.Places.{part};
ghost use Rattle.nexus.specs.Commands.{pairs_in, Placed};
ghost use Rattle.nexus.specs.TokenLaws.{Run};
ghost use Rattle.nexus.specs.Texts.{ShownAt, PassedAt, PutAs, TextAs, is_mark, is_kept, is_opening, KeptEnd, KeptAs, QuotePast, QuotesAs};

use crate::{comments, keys};
use head::KEYS;
use layout::{MOST_TEXT, RAN_OVER};

// Writes the plain text of the bytes that stand in a file for a tree, and answers its length; 4,609 where it is longer than 4,608.
pub(crate) fn write_text(
    list: &[u8],
    n: usize,
    places: &[usize],
    starts: &[u8; KEYS],
    links: &[u8; 64],
    raw: &[u8],
    out: &mut [u8],
) -> usize
    requires placed { Placed list.now n places.now }
    requires indexed { Indexed (keys_of (pairs_in list.now n places.now)) starts.now links.now }
    requires out_len { length out.old ≡ most_text }
    ensures text_as { TextAs (replaced (pairs_in list.now n places.now) (uncommented false raw.now)) result out.new }
    ensures out_len_2 { length out.new ≡ most_text }
{
    let mut at = 0;
    let mut to = 0;
    let mut free = true;
    // No range counts these places: a run, a token or a comment is passed at once.
    while at < raw.len() {
        let kept = kept_end(raw, at, free);
        if at < kept {
            to = put_run(out, to, raw, at, kept);
            free = !is_mark(raw[kept - 1]);
            at = kept;
        } else {
            let end = text::token_end(raw, at);
            if at < end {
                to = put_token(list, n, places, starts, links, raw, at, end, free, out, to);
                free = true;
                at = end;
            } else {
                let b = shown_byte(raw, at);
                to = put_byte(out, to, b);
                free = is_free(free, b);
                at = past_byte(raw, at);
            }
        }
        if to == RAN_OVER {
            return to;
        }
    }
    to
}

// Past the bytes from `from` on that stand in the plain text as they are: a run in quotes or what may stand from a mark on, then `(` and
// commas. Most of a text is in such runs, which are put at once; `from` where there are none.
fn kept_end(raw: &[u8], from: usize, free: bool) -> usize
    requires { from < length raw.now }
    ensures kept_as { KeptAs raw.now from free result }
    ensures quote_past { QuotePast raw.now from result }
{
    let at = past_marked(raw, from, free);
    past_openings(raw, at)
}

// Past the run in quotes at `from`, or the kept bytes from `from` on, if a mark stands there or no token may be replaced; `from` if not.
fn past_marked(raw: &[u8], from: usize, free: bool) -> usize
    requires { from < length raw.now }
    ensures kept_as { KeptAs raw.now from free result }
    ensures quote_past { QuotePast raw.now from result }
{
    let b = raw[from];
    if is_mark(b) {
        return past_kept(raw, from + 1);
    }
    if b == b'\'' {
        return past_quotes(raw, from);
    }
    if free {
        return from;
    }
    past_kept(raw, from)
}

// Past the run in quotes at `from`; the length, where they never close.
fn past_quotes(raw: &[u8], from: usize) -> usize
    requires { (from < length raw.now) × (get_or raw.now from 0 ≡ apostrophe) }
    ensures { QuotesAs raw.now from result }
{
    let end = comments::past_next(raw, from + 1, b'\'');
    if raw.len() < end {
        return raw.len();
    }
    end
}

// Past the label bytes and marks from `from` on.
fn past_kept(raw: &[u8], from: usize) -> usize
    requires { from ≤ length raw.now }
    ensures { KeptEnd raw.now from result }
{
    for at in from..raw.len() {
        if !is_kept(raw[at]) {
            return at;
        }
    }
    raw.len()
}

// Past each `(` and comma from `from` on.
fn past_openings(raw: &[u8], from: usize) -> usize
    requires { from ≤ length raw.now }
    ensures { Run is_opening raw.now from result }
{
    for at in from..raw.len() {
        if !is_opening(raw[at]) {
            return at;
        }
    }
    raw.len()
}

// Whether b is a mark, behind which no token is replaced.
fn is_mark(b: u8) -> bool
    ensures { result ≡ is_mark b }
{
    if b == b')' {
        return true;
    }
    b == b':'
}

// Whether b is a label byte or a mark.
fn is_kept(b: u8) -> bool
    ensures { result ≡ is_kept b }
{
    if text::is_label_byte(b) {
        return true;
    }
    is_mark(b)
}

// Whether b is `(` or a comma.
fn is_opening(b: u8) -> bool
    ensures { result ≡ is_opening b }
{
    if b == b'(' {
        return true;
    }
    b == b','
}

// Puts the token of the text from b up to e at `to`, or its name where it is a key and may be replaced; answers where it ends.
fn put_token(
    list: &[u8],
    n: usize,
    places: &[usize],
    starts: &[u8; KEYS],
    links: &[u8; 64],
    raw: &[u8],
    b: usize,
    e: usize,
    free: bool,
    out: &mut [u8],
    to: usize,
) -> usize
    requires placed { Placed list.now n places.now }
    requires indexed { Indexed (keys_of (pairs_in list.now n places.now)) starts.now links.now }
    requires b_lt_e { b < e }
    requires e_in_bounds { e ≤ length raw.now }
    requires to_le_most_text { to ≤ most_text }
    requires out_len { length out.old ≡ most_text }
    ensures { PutAs (shown (pairs_in list.now n places.now) free (part b e raw.now)) to result out.old out.new }
{
    if !free {
        return put_run(out, to, raw, b, e);
    }
    let Some(k) = keys::find_key(list, n, places, starts, links, raw, b, e) else {
        return put_run(out, to, raw, b, e);
    };
    let name = keys::name_at(places, k);
    put_run(out, to, list, name.from, name.end)
}

// Puts the bytes of s from b up to e at `to`, and answers where they end; 4,609, and nothing is put, where they end past 4,608.
fn put_run(out: &mut [u8], to: usize, s: &[u8], b: usize, e: usize) -> usize
    requires b_le_e { b ≤ e }
    requires e_in_bounds { e ≤ length s.now }
    requires to_le_most_text { to ≤ most_text }
    requires out_len { length out.old ≡ most_text }
    ensures { PutAs (part b e s.now) to result out.old out.new }
{
    let n = e - b;
    if MOST_TEXT - to < n {
        return RAN_OVER;
    }
    if has_words(n, s.len() - b, MOST_TEXT - to) {
        put_words(out, to, s, b);
        return to + n;
    }
    fields::copy_from(out, to, s, b, n);
    to + n
}

// Whether n bytes, before so many and with so much room, may be copied in two words: what is copied behind them is written over.
fn has_words(n: usize, left: usize, room: usize) -> bool
    ensures { result ≡ true → (n ≤ 16) × (16 ≤ left) × (16 ≤ room) }
{
    if 16 < n {
        return false;
    }
    if left < 16 {
        return false;
    }
    16 <= room
}

// Puts the 16 bytes of s from b at `to`.
fn put_words(out: &mut [u8], to: usize, s: &[u8], b: usize)
    requires to_in_bounds { to + 16 ≤ length out.old }
    requires b_in_bounds { b + 16 ≤ length s.now }
    ensures { out.new ≡ copied out.old to s.now b 16 }
{
    let first = fields::get64(s, b);
    let second = fields::get64(s, b + 8);
    fields::put64(out, to, first);
    fields::put64(out, to + 8, second);
}

// Puts a byte at `to`, and answers where it ends; 4,609 where there is no room for it.
fn put_byte(out: &mut [u8], to: usize, b: u8) -> usize
    requires to_le_most_text { to ≤ most_text }
    requires out_len { length out.old ≡ most_text }
    ensures { PutAs (b ∷ []) to result out.old out.new }
{
    if to == MOST_TEXT {
        return RAN_OVER;
    }
    out[to] = b;
    to + 1
}

// The byte that is read at `at`: a blank for a comment.
fn shown_byte(raw: &[u8], at: usize) -> u8
    requires { at < length raw.now }
    ensures { ShownAt raw.now at result }
{
    let b = raw[at];
    if b == b'[' {
        if comments::past_comment(raw, at + 1) <= raw.len() {
            return b' ';
        }
    }
    b
}

// Past the byte or the comment at `at`; the length, behind a comment that never ends.
fn past_byte(raw: &[u8], at: usize) -> usize
    requires { at < length raw.now }
    ensures { PassedAt raw.now at result }
{
    if raw[at] != b'[' {
        return at + 1;
    }
    let end = comments::past_comment(raw, at + 1);
    if raw.len() < end {
        return raw.len();
    }
    end
}

// Whether a token behind the byte b may be replaced, if one before it might: not after `)` or `:`.
fn is_free(free: bool, b: u8) -> bool
    ensures { result ≡ free_behind free [] b }
{
    if text::is_blank(b) {
        return free;
    }
    !is_mark(b)
}
