// The trees of a whole store, written.
//
// Crate trees, `specs/Questions.antt`, says what is answered; `specs/Consensus.antt` has the text of a list of
// splits (`text_asked`).
ghost use Rattle.std.specs.Prelude.{◌≡◌, true, ◌≤◌, length, take};
ghost use Rattle.trees.specs.Questions.{if_room, strict_of, majority_of, together, both_of};
ghost use Rattle.trees.specs.Whole.{good_tree};
ghost use Rattle.answers.specs.Filled.{FilledAs, BothFilledAs};
ghost use Rattle.head.specs.Head.{numbers_at};
ghost use Rattle.layout.specs.Store.{held_at};
ghost use Rattle.layout.specs.WholeStore.{whole_at};
ghost use Rattle.consensus.specs.Consensus.{text_asked};
ghost use Rattle.consensus.specs.Chosen.{chosen};

use crate::lists;
use answers::Refusal;

// Writes the strict tree to the front of out.
pub fn write_strict(s: &[u8], out: &mut [u8]) -> Result<usize, Refusal>
    requires { whole_at s.now ≡ true }
    ensures { FilledAs (strict_of (held_at s.now) (length out.old)) result out.old out.new }
{
    let all = layout::trees_held(s);
    if all == 0 {
        return Err(Refusal::NoTrees);
    }
    write_chosen(s, all, out)
}

// Writes the majority tree to the front of out.
pub fn write_majority(s: &[u8], out: &mut [u8]) -> Result<usize, Refusal>
    requires { whole_at s.now ≡ true }
    ensures { FilledAs (majority_of (held_at s.now) (length out.old)) result out.old out.new }
{
    let trees = layout::trees_held(s);
    if trees == 0 {
        return Err(Refusal::NoTrees);
    }
    write_chosen(s, trees / 2 + 1, out)
}

// Writes the strict and the majority tree to the fronts of two buffers; neither, where one does not fit.
pub(crate) fn write_both(
    s: &[u8],
    strict: &mut [u8],
    majority: &mut [u8],
) -> Result<(usize, usize), Refusal>
    requires { whole_at s.now ≡ true }
    ensures { BothFilledAs (both_of (held_at s.now) (length strict.old) (length majority.old)) result strict.old majority.old strict.new majority.new }
{
    // no tree is longer than 4,349 bytes: this refuses only where there are no trees
    let mut text = [0u8; 4352];
    let n = write_strict(s, &mut text)?;
    give_both(s, &text, n, strict, majority)
}

// Copies the first n bytes of a text to the front of `strict` and writes the majority tree to that of `majority`; neither, where one does not fit.
fn give_both(
    s: &[u8],
    text: &[u8],
    n: usize,
    strict: &mut [u8],
    majority: &mut [u8],
) -> Result<(usize, usize), Refusal>
    requires s_value { whole_at s.now ≡ true }
    requires n_in_bounds { n ≤ length text.now }
    ensures { BothFilledAs (together (if_room (length strict.old) (take n text.now)) (majority_of (held_at s.now) (length majority.old))) result strict.old majority.old strict.new majority.new }
{
    if strict.len() < n {
        return Err(Refusal::TooShort);
    }
    let m = write_majority(s, majority)?;
    fields::copy_from(strict, 0, text, 0, n);
    Ok((n, m))
}

// Writes the tree of the splits that at least `least` trees have to the front of out, or nothing where it does not fit.
fn write_chosen(s: &[u8], least: usize, out: &mut [u8]) -> Result<usize, Refusal>
    requires s_value { whole_at s.now ≡ true }
    requires s_value_2 { good_tree (numbers_at s.now).taxa (chosen least (held_at s.now).trees) ≡ true }
    ensures { FilledAs (text_asked s.now (chosen least (held_at s.now).trees) (length out.old)) result out.old out.new }
{
    let mut list = [0; 64];
    let n = lists::choose(s, least, &mut list);
    write_list(s, &list, n, out)
}

// Writes the tree of the first n splits of the list to the front of out, or nothing where it does not fit.
pub(crate) fn write_list(
    s: &[u8],
    list: &[u64; 64],
    n: usize,
    out: &mut [u8],
) -> Result<usize, Refusal>
    requires s_value { whole_at s.now ≡ true }
    requires n_in_bounds { n ≤ length list.now }
    requires list_value { good_tree (numbers_at s.now).taxa (take n list.now) ≡ true }
    ensures { FilledAs (text_asked s.now (take n list.now) (length out.old)) result out.old out.new }
{
    writer::write_tree(s, list, n, out).ok_or(Refusal::TooShort)
}
