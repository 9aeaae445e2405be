// The lines of the sheet of a whole store, each put from a place of a buffer on.
//
// `specs/Sheet.antt` says what each line is; `Put`, of crate putting, `specs/Put.antt`, how it is stored.
ghost use Rattle.std.specs.Prelude.{◌≡◌, true, [], ◌∷◌, ◌++◌, ◌+◌, ◌≤◌, ◌<◌, length, get_or};
ghost use Rattle.trees.specs.Consensus.{strict, majority};
ghost use Rattle.layout.specs.Store.{trees_held_at, splits_held_at, tree_at, split_at, held_at};
ghost use Rattle.layout.specs.WholeStore.{whole_at};
ghost use Rattle.putting.specs.Put.{Put};
ghost use Rattle.sheet.specs.Sheet.{counts_line, split_line, row_line, tree_text, sheet_lines};
ghost use Rattle.sheet.specs.Lines.{answer_text, Shown};

use answers::{Refusal, Split, Tree};
use putting::{put_counted, put_end, put_number, put_word};

// Writes line number j of the sheet to the front of out, and answers its length.
pub(crate) fn write_line(s: &[u8], refused: usize, j: usize, out: &mut [u8]) -> usize
    requires s_value { whole_at s.now ≡ true }
    requires j_bound { j < splits_held_at s.now + trees_held_at s.now + 3 }
    ensures put { Put out.old 0 (get_or (sheet_lines (held_at s.now) refused) j []) out.new result }
    ensures upper_bound { result ≤ 8192 }
{
    let splits = layout::splits_held(s);
    let trees = layout::trees_held(s);
    if j == 0 {
        return put_counts(s, refused, out, 0);
    }
    if j <= splits {
        return put_split(s, Split(j - 1), out, 0);
    }
    if j <= splits + trees {
        return row_line(s, Tree(j - 1 - splits), out);
    }
    if j == splits + trees + 1 {
        return put_majority(s, b"majority ", out, 0);
    }
    put_strict(s, b"strict ", out, 0)
}

// Puts the counts of taxa, trees, refused texts and splits, and answers where they end.
pub fn put_counts(s: &[u8], refused: usize, out: &mut [u8], at: usize) -> usize
    requires s_value { whole_at s.now ≡ true }
    requires at_bound { at ≤ 1000000 }
    ensures put { Put out.old at (counts_line (held_at s.now) refused) out.new result }
    ensures upper_bound { result ≤ at + 200 }
{
    let taxa = u64::from(head::taxa(s));
    let trees = layout::trees_held(s) as u64;
    let splits = layout::splits_held(s) as u64;
    let a = put_counted(out, at, b"taxa ", taxa);
    let b = put_counted(out, a, b" trees ", trees);
    let c = put_counted(out, b, b" refused ", refused as u64);
    let d = put_counted(out, c, b" splits ", splits);
    put_end(out, d)
}

// Puts the mask and the count of split number k, and answers where they end.
pub fn put_split(s: &[u8], k: Split, out: &mut [u8], at: usize) -> usize
    requires s_value { whole_at s.now ≡ true }
    requires k_bound { k.0 < splits_held_at s.now }
    requires at_bound { at ≤ 1000000 }
    ensures put { Put out.old at (split_line (held_at s.now) (split_at s.now k.0)) out.new result }
    ensures upper_bound { result ≤ at + 42 }
{
    let row = rows::row_of(s, Split(k.0));
    let mask = rows::mask_at(s, row);
    let count = rows::count_at(s, row) as u64;
    let a = put_number(out, at, mask);
    let b = put_counted(out, a, b" ", count);
    put_end(out, b)
}

// Writes the doubled distances of tree number i from all trees.
fn row_line(s: &[u8], i: Tree, out: &mut [u8]) -> usize
    requires s_value { whole_at s.now ≡ true }
    requires i_bound { i.0 < trees_held_at s.now }
    ensures put { Put out.old 0 (row_line (held_at s.now) (tree_at s.now i.0)) out.new result }
    ensures upper_bound { result ≤ 8192 }
{
    let trees = layout::trees_held(s);
    let mut row = [0u16; 1024];
    distances::write_row(s, Tree(i.0), &mut row);
    let mut at = put_number(out, 0, u64::from(row[0]));
    for j in 1..trees {
        at = put_counted(out, at, b" ", u64::from(row[j]));
    }
    put_end(out, at)
}

// Puts a word, the majority tree behind it and the line's end, and answers where that is.
pub fn put_majority(s: &[u8], word: &[u8], out: &mut [u8], at: usize) -> usize
    requires s_value { whole_at s.now ≡ true }
    requires word_len_bound { length word.now ≤ 2000 }
    requires at_bound { at ≤ 1000000 }
    ensures put { Put out.old at (word.now ++ (tree_text (held_at s.now) (majority (held_at s.now).trees) ++ 10 ∷ [])) out.new result }
    ensures upper_bound { result ≤ at + 8192 }
{
    let mut majority_text = [0u8; 4352];
    let answer = consensus::write_majority(s, &mut majority_text);
    tree_line(out, at, word, answer, &majority_text)
}

// Puts a word, the strict tree behind it and the line's end, and answers where that is.
pub fn put_strict(s: &[u8], word: &[u8], out: &mut [u8], at: usize) -> usize
    requires s_value { whole_at s.now ≡ true }
    requires word_len_bound { length word.now ≤ 2000 }
    requires at_bound { at ≤ 1000000 }
    ensures put { Put out.old at (word.now ++ (tree_text (held_at s.now) (strict (held_at s.now).trees) ++ 10 ∷ [])) out.new result }
    ensures upper_bound { result ≤ at + 8192 }
{
    let mut strict_text = [0u8; 4352];
    let answer = consensus::write_strict(s, &mut strict_text);
    tree_line(out, at, word, answer, &strict_text)
}

// Puts a word and behind it the tree that a call answered and left in `text`; none, where it refused.
fn tree_line(
    out: &mut [u8],
    at: usize,
    word: &[u8],
    answer: Result<usize, Refusal>,
    text: &[u8],
) -> usize
    requires shown { Shown answer word.now text.now }
    requires at_bound { at ≤ 1000000 }
    ensures put { Put out.old at (word.now ++ (answer_text answer text.now ++ 10 ∷ [])) out.new result }
    ensures upper_bound { result ≤ at + 8192 }
{
    let a = put_word(out, at, word);
    let b = put_answer(out, a, answer, text);
    put_end(out, b)
}

// Puts the tree that a call answered and left in `text`; none, where it refused.
fn put_answer(out: &mut [u8], at: usize, answer: Result<usize, Refusal>, text: &[u8]) -> usize
    requires shown { Shown answer [] text.now }
    requires at_bound { at ≤ 1002000 }
    ensures put { Put out.old at (answer_text answer text.now) out.new result }
    ensures upper_bound { result ≤ at + 4352 }
{
    match answer {
        Ok(n) => put_word(out, at, &text[..n]),
        Err(_) => put_word(out, at, b"none"),
    }
}
