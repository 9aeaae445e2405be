// The strict and the majority tree of a file, over the collection's names. A well-formed file need not be that of any
// trees, so that even splits of a majority may disagree.
//
// `specs/Files.antt` says what is answered (`strict_file_asked`, `majority_file_asked`), `specs/Choosing.antt` which splits
// are chosen.
ghost use Rattle.std.specs.Prelude.{◌≡◌, ◌*◌, ◌≤◌, true, length, take};
ghost use Rattle.trees.specs.Plain.{every};
ghost use Rattle.trees.specs.Mask.{agree};
ghost use Rattle.trees.specs.SplitFile.{record_bytes, records_in, well_formed};
ghost use Rattle.trees.specs.SplitFileCall.{chosen_tree};
ghost use Rattle.answers.specs.Filled.{FilledAs};
ghost use Rattle.head.specs.Head.{numbers_at};
ghost use Rattle.layout.specs.Store.{held_at};
ghost use Rattle.layout.specs.WholeStore.{whole_at};
ghost use Rattle.splitfile.specs.Files.{strict_file_asked, majority_file_asked};
ghost use Rattle.splitfile.specs.Choosing.{chosen_in, chosen_by, least_for, tree_asked, agreed_asked, ChosenAs};

use crate::{entries, form};
use answers::Refusal;

// Which splits are chosen: those of all trees, or those of more than half of them.
#[derive(Clone, Copy)]
pub(crate) enum Rule {
    Strict,
    Majority,
}

// Writes the strict tree of a file to the front of out.
pub fn strict_tree(s: &[u8], file: &[u8], out: &mut [u8]) -> Result<usize, Refusal>
    ensures { FilledAs (strict_file_asked s.now file.now (length out.old)) result out.old out.new }
{
    write_by(s, file, Rule::Strict, out)
}

// Writes the majority tree of a file to the front of out.
pub fn majority_tree(s: &[u8], file: &[u8], out: &mut [u8]) -> Result<usize, Refusal>
    ensures { FilledAs (majority_file_asked s.now file.now (length out.old)) result out.old out.new }
{
    write_by(s, file, Rule::Majority, out)
}

// Writes the tree of the splits of a file that a rule chooses to the front of out.
fn write_by(s: &[u8], file: &[u8], rule: Rule, out: &mut [u8]) -> Result<usize, Refusal>
    ensures { FilledAs (tree_asked rule s.now file.now (length out.old)) result out.old out.new }
{
    if !store::is_whole(s) {
        return Err(Refusal::NotWhole);
    }
    let n = form::form_of(file, head::taxa(s))?;
    write_records(s, file, n, rule, out)
}

// Writes that of a file's first n records.
fn write_records(
    s: &[u8],
    file: &[u8],
    n: usize,
    rule: Rule,
    out: &mut [u8],
) -> Result<usize, Refusal>
    requires s_value { whole_at s.now ≡ true }
    requires n_in_bounds { record_bytes * n ≤ length file.now }
    requires file_value { well_formed (numbers_at s.now).taxa (records_in n file.now) ≡ true }
    ensures { FilledAs (chosen_tree (held_at s.now) (records_in n file.now) (chosen_by rule (records_in n file.now)) (length out.old)) result out.old out.new }
{
    if n == 0 {
        return Err(Refusal::NoTrees);
    }
    let least = least_count(rule, entries::known_trees(file, n));
    write_chosen(s, file, n, least, out)
}

// How many of so many trees must have a split.
fn least_count(rule: Rule, trees: u32) -> u32
    ensures { result ≡ least_for rule trees }
{
    match rule {
        Rule::Strict => trees,
        Rule::Majority => trees / 2 + 1,
    }
}

// Writes the tree of the splits of the first n records that at least `least` trees have, unless two of them disagree.
fn write_chosen(
    s: &[u8],
    file: &[u8],
    n: usize,
    least: u32,
    out: &mut [u8],
) -> Result<usize, Refusal>
    requires s_value { whole_at s.now ≡ true }
    requires n_in_bounds { record_bytes * n ≤ length file.now }
    requires file_value { well_formed (numbers_at s.now).taxa (records_in n file.now) ≡ true }
    ensures { FilledAs (agreed_asked s.now (chosen_in least (records_in n file.now)) (length out.old)) result out.old out.new }
{
    let mut list = [0; 64];
    let k = choose(file, n, least, &mut list)?;
    writer::write_tree(s, &list, k, out).ok_or(Refusal::TooShort)
}

// Puts the splits of the first n records that at least `least` trees have at the front of the list. Where the list is full,
// two of them disagree, as no tree over at most 64 taxa has as many.
fn choose(file: &[u8], n: usize, least: u32, list: &mut [u64; 64]) -> Result<usize, Refusal>
    requires n_in_bounds { record_bytes * n ≤ length file.now }
    requires list_len { length list.old ≡ 64 }
    ensures chosen_as { ChosenAs (chosen_in least (records_in n file.now)) result list.new }
    ensures list_len_2 { length list.new ≡ 64 }
{
    let mut k = 0;
    for i in 0..n {
        if least <= entries::count_of(file, i) {
            let m = entries::mask_of(file, i);
            if k == 64 {
                return Err(Refusal::Disagreeing);
            }
            if !agrees_with(m, list, k) {
                return Err(Refusal::Disagreeing);
            }
            list[k] = m;
            k += 1;
        }
    }
    Ok(k)
}

// Whether m agrees with each of the first k masks of the list.
fn agrees_with(m: u64, list: &[u64; 64], k: usize) -> bool
    requires list_len { length list.now ≡ 64 }
    requires k_bound { k ≤ 64 }
    ensures { result ≡ every (agree m) (take k list.now) }
{
    for j in 0..k {
        if !masks::agree(m, list[j]) {
            return false;
        }
    }
    true
}
