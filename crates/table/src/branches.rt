// The lengths of one split: the shortest, the longest and their sum, over the trees having it. Nothing
// is written into the store.
//
// `specs/Asked.antt` says what is answered; `specs/SplitLengths.antt` how the trees are gone over.
ghost use Rattle.std.specs.Prelude.{◌≡◌, true, [], ◌∷◌, ◌≤◌, ◌<◌, if◌then◌else◌};
ghost use Rattle.trees.specs.Sums.{sums};
ghost use Rattle.answers.specs.Answers.{sums_given, split_lengths_given};
ghost use Rattle.weighing.specs.Summed.{with_length};
ghost use Rattle.head.specs.Head.{numbers_at};
ghost use Rattle.layout.specs.Store.{trees_held_at, splits_held_at, mask_at, tree_at, branches_at};
ghost use Rattle.layout.specs.WholeStore.{whole_at};
ghost use Rattle.table.specs.Asked.{split_lengths_asked};
ghost use Rattle.table.specs.SplitLengths.{branch_found, in_tree, row_lengths};

use answers::{Lengths, Refusal, Split, Tree};

// The shortest, longest and summed length of split number k, over the trees having it.
pub fn split_lengths(s: &[u8], k: Split) -> Result<Lengths, Refusal>
    ensures { split_lengths_given result ≡ split_lengths_asked s.now k.0 }
{
    if !store::is_whole(s) {
        return Err(Refusal::NotWhole);
    }
    if layout::splits_held(s) <= k.0 {
        return Err(Refusal::NoSuchNumber);
    }
    if head::kept(s) == 0 {
        return Err(Refusal::NoLength);
    }
    let row = rows::row_of(s, k);
    row_lengths(s, row)
}

// Those of the split in a row, added in tree order; 18 where one of its lengths is absent.
fn row_lengths(s: &[u8], row: usize) -> Result<Lengths, Refusal>
    requires s_value { whole_at s.now ≡ true }
    requires row_bound { row < splits_held_at s.now }
    requires bound { 1 ≤ (numbers_at s.now).kept }
    ensures { split_lengths_given result ≡ row_lengths s.now row }
{
    let trees = layout::trees_held(s);
    let mut lengths = Lengths {
        shortest: 0.0,
        longest: 0.0,
        sum: 0.0,
    };
    let mut met = false;
    for i in 0..trees {
        if let Some(x) = branch_of(s, Tree(i), row) {
            let Some(y) = x else {
                return Err(Refusal::NoLength);
            };
            lengths = with_length(met, lengths, y);
            met = true;
        }
    }
    Ok(lengths)
}

// The split in a row, in tree i.
fn branch_of(s: &[u8], i: Tree, row: usize) -> Option<Option<f64>>
    requires s_value { whole_at s.now ≡ true }
    requires row_bound { row < splits_held_at s.now }
    requires bound { 1 ≤ (numbers_at s.now).kept }
    requires i_bound { i.0 < trees_held_at s.now }
    ensures { branch_found result ≡ in_tree (mask_at s.now row) (tree_at s.now i.0) (branches_at s.now i.0) }
{
    let from = rows::tree_from(s, Tree(i.0));
    let n = rows::splits_in(s, Tree(i.0));
    for j in 0..n {
        if rows::row_in(s, Tree(i.0), from, j) == row {
            return Some(rows::length_in(s, Tree(i.0), j));
        }
    }
    None
}

// The three with one length more; of that length alone, where none was met before.
fn with_length(met: bool, lengths: Lengths, x: f64) -> Lengths
    ensures { sums_given result ≡ (if met then with_length (sums_given lengths) x else sums (x ∷ [])) }
{
    if met {
        return weighing::add_sum(lengths, x);
    }
    weighing::first_sum(x)
}
