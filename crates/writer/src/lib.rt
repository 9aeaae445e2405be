// The writer of trees: the text of the tree that has exactly the splits of a list, over the names in
// the head of a store.
//
// Its contracts cite `specs/Text.antt` (`Wrote`), crate trees, `specs/Written.antt` (`widest`,
// `written`), and crate head, `specs/Head.antt` (`names_at`, `opening_at`). What the recursion writes
// is in `specs/Branch.antt` (`branch_text`, `child_text`); `names.rt` writes the names. What finds a node's children,
// `child_mask` and `widest_in`, serves crate drawing too.
#![tactic(auto)]

ghost use Rattle.std.specs.Prelude.{◌≡◌, ◌+◌, ◌≤◌, ◌<◌, true, length, take};
ghost use Rattle.trees.specs.Opening.{head_bytes};
ghost use Rattle.trees.specs.Written.{wider, widest, written};
ghost use Rattle.trees.specs.Whole.{good_tree, good_opening};
ghost use Rattle.head.specs.Head.{numbers_at, names_at, opening_at};
ghost use Rattle.putting.specs.Put.{Put};
ghost use Rattle.writer.specs.Branch.{branch_text, child_mask, child_text, Ready, Child};
ghost use Rattle.writer.specs.Text.{Wrote};

use answers::Taxon;
use putting::put_byte;

mod names;

pub use names::write_name;

// Writes the tree of the first k splits of the list, or nothing where out is too short for it.
pub fn write_tree(head: &[u8], list: &[u64], k: usize, out: &mut [u8]) -> Option<usize>
    requires head_bytes_in_bounds { head_bytes ≤ length head.now }
    requires head_value { good_opening (opening_at head.now) ≡ true }
    requires k_in_bounds { k ≤ length list.now }
    requires list_value { good_tree (opening_at head.now).numbers.taxa (take k list.now) ≡ true }
    ensures { Wrote (written (names_at head.now) (take k list.now)) out.old result out.new }
{
    let mut text = [0u8; 4352];
    let n = write_root(head, list, k, &mut text);
    if out.len() < n {
        return None;
    }
    fields::copy_from(out, 0, &text, 0, n);
    Some(n)
}

// Writes the tree from the start of out, as far as out reaches, and answers its length.
fn write_root(head: &[u8], list: &[u64], k: usize, out: &mut [u8]) -> usize
    requires head_bytes_in_bounds { head_bytes ≤ length head.now }
    requires head_value { good_opening (opening_at head.now) ≡ true }
    requires k_in_bounds { k ≤ length list.now }
    requires list_value { good_tree (opening_at head.now).numbers.taxa (take k list.now) ≡ true }
    ensures put { Put out.old 0 (written (names_at head.now) (take k list.now)) out.new result }
    ensures upper_bound { result ≤ 4349 }
{
    let all = masks::every_taxon(head::taxa(head));
    put_byte(out, 0, b'(');
    let e = write_branches(head, list, k, all, all, out, 1);
    put_byte(out, e, b')');
    put_byte(out, e + 1, b';');
    e + 2
}

// Writes the children of the node m that have the taxa r, as far as out reaches, and answers where they end.
#[cycle(write_branches_write_child)]
fn write_branches(
    head: &[u8],
    list: &[u64],
    k: usize,
    m: u64,
    r: u64,
    out: &mut [u8],
    at: usize,
) -> usize
    requires head_bytes_in_bounds { head_bytes ≤ length head.now }
    requires k_in_bounds { k ≤ length list.now }
    requires ready { Ready (numbers_at head.now).taxa (names_at head.now) (take k list.now) m r }
    requires r_bound { at + length (branch_text (names_at head.now) (take k list.now) m r) ≤ 65536 }
    ensures { Put out.old at (branch_text (names_at head.now) (take k list.now) m r) out.new result }
{
    if masks::is_empty(r) {
        return at;
    }
    let i = masks::lowest_taxon(r);
    let x = widest_in(list, k, m, i);
    let e = write_child(head, list, k, i, x, out, at);
    let rest = masks::taxa_without(r, child_mask(i, x));
    if masks::is_empty(rest) {
        return e;
    }
    put_byte(out, e, b',');
    write_branches(head, list, k, m, rest, out, e + 1)
}

// Writes a child, as far as out reaches, and answers where it ends: the leaf i, where x is 0, or the node x in brackets.
#[cycle(write_branches_write_child)]
fn write_child(
    head: &[u8],
    list: &[u64],
    k: usize,
    i: Taxon,
    x: u64,
    out: &mut [u8],
    at: usize,
) -> usize
    requires head_bytes_in_bounds { head_bytes ≤ length head.now }
    requires k_in_bounds { k ≤ length list.now }
    requires i_bound { i.0 < 64 }
    requires child { Child (numbers_at head.now).taxa (names_at head.now) (take k list.now) i.0 x }
    requires x_bound { at + length (child_text (names_at head.now) (take k list.now) i.0 x) ≤ 65536 }
    ensures { Put out.old at (child_text (names_at head.now) (take k list.now) i.0 x) out.new result }
{
    if masks::is_empty(x) {
        return write_name(head, i, out, at);
    }
    put_byte(out, at, b'(');
    let e = write_branches(head, list, k, x, x, out, at + 1);
    put_byte(out, e, b')');
    e + 1
}

// The taxa of a child: of the leaf i where x is 0, else x.
pub fn child_mask(i: Taxon, x: u64) -> u64
    requires { i.0 < 64 }
    ensures { result ≡ child_mask i.0 x }
{
    if masks::is_empty(x) {
        return masks::only_taxon(i);
    }
    x
}

// Of the first k masks of the list that are below m and have taxon i, the greatest; 0 where there is none.
pub fn widest_in(list: &[u64], k: usize, m: u64, i: Taxon) -> u64
    requires k_in_bounds { k ≤ length list.now }
    requires i_bound { i.0 < 64 }
    ensures { result ≡ widest m i.0 (take k list.now) }
{
    let mut best = 0;
    for j in 0..k {
        best = wider_of(best, list[j], m, i);
    }
    best
}

// x, where it is above best and below m and has taxon i; else best. The last is tested first, as few have it.
fn wider_of(best: u64, x: u64, m: u64, i: Taxon) -> u64
    requires { i.0 < 64 }
    ensures { result ≡ wider m i.0 x best }
{
    if masks::has_taxon(x, i) {
        if masks::comes_before(x, m) {
            if masks::comes_before(best, x) {
                return x;
            }
        }
    }
    best
}
