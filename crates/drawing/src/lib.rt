// The majority tree of a collection drawn in plain text: one line a taxon, and the count of each group on its branch.
//
// Its contract cites `specs/DrawnLines.antt` (`drawn_lines`), crate trees, `specs/Drawn.antt` (`drawn`), and crate
// putting, `specs/Put.antt` (`Put`). What the recursion puts is in `specs/Drawing.antt`.
//
//   put_drawing     the drawn tree
#![tactic(auto)]

ghost use Rattle.std.specs.Prelude.{◌≡◌, true, ◌+◌, ◌*◌, ◌≤◌, ◌<◌, length};
ghost use Rattle.std.specs.Int.Count.{ones};
ghost use Rattle.trees.specs.Names.{good_names};
ghost use Rattle.trees.specs.Opening.{head_bytes};
ghost use Rattle.theorems.specs.ListLaws.{Mem};
ghost use Rattle.head.specs.Head.{numbers_at, names_at};
ghost use Rattle.layout.specs.Store.{held_at};
ghost use Rattle.layout.specs.WholeStore.{whole_at};
ghost use Rattle.putting.specs.Put.{Put};
ghost use Rattle.putting.specs.Lines.{bytes_of};
ghost use Rattle.writer.specs.Branch.{child_mask, Ready, Child};
ghost use Rattle.drawing.specs.DrawnLines.{drawn_lines};
ghost use Rattle.drawing.specs.Drawing.{grown_lines, drawn_text, child_drawn, Counted, Fits};

use answers::Taxon;
use putting::{put_byte, put_word};

mod branch;

// Puts the majority tree, drawn, from `at` on, and answers where it ends; nothing, where there are no trees.
pub fn put_drawing(s: &[u8], out: &mut [u8], at: usize) -> usize
    requires s_value { whole_at s.now ≡ true }
    requires at_bound { at ≤ 800000 }
    ensures put { Put out.old at (bytes_of (drawn_lines (held_at s.now))) out.new result }
    ensures upper_bound { result ≤ at + 40000 }
{
    if layout::trees_held(s) == 0 {
        return at;
    }
    let mut list = [0; 64];
    let mut counts = [0; 64];
    let k = grouping::majority_groups(s, &mut list, &mut counts);
    let all = masks::every_taxon(head::taxa(s));
    draw_branches(s, &list[..k], &counts[..k], all, all, &s[..0], out, at)
}

// Puts the lines of the children of the node m that have the taxa r, and answers where they end. The prefix stands
// before each line but the first.
#[cycle(draw_branches_draw_child)]
fn draw_branches(
    s: &[u8],
    list: &[u64],
    counts: &[u32],
    m: u64,
    r: u64,
    prefix: &[u8],
    out: &mut [u8],
    at: usize,
) -> usize
    requires head_bytes_in_bounds { head_bytes ≤ length s.now }
    requires ready { Ready (numbers_at s.now).taxa (names_at s.now) list.now m r }
    requires counted { Counted (held_at s.now).trees list.now counts.now }
    requires m_len_bound { length prefix.now + 8 * ones m ≤ 512 }
    requires r_bound { at + 600 * ones r ≤ 1000000 + length prefix.now }
    ensures put { Put out.old at (drawn_text prefix.now (grown_lines (names_at s.now) (held_at s.now).trees list.now m r)) out.new result }
    ensures fits { Fits r prefix.now at result }
{
    if masks::is_empty(r) {
        return at;
    }
    let i = masks::lowest_taxon(r);
    let x = writer::widest_in(list, list.len(), m, i);
    let rest = masks::taxa_without(r, writer::child_mask(i, x));
    let last = masks::is_empty(rest);
    put_byte(out, at, b'+');
    let e = draw_child(s, list, counts, i, x, last, prefix, out, at + 1);
    if last {
        return e;
    }
    let b = put_word(out, e, prefix);
    draw_branches(s, list, counts, m, rest, prefix, out, b)
}

// Puts a child behind its first byte, and answers where it ends: the leaf i, where x is 0, or the group x. Below the
// last child of a node no bar stands.
#[cycle(draw_branches_draw_child)]
fn draw_child(
    s: &[u8],
    list: &[u64],
    counts: &[u32],
    i: Taxon,
    x: u64,
    last: bool,
    prefix: &[u8],
    out: &mut [u8],
    at: usize,
) -> usize
    requires head_bytes_in_bounds { head_bytes ≤ length s.now }
    requires i_bound { i.0 < 64 }
    requires child { Child (numbers_at s.now).taxa (names_at s.now) list.now i.0 x }
    requires s_value { good_names (numbers_at s.now).taxa (names_at s.now) ≡ true }
    requires counted { Counted (held_at s.now).trees list.now counts.now }
    requires mem { (x ≡ 0 → ⊥) → Mem x list.now }
    requires x_len_bound { length prefix.now + 8 * ones x + 8 ≤ 512 }
    requires x_bound { at + 600 * ones (child_mask i.0 x) ≤ 1000001 + length prefix.now }
    ensures put { Put out.old at (child_drawn (names_at s.now) (held_at s.now).trees list.now prefix.now last i.0 x) out.new result }
    ensures prefix_bound { result + length prefix.now + 1 ≤ at + 600 * ones (child_mask i.0 x) }
{
    if masks::is_empty(x) {
        return branch::put_leaf(s, i, out, at);
    }
    let e = branch::put_branch(out, at, branch::count_of(list, counts, x));
    let mut longer = [0u8; 512];
    let n = branch::lengthen(prefix, last, e - at, &mut longer);
    draw_branches(s, list, counts, x, x, &longer[..n], out, e)
}
