// The parts of the release sheet, each put behind the one before.
//
// Its contracts cite `specs/Release.antt`.
ghost use Rattle.std.specs.Prelude.{◌+◌, ◌≤◌, ◌<◌, ◌≡◌, Bool, true};
ghost use Rattle.layout.specs.Store.{held_at};
ghost use Rattle.layout.specs.WholeStore.{whole_at};
ghost use Rattle.putting.specs.Put.{Put};
ghost use Rattle.putting.specs.Lines.{bytes_of};
ghost use Rattle.release.specs.Release.{is_taxon, newick_lines, first_lines, split_lines, apart_lines};

use answers::{Split, Taxon};

// Puts the two trees alone at the front of out; nothing, where there are no trees.
pub(crate) fn put_newick(s: &[u8], out: &mut [u8]) -> usize
    requires { whole_at s.now ≡ true }
    ensures { Put out.old 0 (bytes_of (newick_lines (held_at s.now))) out.new result }
{
    if layout::trees_held(s) == 0 {
        return 0;
    }
    let e = sheet::put_majority(s, b"", out, 0);
    sheet::put_strict(s, b"", out, e)
}

// Puts what every sheet has at the front of out: the counts, the groups, the two trees, and the majority tree drawn.
pub(crate) fn put_first(s: &[u8], refused: usize, out: &mut [u8]) -> usize
    requires { whole_at s.now ≡ true }
    ensures put { Put out.old 0 (bytes_of (first_lines (held_at s.now) refused)) out.new result }
    ensures upper_bound { result ≤ 360000 }
{
    let a = sheet::put_counts(s, refused, out, 0);
    let b = grouping::put_groups(s, out, a);
    let c = sheet::put_majority(s, b"majority ", out, b);
    let d = sheet::put_strict(s, b"strict ", out, c);
    drawing::put_drawing(s, out, d)
}

// Puts a line for each recorded split, where they are wanted.
pub(crate) fn put_splits(s: &[u8], wanted: bool, out: &mut [u8], at: usize) -> usize
    requires s_value { whole_at s.now ≡ true }
    requires at_bound { at ≤ 400000 }
    ensures put { Put out.old at (bytes_of (split_lines (held_at s.now) wanted)) out.new result }
    ensures upper_bound { result ≤ at + 172032 }
{
    if !wanted {
        return at;
    }
    let n = layout::splits_held(s);
    let mut e = at;
    for k in 0..n {
        e = sheet::put_split(s, Split(k), out, e);
    }
    e
}

// Puts a line for each stand-in of the taxon that is asked for.
pub(crate) fn put_apart(s: &[u8], apart: Option<Taxon>, out: &mut [u8], at: usize) -> usize
    requires s_value { whole_at s.now ≡ true }
    requires apart_value { is_taxon (held_at s.now) apart ≡ true }
    requires at_bound { at ≤ 1000000 }
    ensures { Put out.old at (bytes_of (apart_lines (held_at s.now) apart)) out.new result }
{
    match apart {
        None => at,
        Some(i) => grouping::put_stand_ins(s, i, out, at),
    }
}
