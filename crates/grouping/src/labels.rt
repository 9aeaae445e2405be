// Names of taxa as the words of a line, each behind a space.
//
// Its contracts cite `specs/GroupLines.antt` (`labels`) and crate putting, `specs/Lines.antt` (`spaced`).
ghost use Rattle.std.specs.Prelude.{◌≡◌, true, [], ◌∷◌, ◌++◌, ◌+◌, ◌≤◌, ◌<◌};
ghost use Rattle.trees.specs.Decimal.{digits_of};
ghost use Rattle.trees.specs.Groups.{taxa_in};
ghost use Rattle.head.specs.Head.{numbers_at, names_at};
ghost use Rattle.layout.specs.WholeStore.{whole_at};
ghost use Rattle.putting.specs.Put.{Put};
ghost use Rattle.putting.specs.Lines.{spaced};
ghost use Rattle.grouping.specs.GroupLines.{labels};

use answers::Taxon;
use putting::{put_byte, put_counted, put_end};

// Puts a space and the name of taxon i, and answers where it ends.
pub(crate) fn put_label(s: &[u8], i: Taxon, out: &mut [u8], at: usize) -> usize
    requires s_value { whole_at s.now ≡ true }
    requires i_bound { i.0 < (numbers_at s.now).taxa }
    requires at_bound { at ≤ 2000000 }
    ensures put { Put out.old at (spaced (labels (names_at s.now) (i.0 ∷ []))) out.new result }
    ensures upper_bound { result ≤ at + 67 }
{
    put_byte(out, at, b' ');
    writer::write_name(s, i, out, at + 1)
}

// Puts the names of the taxa of m, each behind a space, and answers where they end.
pub(crate) fn put_labels(s: &[u8], m: u64, out: &mut [u8], at: usize) -> usize
    requires s_value { whole_at s.now ≡ true }
    requires at_bound { at ≤ 1900000 }
    ensures put { Put out.old at (spaced (labels (names_at s.now) (taxa_in (numbers_at s.now).taxa m))) out.new result }
    ensures upper_bound { result ≤ at + 4288 }
{
    let n = head::taxa(s);
    let mut e = at;
    for i in 0..n {
        if masks::has_taxon(m, Taxon(i)) {
            e = put_label(s, Taxon(i), out, e);
        }
    }
    e
}

// Puts the rest of a line: how many trees have the group m, and the names of its taxa.
pub(crate) fn put_group(s: &[u8], m: u64, count: u32, out: &mut [u8], at: usize) -> usize
    requires s_value { whole_at s.now ≡ true }
    requires count_bound { count < 65536 }
    requires at_bound { at ≤ 1800000 }
    ensures put { Put out.old at (spaced (digits_of count ∷ labels (names_at s.now) (taxa_in (numbers_at s.now).taxa m)) ++ 10 ∷ []) out.new result }
    ensures upper_bound { result ≤ at + 4295 }
{
    let b = put_counted(out, at, b" ", u64::from(count));
    let e = put_labels(s, m, out, b);
    put_end(out, e)
}
