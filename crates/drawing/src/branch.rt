// The branches of a drawn tree: to a taxon, to a group, and what stands below them.
//
// Its contracts cite `specs/Drawing.antt` (`beside`, `count_in`) and crate trees, `specs/Drawn.antt` (`branch_to`).
ghost use Rattle.std.specs.Prelude.{◌≡◌, [], ◌∷◌, ◌++◌, ◌+◌, ◌≤◌, ◌<◌, length, replicate};
ghost use Rattle.trees.specs.Opening.{head_bytes};
ghost use Rattle.trees.specs.Written.{written_name};
ghost use Rattle.trees.specs.Drawn.{branch_to};
ghost use Rattle.head.specs.Head.{name_at};
ghost use Rattle.putting.specs.Put.{Put};
ghost use Rattle.drawing.specs.Drawing.{beside as besideByte, count_in};

use answers::Taxon;
use putting::{put_byte, put_counted, put_end, put_spaces, put_word};

// Puts the branch to taxon i, its name and the line's end.
pub(crate) fn put_leaf(s: &[u8], i: Taxon, out: &mut [u8], at: usize) -> usize
    requires head_bytes_in_bounds { head_bytes ≤ length s.now }
    requires i_bound { i.0 < 64 }
    requires i_len_bound { length (written_name (name_at s.now i.0)) ≤ 66 }
    requires at_bound { at ≤ 2000000 }
    ensures { Put out.old at (45 ∷ 32 ∷ (written_name (name_at s.now i.0) ++ 10 ∷ [])) out.new result }
{
    let b = put_word(out, at, b"- ");
    let e = writer::write_name(s, i, out, b);
    put_end(out, e)
}

// Puts the branch to a group that `count` trees have.
pub(crate) fn put_branch(out: &mut [u8], at: usize, count: u64) -> usize
    requires { at ≤ 2000000 }
    ensures put { Put out.old at (branch_to count) out.new result }
    ensures upper_bound { (result ≤ at + 22) × (count < 65536 → result ≤ at + 7) }
{
    let e = put_counted(out, at, b"-", count);
    put_byte(out, e, b'-');
    e + 1
}

// Puts the prefix, what stands below a branch, and blanks below the n bytes behind it into `longer`.
pub(crate) fn lengthen(prefix: &[u8], last: bool, n: usize, longer: &mut [u8]) -> usize
    requires n_in_bounds { length prefix.now + 1 + n ≤ length longer.old }
    requires longer_len_bound { length longer.old ≤ 512 }
    ensures put { Put longer.old 0 (prefix.now ++ (besideByte last ∷ replicate n 32)) longer.new result }
    ensures value { result ≡ length prefix.now + 1 + n }
{
    let b = put_word(longer, 0, prefix);
    put_byte(longer, b, beside(last));
    let e = b + 1 + n;
    put_spaces(longer, b + 1, e);
    e
}

// What stands below a branch: a bar, or a blank below the last one of a node.
fn beside(last: bool) -> u8
    ensures { result ≡ besideByte last }
{
    if last {
        return b' ';
    }
    b'|'
}

// The count beside the mask x; 0, where x is not in the list.
pub(crate) fn count_of(list: &[u64], counts: &[u32], x: u64) -> u64
    requires { length list.now ≤ length counts.now }
    ensures { result ≡ count_in list.now counts.now x }
{
    for j in 0..list.len() {
        if masks::is_same(list[j], x) {
            return u64::from(counts[j]);
        }
    }
    0
}
