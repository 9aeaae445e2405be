// Masks in one word: sets of at most 64 taxa, bit i for taxon i. Callers hold masks as u64 too, but what a mask means is
// said here alone, by contracts over masks of any size. Read crate trees, specs/Mask.antt, for what they cite; ones, bit_or,
// eqb and ltb are the library's. So equality and order of masks have names here too, for promises over masks of any size.
#![tactic(auto)]

ghost use Rattle.std.specs.Prelude.{◌≡◌, ◌≤◌, ◌<◌, ◌^◌, leb, ltb, eqb};
ghost use Rattle.std.specs.Int.Bits.{bit_or};
ghost use Rattle.std.specs.Int.Count.{ones};
ghost use Rattle.trees.specs.Mask.{has, every_taxon, without, apart, within, proper, lowest};
ghost use Rattle.trees.specs.Mask.{agree as Mask·agree, side as Mask·side};

use answers::Taxon;

// "Two splits agree if their masks have no common bit or one mask lies within the other."
pub fn agree(a: u64, b: u64) -> bool
    ensures { result ≡ Mask·agree a b }
{
    let no_common_bit = are_apart(a, b);
    let first_within_second = is_within(a, b);
    let second_within_first = is_within(b, a);
    no_common_bit || first_within_second || second_within_first
}

// Whether every taxon of a is in b.
pub fn is_within(a: u64, b: u64) -> bool
    ensures { result ≡ within a b }
{
    a & b == a
}

// Whether no taxon is in both a and b.
pub fn are_apart(a: u64, b: u64) -> bool
    ensures { result ≡ apart a b }
{
    a & b == 0
}

// Whether m is the mask of a split that counts, of n taxa.
pub fn is_proper(m: u64, n: u32) -> bool
    ensures { result ≡ proper n m }
{
    if m % 2 != 0 {
        return false;
    }
    if !has_two_taxa(m) {
        return false;
    }
    if 64 < n {
        return true;
    }
    let every = every_taxon(n);
    if every < m {
        return false;
    }
    has_two_taxa(every - m)
}

// Whether m has at least two taxa: one is left when the lowest is taken away.
fn has_two_taxa(m: u64) -> bool
    ensures { result ≡ leb 2 (ones m) }
{
    if m == 0 {
        return false;
    }
    m & (m - 1) != 0
}

// The number of taxa in m.
pub fn count_taxa(m: u64) -> u32
    ensures value { result ≡ ones m }
    ensures upper_bound { result ≤ 64 }
{
    u64::count_ones(m)
}

// The smallest taxon of m; of no taxa, 0.
pub fn lowest_taxon(m: u64) -> Taxon
    ensures result_value { result.0 ≡ lowest m }
    ensures result_bound { result.0 < 64 }
{
    if m == 0 {
        return Taxon(0);
    }
    Taxon(u64::trailing_zeros(m))
}

// Whether a stands before b where masks are ordered: as whole numbers.
pub fn comes_before(a: u64, b: u64) -> bool
    ensures { result ≡ ltb a b }
{
    a < b
}

// Whether a and b are one mask.
pub fn is_same(a: u64, b: u64) -> bool
    ensures { result ≡ eqb a b }
{
    a == b
}

// Whether m has no taxon.
pub fn is_empty(m: u64) -> bool
    ensures { result ≡ eqb m 0 }
{
    m == 0
}

// The mask of all n taxa.
pub fn every_taxon(n: u32) -> u64
    requires { n ≤ 64 }
    ensures { result ≡ every_taxon n }
{
    if n == 64 {
        return !0;
    }
    (1 << n) - 1
}

// The side without taxon 0 of the split of n taxa that parts the taxa m from the others.
pub fn side(m: u64, n: u32) -> u64
    requires n_bound { n ≤ 64 }
    requires m_bound { m < 2 ^ n }
    ensures { result ≡ Mask·side n m }
{
    if m % 2 == 1 {
        return every_taxon(n) - m;
    }
    m
}

// The taxa of a and those of b.
pub fn union_of(a: u64, b: u64) -> u64
    ensures { result ≡ bit_or a b }
{
    a | b
}

// The taxa of a that are not in b.
pub fn taxa_without(a: u64, b: u64) -> u64
    ensures { result ≡ without a b }
{
    a & !b
}

// The taxa of m without its smallest.
pub fn without_lowest(m: u64) -> u64
    ensures { result ≡ without m (2 ^ lowest m) }
{
    if m == 0 {
        return 0;
    }
    (m - 1) & m
}

// Whether taxon i is in m.
pub fn has_taxon(m: u64, i: Taxon) -> bool
    requires { i.0 < 64 }
    ensures { result ≡ has m i.0 }
{
    let k = i.0;
    (m >> k) % 2 == 1
}

// The mask of taxon i alone.
pub fn only_taxon(i: Taxon) -> u64
    requires { i.0 < 64 }
    ensures { result ≡ 2 ^ i.0 }
{
    let k = i.0;
    1 << k
}
