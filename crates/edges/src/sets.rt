// Masks: each function on one mask, on each pair of masks, and on a mask with a taxon or a number of
// taxa.
ghost use Rattle.std.specs.Prelude.{◌≤◌, ◌<◌, ◌^◌};

use crate::line;

// No taxon; taxon 0; taxon 1; both; splits of five taxa (20 and 24 disagree, 24 and 28 agree); every
// second taxon; taxon 63, alone and with taxon 0; all taxa of 64 but the first; all of 64.
const MASKS: [u64; 12] = [
    0,
    1,
    2,
    3,
    20,
    24,
    28,
    6148914691236517205,
    9223372036854775808,
    9223372036854775809,
    18446744073709551614,
    18446744073709551615,
];

// Masks beside the limits of a split that counts: of 4 taxa 6 and 12 count, of 5 also 14 and 28, of 63
// the mask of 61 taxa, of 64 that of 62, of which taxon 63 may be one.
const LIMITS: [u64; 12] = [
    6,
    7,
    10,
    12,
    14,
    28,
    30,
    9223372036854775804,
    9223372036854775806,
    9223372036854775810,
    18446744073709551612,
    18446744073709551614,
];

pub(crate) fn every_set() {
    every_mask();
    numbers_of_taxa();
    single_taxa();
    sides();
}

fn every_mask() {
    for i in 0..12 {
        one_mask(MASKS[i]);
        proper_of(LIMITS[i]);
    }
}

fn one_mask(m: u64) {
    alone(m);
    with_taxa(m);
    for b in MASKS {
        relations(m, b);
        unions(m, b);
    }
    proper_of(m);
}

// The functions of one mask.
fn alone(m: u64) {
    line::whole(b"count_taxa", &[m], u64::from(masks::count_taxa(m)));
    line::whole(b"lowest_taxon", &[m], u64::from(masks::lowest_taxon(m).0));
}

// Whether a mask has the first taxa, one in the middle and the last ones.
fn with_taxa(m: u64) {
    has(m, 0);
    has(m, 1);
    has(m, 2);
    has(m, 31);
    has(m, 32);
    has(m, 62);
    has(m, 63);
}

fn has(m: u64, i: u32)
    requires { i < 64 }
{
    let has = masks::has_taxon(m, answers::Taxon(i));
    line::whole(b"has_taxon", &[m, u64::from(i)], u64::from(has));
}

// The functions that ask something of two masks.
fn relations(a: u64, b: u64) {
    line::whole(b"agree", &[a, b], u64::from(masks::agree(a, b)));
    line::whole(b"is_within", &[a, b], u64::from(masks::is_within(a, b)));
    line::whole(b"are_apart", &[a, b], u64::from(masks::are_apart(a, b)));
    line::whole(
        b"comes_before",
        &[a, b],
        u64::from(masks::comes_before(a, b)),
    );
    line::whole(b"is_same", &[a, b], u64::from(masks::is_same(a, b)));
}

// The functions that make a mask of two.
fn unions(a: u64, b: u64) {
    line::whole(b"union_of", &[a, b], masks::union_of(a, b));
    line::whole(b"taxa_without", &[a, b], masks::taxa_without(a, b));
}

// Whether a mask is proper, of fewer taxa than a collection may have, of the fewest, of as many as a
// mask holds, and of one more.
fn proper_of(m: u64) {
    for n in [0u32, 3, 4, 5, 63, 64, 65] {
        line::whole(
            b"is_proper",
            &[m, u64::from(n)],
            u64::from(masks::is_proper(m, n)),
        );
    }
}

fn numbers_of_taxa() {
    every(0);
    every(1);
    every(4);
    every(5);
    every(63);
    every(64);
}

fn every(n: u32)
    requires { n ≤ 64 }
{
    line::whole(b"every_taxon", &[u64::from(n)], masks::every_taxon(n));
}

fn single_taxa() {
    only(0);
    only(1);
    only(31);
    only(32);
    only(62);
    only(63);
}

fn only(i: u32)
    requires { i < 64 }
{
    line::whole(
        b"only_taxon",
        &[u64::from(i)],
        masks::only_taxon(answers::Taxon(i)),
    );
}

// Clusters with and without taxon 0, of no taxa, of all, of the fewest and of the most taxa.
fn sides() {
    side(0, 0);
    side(0, 4);
    side(3, 4);
    side(12, 4);
    side(15, 4);
    side(11, 5);
    side(20, 5);
    side(1, 63);
    side(9223372036854775807, 63);
    side(1, 64);
    side(9223372036854775808, 64);
    side(9223372036854775809, 64);
    side(18446744073709551614, 64);
    side(18446744073709551615, 64);
}

fn side(m: u64, n: u32)
    requires n_bound { n ≤ 64 }
    requires m_bound { m < 2 ^ n }
{
    line::whole(b"side", &[m, u64::from(n)], masks::side(m, n));
}
