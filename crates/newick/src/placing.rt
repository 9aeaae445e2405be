// The lengths of a tree's inner nodes, each at the place of its split: the records rise, so it is looked for by halves.
ghost use Rattle.std.specs.Prelude.{◌≡◌, ◌+◌, ◌*◌, ◌^◌, ◌<◌, ◌≤◌, ◌⊎◌, ◌++◌, length, drop, replicate, slice_index};
ghost use Rattle.trees.specs.Mask.{side as Mask·side};
ghost use Rattle.theorems.specs.ListLaws.{Mem};
ghost use Rattle.theorems.specs.RisingLaws.{Rising};
ghost use Rattle.records.specs.Records.{wide, masks_of};
ghost use Rattle.newick.specs.Chains.{Spans, span_mask};
ghost use Rattle.newick.specs.Placing.{ReadWord, unset as noneYet, with_word, placed_words, Placeable};

use crate::leaves::SUMS;
use crate::noting::MOST_LENGTHS;
use crate::shape::NODES;

// The word of no length.
const NO_LENGTH: u64 = 0xffff_ffff_ffff_ffff;

// The word at a place where no length has come yet: `unset` of specs/Placing.antt.
const UNSET: u64 = 0x8000_0000_0000_0000;

// Writes the words of the lengths of the k splits to the front of `out`: those of the first n nodes over `taxa` taxa.
pub(crate) fn place_lengths(
    taxa: u32,
    sums: &[u64; SUMS],
    n: usize,
    nodes: &[u16; NODES],
    words: &[u64; MOST_LENGTHS],
    k: usize,
    records: &[u64],
    out: &mut [u64],
)
    requires taxa_bound { (taxa ≤ 64) × (n ≤ 64) × Spans 64 n nodes.now }
    requires k_in_bounds { (wide * k ≤ length records.now) × (k ≤ length out.old) }
    requires placeable { Placeable taxa sums.now nodes.now words.now (masks_of k records.now) n }
    ensures { out.new ≡ placed_words taxa sums.now nodes.now words.now (masks_of k records.now) n ++ drop k out.old }
{
    clear(out, k);
    for j in 0..n {
        let m = side_of(taxa, sums, nodes, j);
        if !masks::is_proper(m, taxa) {
            continue;
        }
        let i = find_record(records, k, m);
        out[i] = with_length(out[i], words[j]);
    }
}

// Unsets the first k words.
fn clear(out: &mut [u64], k: usize)
    requires { k ≤ length out.old }
    ensures { out.new ≡ replicate k noneYet ++ drop k out.old }
{
    out[..k].fill(UNSET);
}

// The side without taxon 0 of node j.
fn side_of(taxa: u32, sums: &[u64; SUMS], nodes: &[u16; NODES], j: usize) -> u64
    requires taxa_bound { (taxa ≤ 64) × (span_mask sums.now nodes.now j < 2 ^ taxa) }
    requires j_bound { (j < 64) × (slice_index nodes.now (2 * j) ≤ 64) × (slice_index nodes.now (2 * j + 1) ≤ 64) }
    ensures { result ≡ Mask·side taxa (span_mask sums.now nodes.now j) }
{
    let a = nodes[2 * j] as usize;
    let b = nodes[2 * j + 1] as usize;
    let x = masks::taxa_without(records::mask_of(sums, b), records::mask_of(sums, a));
    masks::side(x, taxa)
}

// The place of the mask m among those of the first k records, which rise and have it.
fn find_record(records: &[u64], k: usize, m: u64) -> usize
    requires k_in_bounds { wide * k ≤ length records.now }
    requires rising { Rising (masks_of k records.now) }
    requires mem { Mem m (masks_of k records.now) }
    ensures { (result < k) × (slice_index (masks_of k records.now) result ≡ m) }
{
    let mut low = 0;
    let mut high = k;
    while low < high {
        let middle = low + (high - low) / 2;
        if masks::comes_before(records::mask_of(records, middle), m) {
            low = middle + 1;
        } else {
            high = middle;
        }
    }
    low
}

// The word at a place where x stands, with the length y too.
fn with_length(x: u64, y: u64) -> u64
    requires fact { (x ≡ noneYet) ⊎ ReadWord x }
    requires read_word { ReadWord y }
    ensures { result ≡ with_word x y }
{
    if x == UNSET {
        return y;
    }
    if x == NO_LENGTH {
        return NO_LENGTH;
    }
    if y == NO_LENGTH {
        return NO_LENGTH;
    }
    f64::to_bits(f64::from_bits(x) + f64::from_bits(y))
}
