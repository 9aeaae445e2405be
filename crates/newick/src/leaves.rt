// The leaves of a text, from left to right: the taxa that their labels name, and running sums of the taxa's constants.
ghost use Rattle.std.specs.Prelude.{◌≡◌, ◌+◌, ◌*◌, ◌^◌, ◌<◌, ◌≤◌, true, false, length};
ghost use Rattle.std.proofs.Math.Seq.{slice};
ghost use Rattle.trees.specs.Mask.{has};
ghost use Rattle.trees.specs.Opening.{head_bytes};
ghost use Rattle.trees.specs.Whole.{good_opening};
ghost use Rattle.records.specs.Records.{wide};
ghost use Rattle.head.specs.Head.{opening_at};
ghost use Rattle.newick.specs.Judge.{Prepared};
ghost use Rattle.newick.specs.Splits.{Hashed};
ghost use Rattle.newick.specs.Leaves.{most_leaves, Tokens, LeafAdded, LeavesSummed};

use crate::shape::TOKENS;
use crate::splits::Sums;
use answers::{Refusal, Taxon};
use head::KEYS;

// How many leaves are judged at most: `most_leaves` of specs/Leaves.antt.
pub(crate) const MOST_LEAVES: usize = 65;

// The words of the running sums: of no leaf, and of each that is judged.
pub(crate) const SUMS: usize = 198;

// Judges the first k leaves, whose labels the tokens mark, and writes running sums: record j is of the first j leaves.
pub(crate) fn sum_leaves(
    head: &[u8],
    starts: &[u8; KEYS],
    links: &[u8; 64],
    text: &[u8],
    k: usize,
    tokens: &[u16; TOKENS],
    sums: &mut [u64],
) -> Result<(), Refusal>
    requires prepared { Prepared head.now starts.now links.now }
    requires k_le_most_leaves { (k ≤ most_leaves) × Tokens text.now tokens.now k }
    requires wide_in_bounds { wide * k + wide ≤ length sums.old }
    ensures { LeavesSummed (opening_at head.now) text.now tokens.now k sums.new result }
{
    let mut x = Sums {
        mask: 0,
        place: 0,
        identifier: 0,
    };
    records::put_record(sums, 0, 0, 0, 0);
    for j in 0..k {
        let b = tokens[2 * j] as usize;
        let e = tokens[2 * j + 1] as usize;
        x = add_leaf(head, starts, links, text, b, e, x)?;
        records::put_record(sums, j + 1, x.mask, x.place, x.identifier);
    }
    Ok(())
}

// The leaf whose label stands from b up to e, behind leaves with the sums x.
fn add_leaf(
    head: &[u8],
    starts: &[u8; KEYS],
    links: &[u8; 64],
    text: &[u8],
    b: usize,
    e: usize,
    x: Sums,
) -> Result<Sums, Refusal>
    requires prepared { Prepared head.now starts.now links.now }
    requires b_le_e { (b ≤ e) × (e ≤ length text.now) }
    requires hashed { Hashed (opening_at head.now) x.mask x.place x.identifier }
    ensures { LeafAdded (opening_at head.now) (slice b e text.now) x.mask result }
{
    let f = head::find_taxon(head, starts, links, text, b, e);
    let Some(t) = f else {
        return Err(Refusal::UnknownLeaf);
    };
    if masks::has_taxon(x.mask, t) {
        return Err(Refusal::RepeatedLeaf);
    }
    Ok(add_taxon(head, x, t))
}

// The sums x with the taxon t, which they lack.
fn add_taxon(head: &[u8], x: Sums, t: Taxon) -> Sums
    requires head_bytes_in_bounds { (head_bytes ≤ length head.now) × (good_opening (opening_at head.now) ≡ true) }
    requires t_bound { t.0 < (opening_at head.now).numbers.taxa }
    requires t_value { has x.mask t.0 ≡ false }
    requires hashed { Hashed (opening_at head.now) x.mask x.place x.identifier }
    ensures mask_value { result.mask ≡ x.mask + 2 ^ t.0 }
    ensures hashed_2 { Hashed (opening_at head.now) result.mask result.place result.identifier }
{
    let mask = masks::union_of(x.mask, masks::only_taxon(t));
    let identifier = std::num::wrapping_add_u64(x.identifier, head::second_constant(head, t));
    let place = x.place + head::first_constant(head, t);
    let m = head::places(head) as u64;
    if place < m {
        return Sums {
            mask: mask,
            place: place,
            identifier: identifier,
        };
    }
    Sums {
        mask: mask,
        place: place - m,
        identifier: identifier,
    }
}
