// The weighted distance of two trees, and the shortest, longest and summed length of a split.
//
// Its contracts cite, of crate trees, `specs/Weighted.antt` (`weighted`, `gap`) and `specs/Sums.antt` (`sums`);
// `specs/Summed.antt` says what one length more does to the three, and `specs/Side.antt` where a walk over two
// lists of masks goes on.
#![tactic(auto)]

ghost use Rattle.std.specs.Prelude.{◌≡◌, true, [], ◌∷◌, ◌+◌, ◌≤◌, ◌<◌, length, if◌then◌else◌};
ghost use Rattle.std.specs.Float.Ieee.{lt};
ghost use Rattle.trees.specs.Whole.{rising};
ghost use Rattle.trees.specs.Sums.{sums};
ghost use Rattle.trees.specs.Weighted.{gap as gap_of, weighted as weighted_of};
ghost use Rattle.answers.specs.Answers.{sums_given};
ghost use Rattle.weighing.specs.Side.{Side};
ghost use Rattle.weighing.specs.Summed.{with_length};

use answers::Lengths;
use std::cmp::Ordering;

// The weighted distance of two trees, each given by the masks of its splits and a length for each.
pub fn weighted(a: &[u64], xs: &[f64], b: &[u64], ys: &[f64]) -> f64
    requires xs_len { (length xs.now ≡ length a.now) × (length ys.now ≡ length b.now) }
    requires a_value { (rising a.now ≡ true) × (rising b.now ≡ true) }
    ensures { result ≡ weighted_of a.now xs.now b.now ys.now }
{
    let n = a.len() + b.len();
    let mut t = 0.0;
    let mut i = 0usize;
    let mut j = 0usize;
    while i + j < n {
        match side(a, i, b, j) {
            Ordering::Equal => {
                t += gap(xs[i], ys[j]);
                i += 1;
                j += 1;
            }
            Ordering::Less => {
                t += gap(xs[i], 0.0);
                i += 1;
            }
            Ordering::Greater => {
                t += gap(0.0, ys[j]);
                j += 1;
            }
        }
    }
    t
}

// How the first of two rising lists stands to the second, gone over up to i and j: Less where it alone has the smallest mask that is
// left, Greater where the second alone has it, Equal where both have it.
fn side(a: &[u64], i: usize, b: &[u64], j: usize) -> Ordering
    requires i_in_bounds { (i ≤ length a.now) × (j ≤ length b.now) }
    requires j_in_bounds { i + j < length a.now + length b.now }
    ensures { Side a.now i b.now j result }
{
    if i == a.len() {
        return Ordering::Greater;
    }
    if j == b.len() {
        return Ordering::Less;
    }
    a[i].cmp(&b[j])
}

// The size of the difference of two lengths.
#[tactic(auto, unfolding(trees::specs::Weighted::gap))]
fn gap(x: f64, y: f64) -> f64
    ensures { result ≡ gap_of x y }
{
    if x < y { y - x } else { x - y }
}

// The shortest, longest and summed length of the first tree alone.
pub fn first_sum(x: f64) -> Lengths
    ensures { sums_given result ≡ sums (x ∷ []) }
{
    Lengths {
        shortest: x,
        longest: x,
        sum: 0.0 + x,
    }
}

// Those with the length x of the next tree.
#[tactic(auto, unfolding(answers::specs::Answers::sums_given, crate::specs::Summed::with_length))]
pub fn add_sum(l: Lengths, x: f64) -> Lengths
    ensures { sums_given result ≡ with_length (sums_given l) x }
{
    Lengths {
        shortest: if x < l.shortest { x } else { l.shortest },
        longest: if l.longest < x { x } else { l.longest },
        sum: l.sum + x,
    }
}
