// Distances of trees, whether splits agree or collide, and whether a text is the majority tree.
//
//   jakku_one_sided, jakku_doubled, jakku_weighted, jakku_matrix, jakku_collisions, jakku_agree, jakku_claim
ghost use Rattle.std.specs.Prelude.{◌≡◌, length};
ghost use Rattle.trees.specs.Mask.{agree};
ghost use Rattle.answers.specs.Answers.{number_given, claim_given, weight_given};
ghost use Rattle.answers.specs.Filled.{FilledAs};
ghost use Rattle.comparing.specs.Asked.{one_sided_asked, doubled_asked, weighted_asked, matrix_asked, collisions_asked};
ghost use Rattle.claiming.specs.Claims.{claim_asked};
ghost use Rattle.clib.specs.Answers.{number_of, number_out, weight_of, weight_out, claim_of, claim_out};

use crate::given;
use crate::given::{Double, Given, OneClaim};
use answers::Tree;

// The number of splits of tree a that tree b lacks.
#[unsafe(no_mangle)]
pub extern "C" fn jakku_one_sided(s: &[u8], a: usize, b: usize) -> Given
    ensures result_value { number_given (number_of result) ≡ one_sided_asked s.now a b }
    ensures value { result ≡ number_out (number_of result) }
{
    given::number(comparing::one_sided(s, Tree(a), Tree(b)))
}

// The doubled distance between the trees a and b.
#[unsafe(no_mangle)]
pub extern "C" fn jakku_doubled(s: &[u8], a: usize, b: usize) -> Given
    ensures result_value { number_given (number_of result) ≡ doubled_asked s.now a b }
    ensures value { result ≡ number_out (number_of result) }
{
    given::number(comparing::doubled(s, Tree(a), Tree(b)))
}

// The weighted distance between the trees a and b, where lengths are kept and every split of both has one.
#[unsafe(no_mangle)]
pub extern "C" fn jakku_weighted(s: &[u8], a: usize, b: usize) -> Double
    ensures result_value { weight_given (weight_of result) ≡ weighted_asked s.now a b }
    ensures value { result ≡ weight_out (weight_of result) }
{
    given::weight(comparing::weighted(s, Tree(a), Tree(b)))
}

// The doubled distances of all pairs of trees, row by row, at the front of a buffer.
#[unsafe(no_mangle)]
pub extern "C" fn jakku_matrix(s: &[u8], out: &mut [u16]) -> Given
    ensures filled_as { FilledAs (matrix_asked s.now (length out.old)) (number_of result) out.old out.new }
    ensures value { result ≡ number_out (number_of result) }
{
    given::number(comparing::matrix(s, out))
}

// The count of unordered pairs of different recorded splits equal in place and identifier.
#[unsafe(no_mangle)]
pub extern "C" fn jakku_collisions(s: &[u8]) -> Given
    ensures result_value { number_given (number_of result) ≡ collisions_asked s.now }
    ensures value { result ≡ number_out (number_of result) }
{
    given::number(comparing::collisions(s))
}

// Whether two masks agree.
#[unsafe(no_mangle)]
pub extern "C" fn jakku_agree(a: u64, b: u64) -> bool
    ensures { result ≡ agree a b }
{
    masks::agree(a, b)
}

// Whether a text has the majority's splits; if not, the smallest mask that one of the two has alone, and which.
#[unsafe(no_mangle)]
pub extern "C" fn jakku_claim(s: &[u8], text: &[u8]) -> OneClaim
    ensures result_value { claim_given (claim_of result) ≡ claim_asked s.now text.now }
    ensures value { result ≡ claim_out (claim_of result) }
{
    given::claimed(claiming::claim(s, text))
}
