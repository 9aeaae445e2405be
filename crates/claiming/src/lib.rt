// The claim that a text is the majority tree of a collection. Nothing is written: neither the store nor a lane of it.
//
// `specs/Claims.antt` says what is answered; crate trees, `specs/Claim.antt`, what it means.
#![tactic(auto)]

ghost use Rattle.std.specs.Prelude.{◌≡◌};
ghost use Rattle.answers.specs.Answers.{claim_given};
ghost use Rattle.claiming.specs.Claims.{claim_asked};

use answers::{Claim, Refusal};
use layout::MOST_TEXT;

mod splits;

// Whether a text has the majority's splits; if not, the smallest mask that one of the two has alone, and which.
pub fn claim(s: &[u8], text: &[u8]) -> Result<Claim, Refusal>
    ensures { claim_given result ≡ claim_asked s.now text.now }
{
    if !store::is_whole(s) {
        return Err(Refusal::NotWhole);
    }
    if layout::trees_held(s) == 0 {
        return Err(Refusal::NoTrees);
    }
    let n = text::text_end(text, false);
    if MOST_TEXT < n {
        return Err(Refusal::TooLong);
    }
    if text.len() != n + 1 {
        return Err(Refusal::BadForm);
    }
    splits::claim_text(s, &text[..n])
}
