// A split by its number.
//
// `specs/Asked.antt` says what is answered.
ghost use Rattle.std.specs.Prelude.{◌≡◌};
ghost use Rattle.answers.specs.Answers.{split_given};
ghost use Rattle.table.specs.Asked.{split_asked};

use answers::{Refusal, Split};

// The mask and the count of split number k.
pub fn one_split(s: &[u8], k: Split) -> Result<(u64, u32), Refusal>
    ensures { split_given result ≡ split_asked s.now k.0 }
{
    if !store::is_whole(s) {
        return Err(Refusal::NotWhole);
    }
    if layout::splits_held(s) <= k.0 {
        return Err(Refusal::NoSuchNumber);
    }
    let row = rows::row_of(s, Split(k.0));
    Ok((rows::mask_at(s, row), rows::count_at(s, row) as u32))
}
