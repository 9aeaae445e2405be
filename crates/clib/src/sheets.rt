// The lines of the summary sheet, of a collection or of an input that comes in pieces, and the release sheet.
//
//   jakku_write_release, jakku_lines, jakku_refusal_line, jakku_summary_begin, jakku_summary_take, jakku_summary_finish, jakku_summary_lines
ghost use Rattle.std.specs.Prelude.{◌≡◌, length};
ghost use Rattle.answers.specs.Filled.{FilledAs};
ghost use Rattle.sheet.specs.Asked.{lines_asked, PrintsAs, refusal_asked};
ghost use Rattle.summary.specs.Summing.{BegunAs, TookAs, FinishedAs, PrintedAs};
ghost use Rattle.release.specs.Release.{release_asked};
ghost use Rattle.clib.specs.Answers.{number_of, number_out, both_of, both_out, summing_of, summed_out, wanted_of};

use crate::given::{Given, Pair, Summed};
use crate::meant::Asked;
use crate::{given, meant};

// Writes the lines of the sheet from number `from` on, as many whole ones as fit, to the front of out.
#[unsafe(no_mangle)]
pub extern "C" fn jakku_lines(s: &[u8], refused: usize, from: usize, out: &mut [u8]) -> Pair
    ensures prints_as { PrintsAs (lines_asked s.now refused from (length out.old)) (both_of result) out.old out.new }
    ensures value { result ≡ both_out (both_of result) }
{
    given::two(sheet::lines(s, refused, from, out))
}

// Writes the line for a first line that is refused with the number k to the front of out.
#[unsafe(no_mangle)]
pub extern "C" fn jakku_refusal_line(k: u32, out: &mut [u8]) -> Given
    ensures filled_as { FilledAs (refusal_asked k (length out.old)) (number_of result) out.old out.new }
    ensures value { result ≡ number_out (number_of result) }
{
    given::number(sheet::refusal_line(k, out))
}

// Writes the release sheet to the front of out.
#[unsafe(no_mangle)]
pub extern "C" fn jakku_write_release(
    s: &[u8],
    refused: usize,
    wanted: Asked,
    out: &mut [u8],
) -> Given
    ensures filled_as { FilledAs (release_asked s.now refused (wanted_of wanted) (length out.old)) (number_of result) out.old out.new }
    ensures value { result ≡ number_out (number_of result) }
{
    given::number(release::write_release(s, refused, meant::wanted(wanted), out))
}

// Begins a summary.
#[unsafe(no_mangle)]
pub extern "C" fn jakku_summary_begin(names: &[u8], s: &[u8]) -> Summed
    ensures begun_as { BegunAs names.now s.now (summing_of result) }
    ensures value { result ≡ summed_out (summing_of result) }
{
    given::reached(summary::begin(names, s))
}

// Takes a piece of the input.
#[unsafe(no_mangle)]
pub extern "C" fn jakku_summary_take(
    state: Summed,
    names: &mut [u8],
    s: &mut [u8],
    piece: &[u8],
) -> Summed
    ensures took_as { TookAs (summing_of state) names.old s.old piece.now (summing_of result) names.new s.new }
    ensures value { result ≡ summed_out (summing_of result) }
{
    given::reached(summary::take(meant::summing(state), names, s, piece))
}

// Finishes, and answers how many texts were refused.
#[unsafe(no_mangle)]
pub extern "C" fn jakku_summary_finish(state: Summed, names: &[u8], s: &mut [u8]) -> Given
    ensures finished_as { FinishedAs (summing_of state) names.now s.old (number_of result) s.new }
    ensures value { result ≡ number_out (number_of result) }
{
    given::number(summary::finish(meant::summing(state), names, s))
}

// Writes the lines from number `from` on, as many whole ones as fit, to the front of out, where `answer` is that of finishing.
#[unsafe(no_mangle)]
pub extern "C" fn jakku_summary_lines(answer: Given, s: &[u8], from: usize, out: &mut [u8]) -> Pair
    ensures printed_as { PrintedAs (number_of answer) s.now from (both_of result) out.old out.new }
    ensures value { result ≡ both_out (both_of result) }
{
    given::two(summary::lines(meant::answer(answer), s, from, out))
}
