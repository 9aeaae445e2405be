// Texts of trees into a collection, and a tree out of it.
//
//   jakku_feed, jakku_close, jakku_batch, jakku_feed_file, jakku_withdraw
ghost use Rattle.std.specs.Prelude.{◌≡◌, length};
ghost use Rattle.feeding.specs.Feeding.{FedAs, ClosedAs, BatchedAs, batch_of};
ghost use Rattle.nexus.specs.Fed.{NexusAs, nexus_of};
ghost use Rattle.withdrawing.specs.Withdrawn.{WithdrawnAs};
ghost use Rattle.clib.specs.Answers.{finish_of, finish_out, number_of, number_out, fed_of, fed_out};

use crate::given;
use crate::given::{Given, Taken};
use answers::{Lane, Tree};

// Feeds a piece to a lane: takes it up to the first semicolon that ends a text and that semicolon, or all of it.
#[unsafe(no_mangle)]
pub extern "C" fn jakku_feed(s: &mut [u8], l: usize, piece: &[u8]) -> Taken
    ensures fed_as { FedAs s.old l piece.now (fed_of result) s.new }
    ensures value { result ≡ fed_out (fed_of result) }
{
    given::fed(feeding::feed(s, Lane(l), piece))
}

// Closes a lane.
#[unsafe(no_mangle)]
pub extern "C" fn jakku_close(s: &mut [u8], l: usize) -> u32
    ensures closed_as { ClosedAs s.old l (finish_of result) s.new }
    ensures value { result ≡ finish_out (finish_of result) }
{
    given::finish(feeding::close(s, Lane(l)))
}

// Feeds a piece with any number of texts to a lane, and writes each verdict: a refusal's number, or 256 more than the tree's.
#[unsafe(no_mangle)]
pub extern "C" fn jakku_batch(s: &mut [u8], l: usize, piece: &[u8], verdicts: &mut [u32]) -> Given
    ensures batched_as { BatchedAs (batch_of s.old l piece.now (length verdicts.old)) l (number_of result) s.old verdicts.old s.new verdicts.new }
    ensures value { result ≡ number_out (number_of result) }
{
    given::number(feeding::batch(s, Lane(l), piece, verdicts))
}

// Feeds the trees of a NEXUS file, and writes each verdict as a batch does.
#[unsafe(no_mangle)]
pub extern "C" fn jakku_feed_file(s: &mut [u8], file: &[u8], verdicts: &mut [u32]) -> Given
    ensures nexus_as { NexusAs (nexus_of s.old file.now (length verdicts.old)) (number_of result) s.old verdicts.old s.new verdicts.new }
    ensures value { result ≡ number_out (number_of result) }
{
    given::number(nexus::feed_file(s, file, verdicts))
}

// Withdraws tree k: the trees after it move down by one number.
#[unsafe(no_mangle)]
pub extern "C" fn jakku_withdraw(s: &mut [u8], k: usize) -> u32
    ensures withdrawn_as { WithdrawnAs s.old k (finish_of result) s.new }
    ensures value { result ≡ finish_out (finish_of result) }
{
    given::finish(withdrawing::withdraw(s, Tree(k)))
}
