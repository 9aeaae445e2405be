// Prints the summary sheet of standard input: names in its first line, trees behind it. Everything that decides what
// is printed is crate summary's; this program reads and writes. A read or a write that fails ends it, with a line on
// standard error.
#![tactic(auto)]

mod input;
mod output;

fn main(rt: HostRuntime) {
    let mut names = [0u8; 4288];
    let mut lent = [0u8; 22024];
    input::take_all(rt.stdin(), &mut names, &mut lent);
}
