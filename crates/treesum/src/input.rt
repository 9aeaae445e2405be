// Standard input, read at most 4,096 bytes at a time.
use crate::output;
use std::io::{Read, Stdin};

// Takes all of standard input, and prints its summary. The turns are so many that no run uses them up.
pub(crate) fn take_all(mut stdin: Stdin, names: &mut [u8], lent: &mut [u8]) {
    let mut state = summary::begin(names, lent);
    for _ in 0..u64::MAX {
        let mut chunk = io::buffer();
        let Ok(n) = stdin.read(&mut chunk) else {
            output::complain(b"treesum: reading failed\n");
            return;
        };
        if n == 0 {
            break;
        }
        state = summary::take(state, names, lent, &chunk[..n]);
    }
    let answer = summary::finish(state, names, lent);
    output::print_sheet(answer, lent);
}
