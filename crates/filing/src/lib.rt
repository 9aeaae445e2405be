// What the programs share that read and write files: files are read into lent memory, and written whole or not at all; lines wait in a
// buffer; what is refused is told on standard error; a collection is opened over the names in a file.
//
// What the system reads and writes cannot be promised. The contracts say how much of lent memory is used, and what is counted. A program
// gives its own name, with which some lines begin. The functions that programs call do not call each other: what several need is an inner
// function, and so a wrong answer of one is refused by that one alone.
//
//     within, numbers_within        so many elements of a list as there are
//     same, begins                  bytes compared
//     argument, arguments_within    an argument, and how many there are
//     name_at                       an argument that names a file
//     read_file                     a file, whole
//     begin_file, next_piece, read_rest     a file by pieces, or what is left of it
//     nothing_waits, put, put_counted, flush     lines that wait
//     tell_refused, tell_refused_argument        what is refused
//     put_verdicts, put_closing     the texts of a file that are refused
//     save_answer                   a file that is written
//     open_names                    a collection
//     exit_status                   how a program ends
#![tactic(auto)]

mod arguments;
mod collection;
mod ending;
mod failing;
mod parts;
mod reading;
mod saving;
mod telling;
mod waiting;

pub use arguments::{argument, arguments_within};
pub use collection::open_names;
pub use ending::{Done, exit_status};
pub use parts::{begins, numbers_within, same, within};
pub use reading::{Held, Source, begin_file, name_at, next_piece, read_file, read_rest};
pub use saving::save_answer;
pub use telling::{put_closing, put_verdicts, tell_refused, tell_refused_argument};
pub use waiting::{STDERR_FILENO, STDOUT_FILENO, Waiting, flush, nothing_waits, put, put_counted};
