// Runs the functions of `fields` and `masks` on values at their edges, and writes what each answers,
// one line each: the function's name, its arguments, `=` and the result, parted by one space. Numbers
// are decimal, a truth is 1 or 0, and a buffer is its bytes. The file `stdout` beside this folder is
// made by the independent program (tests/independent, `edges`).
#![tactic(auto)]

mod line;
mod numbers;
mod runs;
mod sets;

fn main() {
    numbers::every_number();
    runs::every_run();
    sets::every_set();
}
