// Every call of the library for programs in C and Rust: include/jakkuhyeon.h declares them, docs/LIBRARY.md is for their users. A slice is
// passed as a pointer and a number of elements, an answer is a number or a struct of numbers. Each call bears the name of the library's
// function behind `jakku_`, or `jakku_summary_` where it is one of crate summary; it has its whole promise, and like it asks nothing of what
// it is given.
//
// Read `specs/Answers.antt` for what the numbers of an answer stand for.
#![tactic(auto)]

mod comparisons;
mod feeds;
mod files;
mod given;
mod meant;
mod openings;
mod questions;
mod sheets;
mod texts;
