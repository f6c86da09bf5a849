// The calls for programs in C and Rust: each is a core call, its answer told as a code and a row of numbers.
// A call asks nothing of its caller. `export_c` makes the static library of them.
#![tactic(auto)]

pub mod frame;
pub mod read_out;
pub mod reader;
mod row;
pub mod spreading;
pub mod text;
