// The static library for programs in C and Rust: each call of `export`, under its name and with its clauses, as an export.
// An export asks nothing of its caller but slices that are there: bindings/c/morelbarrel.h says what they are, and sees to null pointers.
#![tactic(auto)]

pub mod frame;
pub mod read_out;
pub mod reader;
pub mod spreading;
pub mod text;
