//! The tables of rows, one module a subject, and what they share.

mod code_rows;
mod codes;
mod draw_rows;
mod gen_rows;
mod grammar_rows;
mod profile_rows;
mod simple_rows;
mod sym_rows;
mod text_rows;
mod tiling_rows;
mod tilings;
