//! The tables of rows, one module a subject, and what they share.

mod alike_rows;
mod groups_rows;
mod library_rows;
mod pair_rows;
mod tilings;
mod verify_rows;
mod verifying_rows;
