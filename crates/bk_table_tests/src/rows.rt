//! The tables of rows, one module a subject, and what they share.

mod leaf_rows;
mod member_rows;
mod plain_walk;
mod search_rows;
mod square_rows;
mod walk_rows;
