//! The tables of rows, one module a subject, and what they share.

mod lines_rows;
mod ports_rows;
mod report_rows;
mod trial_rows;
mod walk_rows;
