//! The tables of rows, one module a subject, and what they share.

mod ask_rows;
mod call_rows;
mod command_runs;
mod command_words;
mod example_rows;
mod limit_rows;
mod line_rows;
mod list_rows;
mod listing_rows;
mod reads_rows;
