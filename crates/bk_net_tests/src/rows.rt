//! The tables of rows, one module a subject, and what they share.

mod dual_rows;
mod elim_rows;
mod flow_rows;
mod form_cuts_rows;
mod forms_rows;
mod frac_rows;
mod lay_rows;
mod net_rows;
mod skel_realising_rows;
mod skel_rows;
mod texts;
mod tilings;
mod word_rows;
