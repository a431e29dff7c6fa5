//! The texts of answers. A function that writes one clears the buffer, and leaves the line in it with its line feed.
//! Codes are in Bouwkamp's notation (1946-47); the texts around them are this project's own.
#![tactic(auto)]

mod answer;
mod dual;
mod flow;
mod laws;
mod list_reports;
mod listing_lines;
mod net;
mod refusal;
mod template;
mod trial;
mod word;

pub use answer::{write_check, write_tiling};
pub use dual::{LONGEST_DUAL_LINE, write_dual};
pub use flow::write_flow;
pub use laws::{a_tiling_has_one_check_line, a_written_entry_is_read};
pub use list_reports::{
    ReportCounts, write_alike, write_foreign, write_group, write_line_refused, write_member,
    write_missing, write_pair, write_pairs, write_repeats, write_verified,
};
pub use listing_lines::{Last, write_entry, write_last};
pub use net::write_net;
pub use refusal::{Refused, write_refused};
pub use trial::{TrialCounts, write_trial};
pub use word::write_word_line;
