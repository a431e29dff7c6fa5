//! The catalogue of simple tilings, whether a tiling is one of its members, the tree of legal words, and what a search
//! for the members may pass over.
#![tactic(auto)]

mod corners;
mod cut_laws;
mod hanging_laws;
mod lines;
mod member_laws;
mod qualifying;
mod singles;
mod tally;
mod tree_laws;

pub use cut_laws::{
    even_squares_are_barren, one_segment_is_barren, one_under_one_is_barren,
    shorter_first_is_barren, too_many_lines_is_barren, too_many_singles_is_barren,
    too_many_to_close_is_barren,
};
pub use hanging_laws::{
    closings_are_hung, lines_are_hung, singles_are_hung, the_closing_bound_is_most,
    the_line_bound_is_most,
};
pub use lines::{begins_on_line, line_bound};
pub use member_laws::{corners_are_no_longer, each_simple_tiling_is_listed_once};
pub use qualifying::{is_simple_of, qualifies};
pub use singles::single_valleys;
pub use tally::{TALLY_LIMIT, closing_bound, first_over, unders_behind};
pub use tree_laws::{
    a_legal_word_is_one, at_least_adds, each_part_of_the_tree_has_a_count, the_tree_count_is_most,
    the_tree_count_is_one, tree_counts_add,
};
