//! The theory of a word's net: its one flow, and which flows place the word's squares.
#![tactic(auto)]

mod laws;

pub use laws::{
    a_flow_places_a_tiling, a_primitive_flow_is_a_primitive_tiling, a_word_has_one_flow,
    a_word_has_one_primitive_tiling, a_word_has_one_tiling, a_word_net_has_no_loose,
    a_word_net_is_the_smith_diagram, a_word_of_a_tiling_is_placed, laid_sides_are_a_flow,
};
