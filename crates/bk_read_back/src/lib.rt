//! Laws: what `list` and `net` write is read again, and members have small sides.
#![tactic(auto)]

mod laws;

pub use laws::{
    a_list_is_accepted, a_listed_entry_is_read, a_smith_diagram_is_read, a_written_net_is_read,
    members_are_small, the_sides_are_found,
};
