//! The catalogue of simple tilings: tables of the words of its members, found by their nets, and the walk through it,
//! from member to member.
#![tactic(auto)]

mod finding;
mod leaping;
mod member_table;
mod next_member;
mod table_answer;
mod walk;

pub use bk_members::{Entry, Members, WideAt};
pub use member_table::MemberTable;
pub use table_answer::MOST_MEMBERS;
pub use walk::{TabledWalk, Walk};
