//! What a command answers to a line.
#![tactic(auto)]

mod answer;
mod by_word;
mod command;
mod flow;
mod images_and_drawing;
mod items;
mod laws;
mod plain;
mod solve;

pub use answer::MemoryAnswerer;
pub use command::{Command, MemoryCommand};
pub use items::{Desk, lay_line};
pub use laws::{a_front_has_the_answer, a_line_has_one_answer, check_accepts_tilings};
pub use plain::{PlainAnswerer, PlainCommand};
