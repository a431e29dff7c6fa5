//! What the words of a command line ask, and the text of `help`.
#![tactic(auto)]

ghost use Rattle.std.specs.Prelude.{IfNone, IfSome, [], codes, map, string_bytes, ◌∷◌, ◌≡◌, ◌≢◌};
ghost use Rattle.bk_ask.specs.Asked.{Asks, AsksNothing};
ghost use Rattle.bk_ask.specs.Help.{help_text, usage};

mod command_options;
mod laws;
mod options;
mod values;
mod words;

use bk_grammar::{AnswerBuffer, push_bytes};
pub use bk_pair::Kind;
use bk_word::{Class, Word};
use command_options::{listing, pair, trial, verify};
pub use laws::words_ask_one_thing;
use std::alloc::Global;
pub use words::words_of;

/// What a command line asks.
#[derive(Drop)]
pub enum Ask {
    /// Whether each code is that of a tiling, and what the tiling is.
    Check,
    /// The canonical code of each code.
    Canon,
    /// The eight images of each code.
    Images,
    /// The Smith diagram of each code.
    Net,
    /// The currents of each network.
    Flow,
    /// The word of each code.
    Word,
    /// The code of each word.
    Solve,
    /// A drawing of each code.
    Draw,
    /// The dual diagram of each code.
    Dual,
    /// The catalogue of an order, 2 to 16, and a class: what comes after a word of order at most 16, and at most so
    /// many entries.
    List {
        order: u8,
        class: Class,
        from: Option<Word>,
        limit: Option<u64>,
    },
    /// A line about so many trial codes, at most 100,000.
    Trial {
        seed: u64,
        count: u32,
    },
    /// What a list that others made lacks, repeats and has too much, held against the catalogue of an order, 2 to 16.
    Verify {
        order: u8,
    },
    /// The codes, grouped by the sizes of their canonical tilings.
    Alike,
    /// The pairs of rectangles of one size that are laid together to a square.
    Pair {
        kind: Kind,
    },
    /// The text of `help`.
    Help,
}

/// What the words of a command line ask, without the program's name. The first word is the command, one of those in the
/// text of `help`. Behind a command that has options come pairs of a name and a value, in any order and each name at
/// most once. Any other command stands alone.
///
/// `list` has `--order` with 2 to 16. It may have `--class` with `perfect`, `imperfect` or `simple`, and without it the
/// class is `perfect`; `--from` with the text of a word of order at most 16; and `--limit` with 0 to 1,000,000,000.
/// `trial` has `--seed` with 0 to 18,446,744,073,709,551,615 and `--count` with 0 to 100,000. `verify` has `--order`
/// with 2 to 16. `pair` may have `--kind` with `perfect` or `any`, and without it the kind is `perfect`. A number is
/// `0`, or digits without a leading 0 and without a sign.
///
/// `None` comes exactly where the words ask nothing. It takes no memory. The form is our own.
pub fn asked(alloc: Global, words: &[String]) -> Option<Ask>
    ensures some { IfSome result (Asks (map string_bytes words.now)) }
    ensures none { IfNone result (AsksNothing (map string_bytes words.now)) }
{
    let [command, options @ ..] = words else {
        return None;
    };
    match command.as_str() {
        "list" => listing(alloc, options),
        "trial" => trial(options),
        "verify" => verify(options),
        "pair" => pair(options),
        name if options.is_empty() => command_alone(name),
        _ => None,
    }
}

// What a command asks that stands alone. `pair` may stand alone too, and isn't looked for here.
#[tactic(auto, using(crate::proofs::Unasked::asks_alone))]
fn command_alone(name: &str) -> Option<Ask>
    requires { name.now ≢ codes "pair" }
    ensures some { IfSome result (Asks (name.now ∷ [])) }
    ensures none { IfNone result (AsksNothing (name.now ∷ [])) }
{
    match name {
        "check" => Some(Ask::Check),
        "canon" => Some(Ask::Canon),
        "images" => Some(Ask::Images),
        "net" => Some(Ask::Net),
        "flow" => Some(Ask::Flow),
        "word" => Some(Ask::Word),
        "solve" => Some(Ask::Solve),
        "draw" => Some(Ask::Draw),
        "dual" => Some(Ask::Dual),
        "alike" => Some(Ask::Alike),
        "help" => Some(Ask::Help),
        _ => None,
    }
}

// How a command line is built.
const USAGE: &[u8] = b"usage: bouwkamp COMMAND [--NAME VALUE]...\n";

// Each command with what it does.
const COMMANDS: &[u8] = b"\
check: test each code\n\
canon: canonical code of each code\n\
images: the eight images of each code\n\
net: Smith diagram of each code\n\
flow: currents of each network\n\
word: word of each code\n\
solve: code of each word\n\
draw: drawing of each code\n\
list --order N [--class CLASS] [--from WORD] [--limit K]: catalogue of an order\n\
trial --seed S --count C: trial codes\n\
dual: dual diagram of each code\n\
verify --order N: hold a list against the catalogue\n\
alike: group codes by size\n\
pair [--kind KIND]: join rectangles to squares\n\
help: this text\n";

/// Clears the buffer and leaves a line that says how a command line is built. The text is our own.
pub fn write_usage(out: &mut AnswerBuffer)
    ensures { out.new.items ≡ usage }
{
    out.clear();
    push_bytes(USAGE, out);
}

/// Clears the buffer and leaves the text of `help`: how a command line is built, and a line for each command. The text
/// is our own.
pub fn write_help(out: &mut AnswerBuffer)
    ensures { out.new.items ≡ help_text }
{
    write_usage(out);
    push_bytes(COMMANDS, out);
}
