//! What is done for what is asked.

ghost use Rattle.std.specs.Prelude.{◌≡◌};
ghost use Rattle.bk_top.specs.Words.{work_asked};

use crate::listing::AskedListing;
use bk_alike::Wanted;
use bk_answer::{Command, MemoryCommand, PlainCommand};
use bk_ask::Ask;

// What a run does.
#[derive(Drop)]
pub enum Work {
    // It answers lines, each for itself.
    Lines(Command),
    // It lists a catalogue.
    Listing(AskedListing),
    // It tries codes.
    Trial { seed: u64, count: u32 },
    // It holds the lines against a catalogue.
    Verify { order: u8 },
    // It gathers the lines, and tells what it found behind them.
    Gather(Wanted),
    // It tells the text of `help`.
    Help,
}

// What is done for what is asked.
pub(crate) fn work_of(ask: Ask) -> Work
    ensures { result ≡ work_asked ask }
{
    match ask {
        Ask::Check => Work::Lines(Command::Plain(PlainCommand::Check)),
        Ask::Canon => Work::Lines(Command::Plain(PlainCommand::Canon)),
        Ask::Images => Work::Lines(Command::Plain(PlainCommand::Images)),
        Ask::Net => Work::Lines(Command::Plain(PlainCommand::Net)),
        Ask::Dual => Work::Lines(Command::Plain(PlainCommand::Dual)),
        Ask::Draw => Work::Lines(Command::Plain(PlainCommand::Draw)),
        Ask::Word => Work::Lines(Command::Memory(MemoryCommand::Word)),
        Ask::Flow => Work::Lines(Command::Memory(MemoryCommand::Flow)),
        Ask::Solve => Work::Lines(Command::Memory(MemoryCommand::Solve)),
        Ask::List {
            order,
            class,
            from,
            limit,
        } => Work::Listing(AskedListing {
            order,
            class,
            from,
            limit,
        }),
        Ask::Trial { seed, count } => Work::Trial { seed, count },
        Ask::Verify { order } => Work::Verify { order },
        Ask::Alike => Work::Gather(Wanted::Groups),
        Ask::Pair { kind } => Work::Gather(Wanted::Pairs(kind)),
        Ask::Help => Work::Help,
    }
}
