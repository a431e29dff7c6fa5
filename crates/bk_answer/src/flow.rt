//! The answer to a network line.

ghost use Rattle.std.specs.Prelude.{length, ◌<◌, ◌≡◌};
ghost use Rattle.bk_ports.specs.Causes.{HasCause};
ghost use Rattle.bk_net.specs.Net.{HasNoLoose};
ghost use Rattle.bk_flow.specs.declared.TheConstants.{MOST_SMALL_WIRES};
ghost use Rattle.bk_answer.specs.Answer.{MayWant};
ghost use Rattle.bk_answer.specs.NetAnswer.{AnswersNet, AnswersNetLine, refused_net};
ghost use Rattle.bk_answer.specs.Replies.{IsReplyWith};
ghost use Rattle.bk_answer.specs.declared.command.Command.TheVariants.{Memory};
ghost use Rattle.bk_answer.specs.declared.command.MemoryCommand.TheVariants.{Flow};

use crate::answer::{accepted, refuse};
use bk_flow::{FlowFault, solve};
use bk_grammar::AnswerBuffer;
use bk_net::{Net, NetFault, NetLine, read_net};
use bk_ports::{Failed, LONGEST_LINE, Outcome, Sink};
use bk_report::{Refused, write_flow};
use std::alloc::Global;

// Answers a network line.
pub(crate) fn answer_net_line<O: Sink>(
    alloc: Global,
    line: &[u8],
    buffer: &mut AnswerBuffer,
    out: &mut O,
) -> Result<Outcome, Failed>
    ensures reply { IsReplyWith (AnswersNetLine line.now) (MayWant (Memory Flow) line.now) (O.written out.old)
        (O.written out.new) result }
    ensures cause { HasCause (O.faults out.old) (O.faults out.new) result }
{
    if line.len() > LONGEST_LINE {
        return refuse(Refused::Long, buffer, out);
    }
    match read_net(line) {
        Ok(NetLine::Skip) => Ok(Outcome::Accepted),
        Ok(NetLine::Item { net }) => answer_net(alloc, &net, buffer, out),
        Err(fault) => refuse(refused_net(&fault), buffer, out),
    }
}

// Answers a net by its flow.
fn answer_net<O: Sink>(
    alloc: Global,
    net: &Net,
    buffer: &mut AnswerBuffer,
    out: &mut O,
) -> Result<Outcome, Failed>
    ensures reply { IsReplyWith (AnswersNet net.now) (HasNoLoose net.now × (MOST_SMALL_WIRES < length net.now.wires))
        (O.written out.old) (O.written out.new) result }
    ensures cause { HasCause (O.faults out.old) (O.faults out.new) result }
{
    match solve(alloc, net) {
        Ok(flow) => {
            write_flow(&flow, buffer);
            accepted(out.write_all(buffer.as_slice()))
        }
        Err(FlowFault::Loose { node }) => refuse(Refused::Loose { node }, buffer, out),
        Err(FlowFault::Wide) => refuse(Refused::Wide, buffer, out),
        Err(FlowFault::NoMemory) => Ok(Outcome::NoMemory),
    }
}

// What is answered to bytes that give no net.
fn refused_net(fault: &NetFault) -> Refused
    ensures { result ≡ refused_net fault.now }
{
    match *fault {
        NetFault::Text { at } => Refused::Text { at },
        NetFault::Many => Refused::Many,
        NetFault::Nodes { count } => Refused::Nodes { count },
        NetFault::Wire { place } => Refused::Wire { place },
    }
}
