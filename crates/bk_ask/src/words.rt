//! The words of a command line.

ghost use Rattle.std.specs.Prelude.{IfOk, drop, ◌≡◌};
ghost use Rattle.std.specs.Vec.Iter.{into_iter_items};

use std::alloc::{AllocError, Global};
use std::env::Args;

/// The words of a command line: the arguments of the process but the first, which is the program's name, each as it is
/// and in their order. Memory may be wanting for them.
pub fn words_of(alloc: Global, mut args: Args) -> Result<Vec<String>, AllocError>
    ensures { IfOk result (λ words. words.items ≡ drop 1 (into_iter_items args)) }
{
    let _name = args.next();
    let mut words = Vec::new(alloc);
    for word in args {
        words.push(word)?;
    }
    Ok(words)
}
