//! How many moves the walk through a whole catalogue pushes that makes no table of members, for the figures of
//! `bench/`: a line for each order among the words of the command line, in the class perfect. Words that are no order
//! from 2 to 16 are passed over.
#![tactic(auto)]

ghost use Rattle.std.specs.Prelude.{◌<◌, ◌≡◌, ◌≤◌};
ghost use Rattle.bk_word.specs.declared.TheConstants.{LARGEST_LISTED_ORDER, LEAST_LISTED_ORDER};

use bk_play::Steps;
use bk_walk::{MOST_MEMBERS, TabledWalk};
use bk_word::{Class, LARGEST_LISTED_ORDER};
use std::alloc::Global;
use std::marker::Brand;
use std::sync::ledger::{Blank, Ledger};
use std::{env, io};

fn main(rt: HostRuntime) -> io::Result<()> {
    for word in env::args(&rt)?.skip(1) {
        match word.as_str().parse::<u8>() {
            Ok(order) if order >= 2 && usize::from(order) <= LARGEST_LISTED_ORDER => {
                let (members, pushes) = counted(rt.alloc(), order);
                println!(rt; "{order} {members} {pushes}")?;
            }
            _ => {}
        }
    }
    Ok(())
}

// How many members the catalogue of an order has, and how many moves are pushed to find them all.
fn counted(alloc: Global, order: u8) -> (u64, u64)
    requires least { LEAST_LISTED_ORDER ≤ order }
    requires most { order ≤ LARGEST_LISTED_ORDER }
{
    walked::<Brand>(alloc, order, Blank::new(1))
}

// How many members a walk of the order gives, and how many moves it pushes.
fn walked<L: Ledger>(alloc: Global, order: u8, blank: Blank) -> (u64, u64)
    requires least { LEAST_LISTED_ORDER ≤ order }
    requires most { order ≤ LARGEST_LISTED_ORDER }
    requires name { blank.name ≡ L.name }
    requires parts { blank.parts ≡ L.parts }
    requires some { 0 < L.parts }
{
    let mut steps = Steps::<L>::new(blank);
    let mut walk = TabledWalk::<0>::new(alloc, order, Class::Perfect, None);
    let most = MOST_MEMBERS as u64;
    for members in 0..most {
        match walk.advance(&mut steps) {
            Some(Ok(_)) => {}
            Some(Err(_)) => unreachable!(),
            None => return (members, walk.pushes()),
        }
    }
    (most, walk.pushes())
}
