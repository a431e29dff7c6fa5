//! The primitive tiling of a word, from the flow of its net.

ghost use Rattle.std.specs.List.{AllByRecursion};
ghost use Rattle.std.specs.Prelude.{All, Any, IfErr, IfNone, IfOk, IfSome, IsErr, IsOk, IsTrue, OnOk, length, map};
ghost use Rattle.std.specs.Prelude.{nat_abs, pos};
ghost use Rattle.std.specs.Prelude.{◌<◌, ◌↔◌, ◌≡◌, ◌≤◌, ◌≤ℤ◌};
ghost use Rattle.bk_net.specs.Flow.{IsPrimitiveFlow};
ghost use Rattle.bk_tiling.specs.KeptTiling.{IsSide};
ghost use Rattle.bk_word.specs.Play.{IsComplete, IsLegal};
ghost use Rattle.bk_word.specs.Word.{order_of};
ghost use Rattle.bk_skel.specs.RealisedIn.{tiling_found};
ghost use Rattle.bk_skel.specs.SolveRefusal.{IsFirstIllegal, IsSolveFault};
ghost use Rattle.bk_word_net.specs.Realised.{IsRealised};
ghost use Rattle.bk_skel.specs.WideWord.{HasLargeCurrent, IsWideWord};
ghost use Rattle.bk_word_net.specs.WordNet.{net_of_word};
ghost use Rattle.bk_word.specs.declared.TheConstants.{INLINE_ORDER};
ghost use Rattle.bk_tiling.specs.declared.TheConstants.{LONGEST_SIDE, MOST_SQUARES};

use crate::placing::{LayingRoom, Realised, place};
use arrayvec::ArrayVec;
use bk_flow::{Flow, FlowFault, MOST_SMALL_WIRES, NarrowFlow, narrow_flow, solve};
use bk_frac::Wide;
use bk_play::Skel;
use bk_tiling::{LONGEST_SIDE, MOST_SQUARES, Tiling};
use bk_word::Word;
use std::alloc::Global;

/// Why a word has no answer.
#[derive(Clone, Copy, Debug, PartialEq, Eq)]
pub enum SolveFault {
    /// The move at this place, from 1, is the first that is not legal after those before it.
    Illegal { place: usize },
    /// All moves are legal, and more than one segment is left.
    OpenEnd,
    /// The stated elimination of the word's net writes a number that passes 2^127 - 1 in magnitude, or a current of its
    /// primitive flow is 1,000,000,000,000,000 or more in magnitude.
    Wide,
    /// There is no memory left.
    NoMemory,
}

/// The primitive tiling whose word is the list of moves of a closed skeleton of at most 16 squares: no other has this
/// word (Brooks, Smith, Stone and Tutte 1940). `None` comes exactly where the word isn't wide and no tiling has it.
/// `Wide` comes exactly where the word is wide (the limit is our own), which no such word is (`no_small_word_is_wide`).
/// It takes no memory.
pub fn realise_small(skel: &Skel) -> Result<Option<Tiling>, Wide>
    requires closed { IsComplete skel.now }
    requires few { order_of skel.now ≤ INLINE_ORDER }
    ensures realised { IfOk result (IsRealised skel.now) }
    ensures wide { IsErr result ↔ IsWideWord skel.now }
    ensures narrow { IsOk result }
{
    Ok(realise_by(skel, &flow_of(skel)))
}

/// The primitive flow of the net of a closed skeleton's word of at most 16 squares. It takes no memory, and no room for
/// a tiling.
pub fn flow_of(skel: &Skel) -> NarrowFlow
    requires closed { IsComplete skel.now }
    requires few { order_of skel.now ≤ INLINE_ORDER }
    ensures { IsPrimitiveFlow (net_of_word skel.now) result.total result.currents }
{
    narrow_flow(&skel.net())
}

// What `realise_small` answers, from the flow that `flow_of` gives: the primitive tiling of the word, or `None` where
// no tiling has it.
fn realise_by(skel: &Skel, flow: &NarrowFlow) -> Option<Tiling>
    requires closed { IsComplete skel.now }
    requires flow { IsPrimitiveFlow (net_of_word skel.now) flow.now.total flow.now.currents }
    ensures { IsRealised skel.now result }
{
    let mut laying = LayingRoom::new();
    let mut tiling = Tiling::unit();
    match realise_by_in(skel, flow, &mut laying, &mut tiling) {
        Realised::Found => Some(tiling),
        Realised::Nothing => None,
    }
}

/// The primitive tiling of the word, from the flow that `flow_of` gives, in room that is there, for the laying and for
/// the tiling. `Found` comes exactly where there is a tiling, which stands in `tiling` then; after `Nothing` what
/// stands there says nothing. What stands in `laying`, before or after, says nothing.
pub fn realise_by_in(
    skel: &Skel,
    flow: &NarrowFlow,
    laying: &mut LayingRoom,
    tiling: &mut Tiling,
) -> Realised
    requires closed { IsComplete skel.now }
    requires flow { IsPrimitiveFlow (net_of_word skel.now) flow.now.total flow.now.currents }
    ensures { IsRealised skel.now (tiling_found result tiling.new) }
{
    match sides_of_few(flow.currents()) {
        Some(sides) => place(skel, &sides, laying, tiling),
        None => Realised::Nothing,
    }
}

/// Room in which words are realised one after another. What stands in it after a word says nothing.
#[derive(Drop)]
pub struct Room {
    skel: Skel,
    laying: LayingRoom,
}

impl Room {
    /// Room for one word at a time.
    pub fn new() -> Room {
        Room {
            skel: Skel::new(),
            laying: LayingRoom::new(),
        }
    }
}

/// The primitive tiling that has a word of at least one move; no other has it (Brooks, Smith, Stone and Tutte 1940). It
/// is refused with the first of these that holds: a move is illegal; more than one segment is left; there is no memory,
/// never at 16 squares or fewer; the word is wide. `None` comes exactly where the word is complete and not wide, and no
/// tiling has it. The limit at which a word is wide is our own.
pub fn realise(alloc: Global, word: &Word) -> Result<Option<Tiling>, SolveFault>
    requires { 0 < length word.now }
    ensures complete { OnOk result (IsComplete word.now) }
    ensures narrow { OnOk result (¬ (IsWideWord word.now)) }
    ensures realised { IfOk result (IsRealised word.now) }
    ensures refused { IfErr result (IsSolveFault word.now) }
{
    let mut room = Room::new();
    let mut tiling = Tiling::unit();
    match realise_in(alloc, word, &mut room, &mut tiling) {
        Ok(Realised::Found) => Ok(Some(tiling)),
        Ok(Realised::Nothing) => Ok(None),
        Err(fault) => Err(fault),
    }
}

/// What `realise` answers for a word of at least one move, in room that is there. If a tiling is found it stands in
/// `tiling` then; if not, what stands there says nothing.
pub fn realise_in(
    alloc: Global,
    word: &Word,
    room: &mut Room,
    tiling: &mut Tiling,
) -> Result<Realised, SolveFault>
    requires { 0 < length word.now }
    ensures complete { OnOk result (IsComplete word.now) }
    ensures narrow { OnOk result (¬ (IsWideWord word.now)) }
    ensures realised { IfOk result (λ found. IsRealised word.now (tiling_found found tiling.new)) }
    ensures refused { IfErr result (IsSolveFault word.now) }
{
    if let Err(place) = play_word(&mut room.skel, word) {
        return Err(SolveFault::Illegal { place });
    }
    if !room.skel.is_closed() {
        return Err(SolveFault::OpenEnd);
    }
    if room.skel.order() > MOST_SMALL_WIRES {
        return realise_in_memory(alloc, &room.skel, &mut room.laying, tiling);
    }
    Ok(realise_few(&room.skel, &mut room.laying, tiling))
}

/// The skeleton of a word: its moves, played one after the other. Where they are not all legal, the number of the first
/// that isn't, from 1.
pub fn skeleton_of(word: &Word) -> Result<Skel, usize>
    ensures skeleton { IfOk result (λ skel. skel ≡ word.now) }
    ensures legal { OnOk result (IsLegal word.now) }
    ensures illegal { IfErr result (IsFirstIllegal word.now) }
{
    let mut skel = Skel::new();
    play_word(&mut skel, word)?;
    Ok(skel)
}

// Makes a skeleton that of a word. Where its moves are not all legal, the number of the first that isn't, from 1.
fn play_word(skel: &mut Skel, word: &Word) -> Result<(), usize>
    ensures skeleton { OnOk result (skel.new ≡ word.now) }
    ensures legal { OnOk result (IsLegal word.now) }
    ensures illegal { IfErr result (IsFirstIllegal word.now) }
{
    skel.clear();
    for i in 0..word.moves() {
        let m = word.get(i);
        if !skel.legal(&m) {
            return Err(i + 1);
        }
        skel.play(&m);
    }
    Ok(())
}

// What the flow of a word's net makes of a closed skeleton of at most 16 squares.
fn realise_few(skel: &Skel, laying: &mut LayingRoom, tiling: &mut Tiling) -> Realised
    requires closed { IsComplete skel.now }
    requires few { order_of skel.now ≤ INLINE_ORDER }
    ensures { IsRealised skel.now (tiling_found result tiling.new) }
{
    realise_by_in(skel, &flow_of(skel), laying, tiling)
}

// What a closed skeleton is realised as, whose net is solved in memory where it has more than 16 squares.
fn realise_in_memory(
    alloc: Global,
    skel: &Skel,
    laying: &mut LayingRoom,
    tiling: &mut Tiling,
) -> Result<Realised, SolveFault>
    requires closed { IsComplete skel.now }
    ensures narrow { OnOk result (¬ (IsWideWord skel.now)) }
    ensures realised { IfOk result (λ found. IsRealised skel.now (tiling_found found tiling.new)) }
    ensures refused { IfErr result (IsSolveFault skel.now) }
{
    let flow = match solve(alloc, &skel.net()) {
        Ok(flow) => flow,
        Err(FlowFault::NoMemory) => return Err(SolveFault::NoMemory),
        Err(FlowFault::Wide) => return Err(SolveFault::Wide),
        Err(FlowFault::Loose { node: _ }) => unreachable!(),
    };
    match realised(skel, &flow, laying, tiling) {
        Ok(found) => Ok(found),
        Err(Wide) => Err(SolveFault::Wide),
    }
}

// What a flow of a word's net makes of the word.
fn realised(
    skel: &Skel,
    flow: &Flow,
    laying: &mut LayingRoom,
    tiling: &mut Tiling,
) -> Result<Realised, Wide>
    requires closed { IsComplete skel.now }
    requires flow { IsPrimitiveFlow (net_of_word skel.now) flow.now.total flow.now.currents }
    ensures realised { IfOk result (λ found. IsRealised skel.now (tiling_found found tiling.new)) }
    ensures wide { IsErr result ↔ HasLargeCurrent (net_of_word skel.now) }
{
    let currents = flow.currents();
    if has_large(currents) {
        return Err(Wide);
    }
    match sides_of(currents) {
        Some(sides) => Ok(place(skel, &sides, laying, tiling)),
        None => Ok(Realised::Nothing),
    }
}

// Whether a current is too large for a side, in magnitude.
fn has_large(currents: &[i128]) -> bool
    ensures { IsTrue result ↔ Any (λ c. LONGEST_SIDE < nat_abs c) currents.now }
{
    currents.iter().any(|current| current.unsigned_abs() > u128::from(LONGEST_SIDE))
}

// The currents as sides, where each is at least 1.
fn sides_of(currents: &[i128]) -> Option<ArrayVec<u64, MOST_SQUARES>>
    requires few { length currents.now ≤ MOST_SQUARES }
    requires small { All (λ c. nat_abs c ≤ LONGEST_SIDE) currents.now }
    ensures sides { IfSome result (λ s. AllByRecursion IsSide s.items) }
    ensures currents { IfSome result (λ s. currents.now ≡ map pos s.items) }
    ensures none { IfNone result (¬ (AllByRecursion (λ c. pos 1 ≤ℤ c) currents.now)) }
{
    let mut sides = ArrayVec::new();
    for current in currents {
        if *current < 1 {
            return None;
        }
        sides.push(*current as u64);
    }
    Some(sides)
}

// The currents of few squares as sides, where each is at least 1.
fn sides_of_few(currents: &[i64]) -> Option<ArrayVec<u64, MOST_SMALL_WIRES>>
    requires few { length currents.now ≤ INLINE_ORDER }
    requires small { All (λ c. nat_abs c ≤ LONGEST_SIDE) currents.now }
    ensures sides { IfSome result (λ s. AllByRecursion IsSide s.items) }
    ensures currents { IfSome result (λ s. currents.now ≡ map pos s.items) }
    ensures none { IfNone result (¬ (AllByRecursion (λ c. pos 1 ≤ℤ c) currents.now)) }
{
    let mut sides = ArrayVec::new();
    for current in currents {
        if *current < 1 {
            return None;
        }
        sides.push(*current as u64);
    }
    Some(sides)
}
