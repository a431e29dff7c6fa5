//! The sides of a line that is read.

ghost use Rattle.std.specs.Prelude.{IfErr, IfOk, OnErr, Some, false, true, length, take, ◌<◌, ◌≡◌, ◌≤◌};
ghost use Rattle.std.specs.Option.{ForSome};
ghost use Rattle.bk_text.specs.GatheredSides.{Gathered};
ghost use Rattle.bk_text.specs.Onward.{BeginsFieldNumber, onward};
ghost use Rattle.bk_text.specs.LineReader.{most};
ghost use Rattle.bk_tiling.specs.KeptTiling.{IsSide};

use crate::reader::{Bracket, ByteKind, Ending, Field, Header, Place, kind_of};
use crate::sides::{SideInFront, number_in_front, side_in_front};
use crate::{Line, TextFault};
use arrayvec::ArrayVec;
use bk_code::{Code, LARGEST_HEADER_NUMBER, flat};
use bk_tiling::MOST_SQUARES;
use std::marker::Model;

/// What is gathered of a line that is read: the groups that were closed and the sides of the open group or of the table
/// row, the first 200 sides in all, and whether there were more.
#[derive(Drop)]
pub struct Gatherer {
    code: Code,
    sides: ArrayVec<u64, MOST_SQUARES>,
    many: bool,
}

impl Model for Gatherer {
    ghost use Rattle.bk_text.specs.GatheredSides.{Gathered, IsGathered};

    ghost Value = { Gathered };

    ghost view = { λ g. record { groups = g.code; sides = g.sides.items; many = g.many } };

    ghost invariant = { λ g. IsGathered (record { groups = g.code; sides = g.sides.items; many = g.many }) };
}

impl Gatherer {
    ghost use Rattle.bk_text.specs.GatheredSides.{IsGathered, gathered_after, line_gathered, nothing_gathered};
    ghost use Rattle.bk_text.specs.GatheredSides.{with_gathered_side};
    ghost use Rattle.bk_text.specs.GatheredSides.{with_group, with_ended};
    ghost use Rattle.bk_text.specs.Onward.{OpensGroup, behind_sides, onward};
    ghost use Rattle.bk_text.specs.declared.reader.Header.{Header};
    ghost use Rattle.bk_text.specs.declared.reader.Place.TheVariants.{BeforeSide};
    ghost use Rattle.bk_text.specs.LineReader.{closes_group, ended_side, last_side};
    ghost use Rattle.bk_text.specs.ReadLine.{sides_of_line, stands_for};

    /// Nothing is gathered.
    pub fn new() -> Gatherer
        ensures { result ≡ nothing_gathered }
    {
        Gatherer {
            code: Code::new(),
            sides: ArrayVec::new(),
            many: false,
        }
    }

    /// The groups that were closed.
    pub fn code(&self) -> &Code
        ensures { result.now ≡ self.now.groups }
    {
        &self.code
    }

    /// The sides of the open group, or of the table row.
    pub fn sides(&self) -> &[u64]
        ensures { result.now ≡ self.now.sides }
    {
        self.sides.as_slice()
    }

    // Takes away all that was gathered.
    pub(crate) fn clear(&mut self)
        ensures { self.new ≡ nothing_gathered }
    {
        self.code.clear();
        self.sides.clear();
        self.many = false;
    }

    // Takes the side that ends before a byte, and closes the group that the byte closes.
    pub(crate) fn take(&mut self, place: Place, kind: ByteKind)
        requires side { ForSome (ended_side place kind) IsSide }
        requires group { closes_group place kind ≡ true → (with_ended (ended_side place kind) self.old).many ≡ false
            → 0 < length (with_ended (ended_side place kind) self.old).sides }
        ensures after { self.new ≡ gathered_after place kind self.old }
        ensures was { IsGathered self.old }
    {
        let _ = &self.many;
        if let Some(side) = place.ended_side(kind) {
            self.add_side(side);
        }
        if place.closes_group(kind) {
            self.close_group();
        }
    }

    // Takes several bytes at once: a number of the header with the byte behind it, the bracket that opens a group, the
    // sides of the group with the commas and the bracket right behind them, and behind the `;` of a comment all bytes.
    // The place moves behind them. Tells how many bytes they are.
    pub(crate) fn take_ahead(&mut self, place: &mut Place, bytes: &[u8]) -> usize
        ensures within { result ≤ length bytes.now }
        ensures leads { onward (take result bytes.now) place.old self.old ≡ Some (place.new, self.new) }
        ensures was { IsGathered self.old }
    {
        let _ = &self.many;
        match *place {
            Place::BeforeSide(header, bracket) => {
                let (taken, closed) = self.take_group(bracket, bytes);
                if closed {
                    *place = Place::BehindGroup(header);
                }
                taken
            }
            Place::BeforeGroup(header) | Place::BehindGroup(header) => {
                self.take_next_group(place, header, bytes)
            }
            Place::Start => take_number(place, Field::First, bytes),
            Place::BehindFirst(order) => take_number(place, Field::Second(order), bytes),
            Place::BeforeHeight(order, width) => {
                take_number(place, Field::Height(order, width), bytes)
            }
            Place::Comment(_) => bytes.len(),
            _ => 0,
        }
    }

    // Takes the bracket in front of bytes that opens a group, and the sides behind it as `take_group` does. Tells how
    // many bytes they are.
    fn take_next_group(&mut self, place: &mut Place, header: Header, bytes: &[u8]) -> usize
        requires { OpensGroup place.old header }
        ensures within { result ≤ length bytes.now }
        ensures leads { onward (take result bytes.now) place.old self.old ≡ Some (place.new, self.new) }
    {
        if bytes.is_empty() {
            return 0;
        }
        let ByteKind::Open(bracket) = kind_of(bytes[0]) else {
            return 0;
        };
        let (taken, closed) = self.take_group(bracket, &bytes[1..]);
        *place = if closed {
            Place::BehindGroup(header)
        } else {
            Place::BeforeSide(header, bracket)
        };
        taken + 1
    }

    // Takes the sides in front of bytes of a group that such a bracket opened. Tells how many bytes they are with the
    // commas and the bracket right behind them, and whether this bracket was among them.
    fn take_group(&mut self, bracket: Bracket, bytes: &[u8]) -> (usize, bool)
        ensures within { result.0 ≤ length bytes.now }
        ensures leads { (header : Header)
            → onward (take result.0 bytes.now) (BeforeSide header bracket) self.old
            ≡ Some (behind_sides header bracket result.1, self.new) }
    {
        let mut taken = 0;
        'sides: while taken < bytes.len() {
            match side_in_front(bracket, &bytes[taken..]) {
                SideInFront::Inner { side, len } => {
                    self.add_side(side);
                    taken += len;
                }
                SideInFront::Last { side, len } => {
                    self.add_side(side);
                    self.close_group();
                    return (taken + len, true);
                }
                SideInFront::Other => return (taken, false),
            }
        }
        (taken, false)
    }

    // Takes the side that ends with the line.
    pub(crate) fn take_last(&mut self, place: Place)
        requires { ForSome (last_side place) IsSide }
        ensures after { self.new ≡ with_ended (last_side place) self.old }
        ensures was { IsGathered self.old }
    {
        let _ = &self.many;
        if let Some(side) = place.last_side() {
            self.add_side(side);
        }
    }

    // The given ending of a line if no side was left out, and otherwise that the line has too many.
    pub(crate) fn ended(&self, ending: Ending) -> Result<Ending, TextFault>
        ensures few { IfOk result (λ e. (e ≡ ending) × (self.now.many ≡ false)) }
        ensures fits { IfOk result (λ e. length (sides_of_line (line_gathered e self.now)) ≤ MOST_SQUARES) }
        ensures many { IfErr result (λ fault. fault ≡ TextFault.Many) }
        ensures full { OnErr result (self.now.many ≡ true) }
    {
        if self.many {
            return Err(TextFault::Many);
        }
        Ok(ending)
    }

    // What a line with this ending stands for, whose groups and sides were gathered.
    pub(crate) fn finish(self, ending: Ending) -> Line
        ensures { stands_for result ≡ line_gathered ending self }
    {
        match ending {
            Ending::Empty => Line::Skip,
            Ending::Coded(header) => Line::Item {
                order: header.order,
                size: header.size,
                code: self.code,
            },
            Ending::Row(table) => Line::Flat {
                order: table.order,
                width: table.width,
                height: table.height,
                sides: self.sides,
            },
        }
    }

    // Adds a side, which is kept where there is room.
    fn add_side(&mut self, side: u64)
        requires { IsSide side }
        ensures { self.new ≡ with_gathered_side side self.old }
    {
        if flat(&self.code).len() + self.sides.len() < MOST_SQUARES {
            self.sides.push(side);
        } else {
            self.many = true;
        }
    }

    // Closes the open group, which must have a side.
    fn close_group(&mut self)
        requires { self.old.many ≡ false → 0 < length self.old.sides }
        ensures { self.new ≡ with_group self.old }
    {
        if !self.many {
            self.code.add_group(&self.sides);
            self.sides.clear();
        }
    }
}

// Takes the number of this field in front of bytes with the byte behind it, if a header goes on so. Tells how many
// bytes they are.
fn take_number(place: &mut Place, field: Field, bytes: &[u8]) -> usize
    requires first { BeginsFieldNumber place.old field }
    requires header { most field ≡ LARGEST_HEADER_NUMBER }
    ensures within { result ≤ length bytes.now }
    ensures leads { (g : Gathered) → onward (take result bytes.now) place.old g ≡ Some (place.new, g) }
{
    let (number, digits) = number_in_front(LARGEST_HEADER_NUMBER, bytes);
    if number == 0 || digits >= bytes.len() {
        return 0;
    }
    match field.behind(number, kind_of(bytes[digits])) {
        Some(next) => {
            *place = next;
            digits + 1
        }
        None => 0,
    }
}
