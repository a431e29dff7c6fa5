//! Reading the text of a word byte by byte.
#![tactic(auto)]

ghost use Rattle.std.specs.Prelude.{◌≡◌};
ghost use Rattle.bk_word.specs.WordReading.{may_end as may_end_at, next_word_place, word_kind_of as kind_of_byte};

use crate::Sign;

/// What a byte is to the grammar of words; a digit with its value.
#[derive(Clone, Copy)]
pub enum ByteKind {
    Digit(u8),
    Letter(Sign),
    Dot,
    Other,
}

/// Where the reader of a word stands.
#[derive(Clone, Copy)]
pub enum Place {
    /// At the start, or behind a dot: a count must come.
    BeforeCount,
    /// Behind a digit of a count, with its value so far.
    InCount(u16),
    /// Behind a letter: how many more must come, and how many may come.
    InSigns(u16, u16),
}

// What a byte is to the grammar.
pub(crate) fn kind_of(byte: u8) -> ByteKind
    ensures { result ≡ kind_of_byte byte }
{
    match byte {
        b'0'..=b'9' => ByteKind::Digit(byte - b'0'),
        b'a' => ByteKind::Letter(Sign::Above),
        b'e' => ByteKind::Letter(Sign::Even),
        b'u' => ByteKind::Letter(Sign::Under),
        b'.' => ByteKind::Dot,
        _ => ByteKind::Other,
    }
}

impl Place {
    // The place behind a further byte, or `None` where no word goes on with it.
    pub(crate) fn next(self, kind: ByteKind) -> Option<Place>
        ensures { result ≡ next_word_place self kind }
    {
        match self {
            Place::BeforeCount => before_count(kind),
            Place::InCount(count) => in_count(count, kind),
            Place::InSigns(least, most) => in_signs(least, most, kind),
        }
    }

    // Whether a word may end here.
    pub(crate) fn may_end(self) -> bool
        ensures { result ≡ may_end_at self }
    {
        match self {
            Place::BeforeCount => false,
            Place::InCount(count) => count <= 1,
            Place::InSigns(least, _) => least == 0,
        }
    }
}

fn before_count(kind: ByteKind) -> Option<Place>
    ensures { result ≡ next_word_place Place.BeforeCount kind }
{
    match kind {
        ByteKind::Digit(digit) if digit > 0 => Some(Place::InCount(u16::from(digit))),
        _ => None,
    }
}

fn in_count(count: u16, kind: ByteKind) -> Option<Place>
    ensures { result ≡ next_word_place (Place.InCount count) kind }
{
    match kind {
        ByteKind::Digit(digit) if count < 100 => Some(Place::InCount(
            count * 10 + u16::from(digit),
        )),
        ByteKind::Letter(_) => Some(Place::InSigns(count.saturating_sub(2), count)),
        ByteKind::Dot if count <= 1 => Some(Place::BeforeCount),
        _ => None,
    }
}

fn in_signs(least: u16, most: u16, kind: ByteKind) -> Option<Place>
    ensures { result ≡ next_word_place (Place.InSigns least most) kind }
{
    match kind {
        ByteKind::Letter(_) if most > 0 => Some(Place::InSigns(least.saturating_sub(1), most - 1)),
        ByteKind::Dot if least == 0 => Some(Place::BeforeCount),
        _ => None,
    }
}
