//! Sides of a group that stand in front of bytes, with nothing between a side and the comma or the bracket behind it.

ghost use Rattle.std.specs.Prelude.{[], IfSome, length, take, ◌∷◌, ◌≡◌, ◌≤◌};
ghost use Rattle.bk_text.specs.Onward.{IsFront, SpellOn};
ghost use Rattle.bk_code.specs.declared.TheConstants.{LARGEST_HEADER_NUMBER};

use crate::reader::{Bracket, ByteKind, kind_of};
use bk_tiling::LONGEST_SIDE;

/// What stands in front of bytes, before a side of a group.
pub(crate) enum SideInFront {
    /// A side and the comma right behind it, so many bytes.
    Inner { side: u64, len: usize },
    /// A side and right behind it the bracket that closes the group, so many bytes.
    Last { side: u64, len: usize },
    /// Neither.
    Other,
}

// What stands in front of the bytes, before a side of a group that such a bracket opened.
pub(crate) fn side_in_front(bracket: Bracket, bytes: &[u8]) -> SideInFront
    ensures { IsFront bracket bytes.now result }
{
    let (side, digits) = number_in_front(LONGEST_SIDE, bytes);
    if side == 0 || digits >= bytes.len() {
        return SideInFront::Other;
    }
    let len = digits + 1;
    match kind_of(bytes[digits]) {
        ByteKind::Comma => SideInFront::Inner { side, len },
        ByteKind::Close(other) if bracket.is_like(other) => SideInFront::Last { side, len },
        _ => SideInFront::Other,
    }
}

// The number of the digits in front, as far as it is at most so great, and how many they are: 0 where no number begins.
pub(crate) fn number_in_front(greatest: u64, bytes: &[u8]) -> (u64, usize)
    requires { greatest ≤ LARGEST_HEADER_NUMBER }
    ensures within { result.1 ≤ length bytes.now }
    ensures spelled { SpellOn greatest (take result.1 bytes.now) 0 result.0 }
{
    let mut number = 0;
    for (i, byte) in bytes.iter().enumerate() {
        match with_digit(greatest, number, *byte) {
            Some(next) => number = next,
            None => return (number, i),
        }
    }
    (number, bytes.len())
}

// The number behind a further digit, or `None` where the byte is no digit or no number goes on so. Before the first
// digit it is 0.
fn with_digit(greatest: u64, number: u64, byte: u8) -> Option<u64>
    requires large { greatest ≤ LARGEST_HEADER_NUMBER }
    requires number { number ≤ greatest }
    ensures { IfSome result (SpellOn greatest (byte ∷ []) number) }
{
    if byte < b'0' || byte > b'9' {
        return None;
    }
    let next = number * 10 + u64::from(byte - b'0');
    if next == 0 || next > greatest {
        return None;
    }
    Some(next)
}
