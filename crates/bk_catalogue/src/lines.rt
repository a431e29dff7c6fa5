//! How many squares are still to hang at least, by the vertical lines that run from the top between squares of the
//! first move.

ghost use Rattle.std.specs.List.{list_any};
ghost use Rattle.std.specs.Prelude.{cond, drop, length, sum, take, ◌||◌, ◌+◌, ◌≡◌, ◌≤◌};
ghost use Rattle.bk_catalogue.specs.VerticalCut.{begins_on_line, line_bound, on_line, segments_of, touched};

use bk_word::Sign;

// Whether the left edge of the square of this number, from 1, lies on a line, where the list says it of all squares.
fn on_line(lines: &[bool], square: u8) -> bool
    ensures { result ≡ on_line lines.now square }
{
    match lines.get(usize::from(square).saturating_sub(1)) {
        Some(is_on) => *is_on,
        None => false,
    }
}

/// The closing bound, where a segment that a line bounds or ended on has one closing more: such a line ends on a
/// segment that a later move closes. It takes the signs between the open segments, how many squares each segment has,
/// the numbers of these squares, all from left to right, and of each square whether its left edge lies on a line. There
/// is one segment more than signs.
pub fn line_bound(signs: &[Sign], sizes: &[u8], ends: &[u8], lines: &[bool]) -> usize
    requires long { length sizes.now ≡ length signs.now + 1 }
    requires enough { sum sizes.now ≤ length ends.now }
    ensures { result ≡ line_bound signs.now (touched lines.now (segments_of sizes.now ends.now)) }
{
    let mut most: usize = 0;
    let mut aboves: usize = 0;
    let mut start: usize = 0;
    for (i, sign) in signs.iter().enumerate() {
        most = most.max(aboves + line_closing(ends, start, sizes[i], sizes[i + 1], lines));
        match *sign {
            Sign::Above => aboves += 1,
            Sign::Even => {}
            Sign::Under => most += 1,
        }
        start += usize::from(sizes[i]);
    }
    most.max(aboves + line_closing(ends, start, sizes[signs.len()], 0, lines))
}

// 1 if the left edge of one of a segment's squares lies on a line, or that of the segment behind it, else 0. The
// segment has `size` of the squares, from the place `start` on, and the one behind it the `next` squares after these.
fn line_closing(ends: &[u8], start: usize, size: u8, next: u8, lines: &[bool]) -> usize
    requires { start + size + next ≤ length ends.now }
    ensures few { result ≤ 1 }
    ensures touched { result ≡ cond (list_any (on_line lines.now) (take size (drop start ends.now))
        || begins_on_line lines.now (take next (drop (start + size) ends.now))) 1 0 }
{
    let end = start + usize::from(size);
    let segment = &ends[start..end];
    let behind = &ends[end..end + usize::from(next)];
    usize::from(is_line_in(segment, lines) || begins_on_line(behind, lines))
}

// Whether the left edge of one of these squares lies on a line.
fn is_line_in(segment: &[u8], lines: &[bool]) -> bool
    ensures { result ≡ list_any (on_line lines.now) segment.now }
{
    segment.iter().any(|square| on_line(lines, *square))
}

/// Whether the left edge of a segment lies on a line: `segment` has the numbers of its squares from left to right, from
/// 1, and `lines` says of each square whether its left edge does, by its number.
pub fn begins_on_line(segment: &[u8], lines: &[bool]) -> bool
    ensures { result ≡ begins_on_line lines.now segment.now }
{
    match segment.first() {
        Some(square) => on_line(lines, *square),
        None => false,
    }
}
