//! The pairs of items, written.

ghost use Rattle.std.specs.Prelude.{IfOk, Some, [], drop, length, slice_get, ◌+◌, ◌<◌, ◌∷◌, ◌≡◌, ◌≤◌};
ghost use Rattle.std.specs.List.{flat_map};
ghost use Rattle.bk_ports.specs.Causes.{HasCause};
ghost use Rattle.bk_alike.specs.declared.item.KeptItem.{KeptItem as Kept};
ghost use Rattle.bk_alike.specs.LaterLines.{later_lines};
ghost use Rattle.bk_alike.specs.Pairs.{all_pairs, is_pair, pair_lines};
ghost use Rattle.bk_alike.specs.WrittenLines.{WritesLines};
ghost use Rattle.bk_pair.specs.Pair.{CanBeLaid, joined_square};
ghost use Rattle.bk_report.specs.ListLines.{pair_line};

use crate::Alike;
use bk_grammar::AnswerBuffer;
use bk_pair::{KeptTiling, Kind, joined_square};
use bk_ports::{Failed, Sink};
use bk_report::write_pair;

// Writes all pairs, by the first item and then by the second, and says how many there are.
pub(crate) fn write_all_pairs<O: Sink>(
    kind: Kind,
    items: &Alike,
    buffer: &mut AnswerBuffer,
    out: &mut O,
) -> Result<u64, Failed>
    ensures lines { WritesLines (all_pairs kind items.now) (O.written out.old) (O.written out.new) result }
    ensures count { IfOk result (λ n. n ≡ length (all_pairs kind items.now)) }
    ensures cause { HasCause (O.faults out.old) (O.faults out.new) result }
{
    let mut pairs = 0;
    for i in 0..items.len() {
        let more = write_pairs_with(kind, items, i, buffer, out)?;
        pairs += more;
    }
    Ok(pairs)
}

// Writes the pairs of an item with each later one, and says how many there are. Only items of its size can be.
fn write_pairs_with<O: Sink>(
    kind: Kind,
    items: &Alike,
    i: usize,
    buffer: &mut AnswerBuffer,
    out: &mut O,
) -> Result<u64, Failed>
    requires { i < length items.now }
    ensures lines { (a : Kept) → slice_get items.now i ≡ Some a
        → WritesLines (flat_map (pair_lines kind a) (drop (i + 1) items.now)) (O.written out.old)
        (O.written out.new) result }
    ensures count { IfOk result (λ n. (a : Kept) → slice_get items.now i ≡ Some a
        → n ≡ length (flat_map (pair_lines kind a) (drop (i + 1) items.now))) }
    ensures cause { HasCause (O.faults out.old) (O.faults out.new) result }
{
    let (_line, tiling) = items.item(i);
    let places = items.of_size((tiling.width(), tiling.height()));
    let mut pairs = 0;
    for place in places {
        let more = write_if_pair(kind, items, (i, *place as usize), buffer, out)?;
        pairs += more;
    }
    Ok(pairs)
}

// Writes the items at two places where the second stands behind the first and they are a pair, and says how many lines
// that makes.
fn write_if_pair<O: Sink>(
    kind: Kind,
    items: &Alike,
    places: (usize, usize),
    buffer: &mut AnswerBuffer,
    out: &mut O,
) -> Result<u64, Failed>
    requires first { places.0 < length items.now }
    requires second { places.1 < length items.now }
    ensures lines { (a : Kept) → slice_get items.now places.0 ≡ Some a
        → WritesLines (later_lines kind items.now places.0 a places.1) (O.written out.old) (O.written out.new) result }
    ensures count { IfOk result (λ n. (a : Kept) → slice_get items.now places.0 ≡ Some a
        → n ≡ length (later_lines kind items.now places.0 a places.1)) }
    ensures few { IfOk result (λ n. n ≤ 1) }
    ensures cause { HasCause (O.faults out.old) (O.faults out.new) result }
{
    let (i, j) = places;
    if j <= i {
        return Ok(0);
    }
    let (first, a) = items.item(i);
    let (second, b) = items.item(j);
    if !is_pair(kind, a, b) {
        return Ok(0);
    }
    write_square((first, second), a, b, buffer, out)?;
    Ok(1)
}

// Whether two tilings are a pair of this kind.
fn is_pair(kind: Kind, a: &KeptTiling, b: &KeptTiling) -> bool
    ensures { result ≡ is_pair kind a.now b.now }
{
    match kind {
        Kind::Perfect => a.joins(b),
        Kind::Any => a.can_be_laid(b),
    }
}

// Writes the square that two items make, with the numbers of their lines. Most two items make none, and its room for
// tilings is needed only here.
#[inline(never)]
fn write_square<O: Sink>(
    lines: (u64, u64),
    a: &KeptTiling,
    b: &KeptTiling,
    buffer: &mut AnswerBuffer,
    out: &mut O,
) -> Result<(), Failed>
    requires { CanBeLaid a.now b.now }
    ensures lines { WritesLines (pair_line lines.0 lines.1 (joined_square a.now b.now) ∷ []) (O.written out.old)
        (O.written out.new) result }
    ensures cause { HasCause (O.faults out.old) (O.faults out.new) result }
{
    let square = joined_square(&a.tiling(), &b.tiling());
    write_pair(lines.0, lines.1, &square, buffer);
    out.write_all(buffer.as_slice())
}
