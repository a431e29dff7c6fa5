//! The text of a dual diagram.

ghost use Rattle.std.specs.Prelude.{All, decimal, flat_map, length, ◌+◌, ◌++◌, ◌*◌, ◌≡◌, ◌≤◌, ◌∷◌};
ghost use Rattle.arrayvec.specs.ArrayVec.{array_vec_len};
ghost use Rattle.bk_grammar.specs.declared.TheConstants.{ANSWER_ROOM, LONGEST_NUMBER_TEXT};
ghost use Rattle.bk_tiling.specs.declared.TheConstants.{MOST_SQUARES};
ghost use Rattle.bk_report.specs.Answers.{dual_line};
ghost use Rattle.bk_report.specs.declared.dual.TheConstants.{LONGEST_DUAL_LINE, LONGEST_PLACES_TEXT};
ghost use Rattle.bk_report.specs.declared.net.TheConstants.{LARGEST_PLACE};

use crate::net::{LONGEST_PLACE_TEXT, push_net, push_place, push_sides};
use bk_dual::{crossings, dual_of, dual_order};
use bk_grammar::{AnswerBuffer, push_bytes, push_number};
use bk_sym::{Turn, image};
use bk_tiling::{MOST_SQUARES, Tiling};

/// No dual diagram is written in more bytes.
pub const LONGEST_DUAL_LINE: usize = 5700;

/// The numbers of the squares are written in no more bytes, with a blank before each.
const LONGEST_PLACES_TEXT: usize = (1 + LONGEST_PLACE_TEXT) * MOST_SQUARES;

/// Writes the dual diagram of a tiling (Brooks, Smith, Stone and Tutte 1940): the line that `net` has for the image
/// with columns and levels exchanged, then ` ; ` and for each wire the number of its square, then ` ; ` and how many
/// crossings there are. The line has at most `LONGEST_DUAL_LINE` bytes.
pub fn write_dual(tiling: &Tiling, out: &mut AnswerBuffer)
    ensures line { out.new.items ≡ dual_line tiling.now }
    ensures short { array_vec_len out.new ≤ LONGEST_DUAL_LINE }
{
    out.clear();
    push_net(&dual_of(tiling), out);
    push_bytes(b" ; ", out);
    push_sides(&image(tiling, Turn::Swap), out);
    push_bytes(b" ;", out);
    push_places(dual_order(tiling).as_slice(), out);
    push_bytes(b" ; ", out);
    push_number(u64::from(crossings(tiling)), out);
    out.push(b'\n');
}

// Appends the numbers with a blank before each.
fn push_places(numbers: &[u16], out: &mut AnswerBuffer)
    requires few { length numbers.now ≤ MOST_SQUARES }
    requires small { All (λ n. n ≤ LARGEST_PLACE) numbers.now }
    requires room { array_vec_len out.old + LONGEST_PLACES_TEXT + LONGEST_NUMBER_TEXT ≤ ANSWER_ROOM }
    ensures text { out.new.items ≡ out.old.items ++ flat_map (λ n. 32 ∷ decimal n) numbers.now }
    ensures short { array_vec_len out.new ≤ array_vec_len out.old + LONGEST_PLACES_TEXT }
{
    for number in numbers {
        out.push(b' ');
        push_place(*number, out);
    }
}
