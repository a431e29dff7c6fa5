//! A trial code as a line.

ghost use Rattle.std.specs.Prelude.{IsSomeAnd, None, Some, ◌≡◌};
ghost use Rattle.bk_tiling.specs.KeptTiling.{IsKept};
ghost use Rattle.bk_tiling.specs.Tiling.{Tiling as Tiled};
ghost use Rattle.bk_code.specs.Code.{Code as Groups, code_of};
ghost use Rattle.bk_text.specs.CodeLine.{Item};
ghost use Rattle.bk_text.specs.CodeText.{code_text};
ghost use Rattle.bk_text.specs.ReadLine.{IsInRange, stands_for};
ghost use Rattle.bk_profile.specs.Refused.{HasCode};
ghost use Rattle.bk_gen.specs.TrialCodes.{sample};
ghost use Rattle.bk_gen.specs.TrialLine.{tiling_at};

use crate::sample;
use bk_grammar::AnswerBuffer;
use bk_profile::lay_code;
use bk_text::{Line, read_line, write_code};
use bk_tiling::Tiling;

// The tiling of a trial code, which is written as text, read again and laid. Its text is left.
pub(crate) fn laid_again(seed: u64, k: u32, text: &mut AnswerBuffer) -> Option<Tiling>
    ensures laid { result ≡ Some (tiling_at seed k) }
    ensures written { text.new.items ≡ code_text (sample seed k) }
{
    text.clear();
    write_code(&sample(seed, k), text);
    laid_text(text.as_slice())
}

// The tiling that has the code of a text, of which nothing else is known.
fn laid_text(text: &[u8]) -> Option<Tiling>
    ensures { (t : Tiled) → IsKept t → text.now ≡ code_text (code_of t) → result ≡ Some t }
{
    match read_line(text) {
        Ok(line) => laid(&line),
        Err(_) => None,
    }
}

// The tiling that has the code of a line.
fn laid(line: &Line) -> Option<Tiling>
    requires { IsInRange (stands_for line.now) }
    ensures { (code : Groups) (t : Tiled) → stands_for line.now ≡ Item None None code → HasCode code t
        → result ≡ Some t }
{
    match line {
        Line::Item { code, .. } => lay_code(code).ok(),
        Line::Skip | Line::Flat { .. } => None,
    }
}
