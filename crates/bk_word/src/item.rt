//! The item of a word line.
#![tactic(auto)]

ghost use Rattle.std.specs.List.{AllByRecursion};
ghost use Rattle.std.specs.Prelude.{IfNone, IfSome, drop, false, length, slice_index, take, true, ◌-◌, ◌<◌, ◌≡◌, ◌≢◌};
ghost use Rattle.std.specs.Prelude.{◌≤◌};
ghost use Rattle.bk_grammar.specs.Grammar.{Blanks, Comment, IsBlank, LineEnd, Nothing, ◌or◌};
ghost use Rattle.bk_word.specs.WordItem.{IsItemAt};

/// Where the item of a line begins and ends: what is left without the comment, which begins at a `;`, and without the
/// blanks at both ends. `None` comes exactly where nothing is left.
pub fn word_item(line: &[u8]) -> Option<(usize, usize)>
    ensures none { IfNone result (LineEnd line.now) }
    ensures some { IfSome result (λ ends. IsItemAt line.now ends.0 ends.1) }
{
    let text = &line[..comment_start(line)];
    let start = item_start(text)?;
    Some((start, item_end(text, start)))
}

// Where the comment of a line begins; without one, the end.
fn comment_start(line: &[u8]) -> usize
    ensures within { result ≤ length line.now }
    ensures bare { AllByRecursion (λ b. b ≢ 59) (take result line.now) }
    ensures comment { (Nothing or Comment) (drop result line.now) }
{
    line.iter()
        .position(|byte| *byte == b';')
        .unwrap_or(line.len())
}

// The place of the first byte that is no blank.
fn item_start(text: &[u8]) -> Option<usize>
    ensures none { IfNone result (Blanks text.now) }
    ensures within { IfSome result (λ start. start < length text.now) }
    ensures blanks { IfSome result (λ start. Blanks (take start text.now)) }
    ensures bare { IfSome result (λ start. IsBlank (slice_index text.now start) → ⊥) }
{
    text.iter().position(|byte| !is_blank(*byte))
}

// Where the blanks at the end of a text begin, in which a byte that is no blank stands at `start`.
fn item_end(text: &[u8], start: usize) -> usize
    requires within { start < length text.now }
    requires bare { IsBlank (slice_index text.now start) → ⊥ }
    ensures behind { start < result }
    ensures within { result ≤ length text.now }
    ensures blanks { Blanks (drop result text.now) }
    ensures bare { IsBlank (slice_index text.now (result - 1)) → ⊥ }
{
    let mut end = text.len();
    while is_blank(text[end - 1]) {
        end -= 1;
    }
    end
}

// Whether a byte is a space, a tab or a carriage return.
fn is_blank(byte: u8) -> bool
    ensures yes { result ≡ true → IsBlank byte }
    ensures no { result ≡ false → IsBlank byte → ⊥ }
{
    matches!(byte, b' ' | b'\t' | b'\r')
}
