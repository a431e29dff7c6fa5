//! Laws of lines of codes.

ghost use Rattle.bk_text.specs.CodeLine.{Line as LineMeant, IsLine, IsNoLine};
ghost use Rattle.bk_text.specs.TextLaws.{AWrittenCodeIsRead, AWrittenItemIsRead, AWrittenSizeAndCodeAreRead};
ghost use Rattle.bk_text.specs.TextLaws.{AWrittenSizeIsASize};
ghost use Rattle.std.specs.Prelude.{◌≡◌, ℕ, List};

/// A line of codes stands for one thing only.
pub fn a_line_has_one_meaning()
    ensures { (bytes : List ℕ) (l m : LineMeant) → IsLine l bytes → IsLine m bytes → l ≡ m }
{}

/// Bytes that are no line leave the grammar at one place.
pub fn bytes_leave_lines_at_one_place()
    ensures { (bytes : List ℕ) (one two : ℕ) → IsNoLine bytes one → IsNoLine bytes two → one ≡ two }
{}

/// A written code and the end of a line are a line that stands for the code.
pub fn a_written_code_is_read()
    ensures { AWrittenCodeIsRead }
{}

/// A written size is a size of the two numbers.
pub fn a_written_size_is_a_size()
    ensures { AWrittenSizeIsASize }
{}

/// A written size, a blank, a written code and the end of a line stand for the size and the code.
pub fn a_written_size_and_code_are_read()
    ensures { AWrittenSizeAndCodeAreRead }
{}

/// A written order, size and code, with a blank between each two, and the end of a line stand for these three.
pub fn a_written_item_is_read()
    ensures { AWrittenItemIsRead }
{}
