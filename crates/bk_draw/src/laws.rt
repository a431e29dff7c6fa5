//! The law of rows.

ghost use Rattle.bk_draw.specs.DrawingLaws.{NoRowEndsWithASpace};

/// No row ends with a space, since its last point lies on a right side.
pub fn no_row_ends_with_a_space()
    ensures { NoRowEndsWithASpace }
{}
