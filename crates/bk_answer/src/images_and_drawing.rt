//! Answers of several pieces.

ghost use Rattle.std.specs.List.{concat};
ghost use Rattle.std.specs.Prelude.{OnErr, OnOk, ◌≤◌};
ghost use Rattle.std.specs.Io.KnownBytes.{Appends};
ghost use Rattle.bk_draw.specs.declared.TheConstants.{LARGEST_DRAWN};
ghost use Rattle.bk_ports.specs.Causes.{AppendsPrefix, HasCause};
ghost use Rattle.bk_answer.specs.Telling.{drawing_lines, image_lines};

use arrayvec::ArrayVec;
use bk_draw::draw_row;
use bk_grammar::AnswerBuffer;
use bk_ports::{Failed, Sink};
use bk_report::write_tiling;
use bk_sym::{Turn, image};
use bk_tiling::Tiling;

// Writes the lines of the eight images of a tiling, each by one call.
pub(crate) fn write_images<O: Sink>(
    tiling: &Tiling,
    buffer: &mut AnswerBuffer,
    out: &mut O,
) -> Result<(), Failed>
    ensures written { OnOk result (Appends (O.written out.old) (O.written out.new) (concat (image_lines tiling.now))) }
    ensures failed { OnErr result
        (AppendsPrefix (O.written out.old) (O.written out.new) (concat (image_lines tiling.now))) }
    ensures cause { HasCause (O.faults out.old) (O.faults out.new) result }
{
    for which in Turn::ALL {
        write_tiling(&image(tiling, which), buffer);
        out.write_all(buffer.as_slice())?;
    }
    Ok(())
}

// Writes the rows of the drawing of a tiling that is not too large, each by one call.
pub(crate) fn write_drawing<O: Sink>(tiling: &Tiling, out: &mut O) -> Result<(), Failed>
    requires width { tiling.now.width ≤ LARGEST_DRAWN }
    requires height { tiling.now.height ≤ LARGEST_DRAWN }
    ensures written { OnOk result
        (Appends (O.written out.old) (O.written out.new) (concat (drawing_lines tiling.now))) }
    ensures failed { OnErr result
        (AppendsPrefix (O.written out.old) (O.written out.new) (concat (drawing_lines tiling.now))) }
    ensures cause { HasCause (O.faults out.old) (O.faults out.new) result }
{
    let mut row = ArrayVec::new();
    for y in 0..tiling.height() + 1 {
        draw_row(tiling, y, &mut row);
        out.write_all(row.as_slice())?;
    }
    Ok(())
}
