//! Laws of the lines that are written.

ghost use Rattle.bk_report.specs.CheckLineLaw.{ATilingHasOneCheckLine};
ghost use Rattle.bk_report.specs.EntryLaws.{AWrittenEntryIsRead};

/// A tiling has one line of `check`.
pub fn a_tiling_has_one_check_line()
    ensures { ATilingHasOneCheckLine }
{}

/// The entry of a tiling is in the grammar of lines of codes (`bk_text`), and stands for the order, the size and the
/// code of the tiling. So what is written of an entry is read again.
pub fn a_written_entry_is_read()
    ensures { AWrittenEntryIsRead }
{}
