//! What is proved of lines that are written and read again.

ghost use Rattle.bk_read_back.specs.NetReadBack.{ASmithDiagramIsRead, AWrittenNetIsRead, TheSidesAreFound};
ghost use Rattle.bk_read_back.specs.ReadBack.{AListIsAccepted, AListedEntryIsRead};
ghost use Rattle.bk_read_back.specs.Small.{MembersAreSmall};

/// A member of at most 16 squares has a size and sides of at most 2^34: its sides are the primitive flow of its Smith
/// diagram (`bk_flow::small_nets_have_small_flows`).
pub fn members_are_small()
    ensures { MembersAreSmall }
{}

/// The line that `list` writes of a member of at most 16 squares (`bk_list::write_listing`) is in the grammar of lines
/// of codes, without its line feed, and stands for the member's order, size and code; so it is read as that member and
/// no other tiling.
pub fn a_listed_entry_is_read()
    ensures { AListedEntryIsRead }
{}

/// If each line of what `list` wrote of an order of at most 16 has its answer of `check` (`bk_answer`), none is
/// refused: each member is answered by the line of its tiling, in order, and the last line is a comment.
pub fn a_list_is_accepted()
    ensures { AListIsAccepted }
{}

/// The line of a net, as `net` and `dual` write it (`bk_report::write_net`), is a network line that stands for the net
/// (`bk_net::read_net`), whatever comment follows.
pub fn a_written_net_is_read()
    ensures { AWrittenNetIsRead }
{}

/// What `net` writes of a tiling that a `Tiling` can hold is read by `flow` as the Smith diagram (Brooks, Smith, Stone
/// and Tutte 1940): the width and the sides behind it are a comment.
pub fn a_smith_diagram_is_read()
    ensures { ASmithDiagramIsRead }
{}

/// Each answer of `flow` (`bk_answer`) to what `net` writes of a tiling that a `Tiling` can hold is the width and the
/// sides of the tiling in lowest terms, or, exactly if the Smith diagram is wide, the refusal `wide`. No diagram of at
/// most 16 squares is (`bk_flow::no_small_net_is_wide`).
pub fn the_sides_are_found()
    ensures { TheSidesAreFound }
{}
