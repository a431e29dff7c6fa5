//! Laws of networks, of Smith diagrams and of network lines.
ghost use Rattle.bk_net.specs.Flow.{Flow, IsFlow, IsOneFlow};
ghost use Rattle.bk_net.specs.Net.{HasNoLoose, IsNet, Net as SeenNet};
ghost use Rattle.bk_net.specs.NetLineLaws.{ANetLineHasOneMeaning};
ghost use Rattle.bk_net.specs.SmithFlow.{SidesAreTheOneFlow};
ghost use Rattle.std.specs.Prelude.{pos, ◌≤ℤ◌};

/// Where every node of a net is joined to the last, a flow of a total of at least 1 is the one flow of
/// its total (Kirchhoff).
pub fn a_joined_net_has_one_flow()
    ensures { (net : SeenNet) (f : Flow) → IsNet net → HasNoLoose net → IsFlow net f → pos 1 ≤ℤ f.total
        → IsOneFlow net f }
{}

/// The Smith diagram of a tiling is a net without a loose node, and the sides are its one flow.
pub fn sides_are_the_one_flow()
    ensures { SidesAreTheOneFlow }
{}

/// A network line stands for one thing only.
pub fn a_net_line_has_one_meaning()
    ensures { ANetLineHasOneMeaning }
{}
