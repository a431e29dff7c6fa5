//! Laws of the flows that are solved: which nets have one, and how large its numbers are.
ghost use Rattle.bk_flow.specs.FlowLaws.{ANetHasOnePrimitiveFlow, NoSmallNetIsWide, NoZeroIsMet};
ghost use Rattle.bk_flow.specs.FlowLaws.{SmallNetsHaveSmallFlows};
ghost use Rattle.bk_flow.specs.FlowLaws.{TheEliminatedFlowIsPrimitive, ThePrimitiveFlowIsOne};

/// In a net without a loose node no column of the stated elimination meets a 0 to divide by.
pub fn no_zero_is_met()
    ensures { NoZeroIsMet }
{}

/// The numbers that the stated elimination leaves of a net without a loose node are the total and the currents of its
/// primitive flow.
pub fn the_eliminated_flow_is_primitive()
    ensures { TheEliminatedFlowIsPrimitive }
{}

/// A net without a loose node has exactly one primitive flow.
pub fn a_net_has_one_primitive_flow()
    ensures { ANetHasOnePrimitiveFlow }
{}

/// A net has at most one primitive flow that all its flows are in proportion to.
pub fn the_primitive_flow_is_one()
    ensures { ThePrimitiveFlowIsOne }
{}

/// No net of at most 16 wires without a loose node is wide: each number that the stated elimination of such a net
/// writes is below 2^127.
pub fn no_small_net_is_wide()
    ensures { NoSmallNetIsWide }
{}

/// The total and the currents of the primitive flow of a net of at most 16 wires without a loose node are at most 2^34
/// in magnitude.
pub fn small_nets_have_small_flows()
    ensures { SmallNetsHaveSmallFlows }
{}
