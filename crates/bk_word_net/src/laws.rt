//! What is proved of a word's net: its one flow, and which flows place the word's squares.

ghost use Rattle.bk_word_net.specs.WordFlow.{AWordHasOneFlow, AWordHasOnePrimitiveTiling, AWordHasOneTiling};
ghost use Rattle.bk_word_net.specs.WordFlow.{AWordNetHasNoLoose, LaidSidesAreAFlow};
ghost use Rattle.bk_word_net.specs.FlowTiling.{AFlowPlacesATiling, APrimitiveFlowIsAPrimitiveTiling};
ghost use Rattle.bk_word_net.specs.FlowTiling.{AWordOfATilingIsPlaced};
ghost use Rattle.bk_word_net.specs.Renumbering.{WordNetIsSmithDiagram};

/// The net of a complete word has no loose node.
pub fn a_word_net_has_no_loose()
    ensures { AWordNetHasNoLoose }
{}

/// Each flow of the net of a complete word, of a total of at least 1, is the net's one flow of its total.
pub fn a_word_has_one_flow()
    ensures { AWordHasOneFlow }
{}

/// The sides of a tiling, in the order in which its word lays them, are a flow of the word's net.
pub fn laid_sides_are_a_flow()
    ensures { LaidSidesAreAFlow }
{}

/// Two tilings of one word are equal up to scale.
pub fn a_word_has_one_tiling()
    ensures { AWordHasOneTiling }
{}

/// A word has at most one primitive tiling.
pub fn a_word_has_one_primitive_tiling()
    ensures { AWordHasOnePrimitiveTiling }
{}

/// A flow that places the squares of a complete word is a tiling of this word.
pub fn a_flow_places_a_tiling()
    ensures { AFlowPlacesATiling }
{}

/// Where a flow that places the squares of a complete word is primitive, so is the tiling.
pub fn a_primitive_flow_is_a_primitive_tiling()
    ensures { APrimitiveFlowIsAPrimitiveTiling }
{}

/// Where a tiling has a word, each flow of the word's net of a positive total places its squares.
pub fn a_word_of_a_tiling_is_placed()
    ensures { AWordOfATilingIsPlaced }
{}

/// The net of a tiling's word is its Smith diagram, with nodes and wires renumbered.
pub fn a_word_net_is_the_smith_diagram()
    ensures { WordNetIsSmithDiagram }
{}
