//! What is proved of layouts, of their words and of normal images. Each clause of a function is a law.

ghost use Rattle.bk_layout.specs.LayoutLaws.{ALayoutHasAFreeWord};
ghost use Rattle.bk_layout.specs.SimpleLayout.{ASimpleTilingHasASimpleLayout};
ghost use Rattle.bk_layout.specs.TilingLayoutLaws.{ATilingHasALayout};
ghost use Rattle.bk_layout.specs.ReversalLaws.{AReversedLayoutFits};
ghost use Rattle.bk_layout.specs.RuleR.{ALayoutHasAWordByRuleR};
ghost use Rattle.bk_layout.specs.FreeCuts.{ASimpleTilingHasASoundLayout, EvenSquaresAreFreeBarren};
ghost use Rattle.bk_layout.specs.FreeCuts.{OneSegmentIsFreeBarren};
ghost use Rattle.bk_layout.specs.FreeCuts.{OneUnderOneIsFreeBarren, StayingAboveIsFreeBarren, TooManyLinesIsFreeBarren};
ghost use Rattle.bk_layout.specs.LineNumbers.{LineNumbersAreLines};
ghost use Rattle.bk_layout.specs.NodeCut.{SharedNodeIsFreeBarren};
ghost use Rattle.bk_layout.specs.OpenSegments.{OpenSegmentsEndTogether};
ghost use Rattle.bk_layout.specs.SharedNodes.{LinesOfATilingAreApart, LinesShareTheNodeAbove};
ghost use Rattle.bk_layout.specs.SignedFlow.{SignedSidesAreTheOneFlow};
ghost use Rattle.bk_layout.specs.SignedWord.{AWordUpToReversalsIsSigned};
ghost use Rattle.bk_layout.specs.NodeCorners.{AReversedLayoutIsSound, ASimpleTilingIsSoundAround};
ghost use Rattle.bk_layout.specs.NodeCorners.{ASoundLayoutHasASoundWordByRuleR};
ghost use Rattle.bk_layout.specs.NetWord.{AFreeBarrenWordIsNetBarren, ASimpleTilingHasANetWord};
ghost use Rattle.bk_layout.specs.NetWord.{EvenThenAboveIsNetBarren};
ghost use Rattle.bk_layout.specs.Normal.{EachTilingHasANormalImage};
ghost use Rattle.bk_layout.specs.LayoutCounts.{TheLayoutHasTheCounts};
ghost use Rattle.bk_layout.specs.LastMoves.{AMoveLeavesSegments, AllUnderAtLeftIsNormalBarren, AllUnderIsNormalBarren};
ghost use Rattle.bk_layout.specs.LastMoves.{AllUnderAtRightIsNormalBarren, OneSquareGoesOnEven};
ghost use Rattle.bk_layout.specs.LastMoves.{TooManyAtLeftIsNormalBarren};
ghost use Rattle.bk_layout.specs.LastMoves.{TooManyAtRightIsNormalBarren, TooWideBottomIsNormalBarren};
ghost use Rattle.bk_layout.specs.BeforeNextMove.{MostMovesHoldThen, NextIsLastIsNormalBarren};
ghost use Rattle.bk_layout.specs.BeforeNextMove.{TooFewEvensIsNormalBarren};
ghost use Rattle.bk_layout.specs.NormalImage.{ANormalWordIsSought, EachImageIsAMembers, EachMemberIsMet};
ghost use Rattle.bk_layout.specs.NormalImage.{EachSimpleTilingHasANormalWord};
ghost use Rattle.bk_layout.specs.NormalImage.{ANormalWordHasSettledCorners, ANormalWordHasSettledCounts};
ghost use Rattle.bk_layout.specs.NormalImage.{ImagesAreSimple};
ghost use Rattle.bk_layout.specs.NormalLayout.{ANormalTilingHasANormalLayout, ReversalsKeepCounts};
ghost use Rattle.bk_layout.specs.WordNumbers.{AMoveHangsAtWalls, AWordShowsNumbers, WallMovesHangOne};
ghost use Rattle.bk_layout.specs.NormalCuts.{ANetBarrenWordIsNormalBarren, ANormalTilingHasANormalWord};
ghost use Rattle.bk_layout.specs.NormalCuts.{MostMovesAreMost};
ghost use Rattle.bk_layout.specs.NormalCuts.{TooFewMovesIsNormalBarren, TooManySquaresIsNormalBarren};
ghost use Rattle.bk_layout.specs.StrongBound.{StrongBoundIsNormalBarren, StrongWeightIsNormalBarren};
ghost use Rattle.bk_layout.specs.StrongPass.{EvenAsksLeast, FewerMarksAskLess, ThePassCountsTheBound, ThePassIsStrong};

/// Layouts, those of tilings, and squares reversed.
pub fn layouts()
    // A layout that fits has a free word of as many squares, whose net is the layout's with other numbers.
    ensures a_layout_has_a_free_word { ALayoutHasAFreeWord }

    // A tiling has a layout that fits, and its net is the tiling's Smith diagram.
    ensures a_tiling_has_a_layout { ATilingHasALayout }

    // In the layout of a simple tiling of three squares or more nothing is a part: two lines that touch two nodes have
    // one square between, or all; neighbours under one node do not end on one node; no node has one square above and
    // one below.
    ensures a_simple_tiling_has_a_simple_layout { ASimpleTilingHasASimpleLayout }

    // A layout that fits also fits with a square reversed that may be, and is the same up to reversals. Stated for its
    // own sake: no proof uses it.
    ensures a_reversed_layout_fits { AReversedLayoutFits }

    // A layout that fits is, up to reversed squares, one that has a free word that keeps rule R. Stated for its own
    // sake: no proof uses it.
    ensures a_layout_has_a_word_by_rule_r { ALayoutHasAWordByRuleR }
{}

/// Net words, and what a search by nets may pass over.
pub fn net_words()
    // A simple tiling of at least 3 squares has a sound layout, and that has a free word.
    ensures a_simple_tiling_has_a_sound_layout { ASimpleTilingHasASoundLayout }

    // No word of a sound layout has a move whose first sign is above, where the valley has a left neighbour.
    ensures staying_above_is_free_barren { StayingAboveIsFreeBarren }

    // No word of a sound layout goes on from moves that leave one segment, while they hang fewer squares than the
    // order.
    ensures one_segment_is_free_barren { OneSegmentIsFreeBarren }

    // No word of a sound layout has a move with the sign even between two of its own squares.
    ensures even_squares_are_free_barren { EvenSquaresAreFreeBarren }

    // No word of a sound layout has a move of one square that closes a segment of just one square.
    ensures one_under_one_is_free_barren { OneUnderOneIsFreeBarren }

    // No word of a sound layout goes on from moves after which fewer squares are left than segments that must be
    // closed, with those on which lines from the top end, and valleys of one square. Stated for its own sake: no proof
    // uses it.
    ensures too_many_lines_is_free_barren { TooManyLinesIsFreeBarren }

    // The squares of a segment that is open after the first moves of a word of a layout end on one node, side by side.
    ensures open_segments_end_together { OpenSegmentsEndTogether }

    // Along a node of a tiling no line stands twice at the squares that end there.
    ensures lines_of_a_tiling_are_apart { LinesOfATilingAreApart }

    // Two lines at one open segment share no closed node but that from which the one square between them hangs, unless
    // they are the walls.
    ensures lines_share_the_node_above { LinesShareTheNodeAbove }

    // The numbers of lines in a word of a layout stand for the layout's lines.
    ensures line_numbers_are_lines { LineNumbersAreLines }

    // No word of a sound layout goes on from moves after which two lines at one open segment share a closed node, but
    // that from which the one square between them hangs.
    ensures shared_node_is_free_barren { SharedNodeIsFreeBarren }

    // A word of a layout that is a tiling's up to reversed squares is a signed word of the tiling.
    ensures a_word_up_to_reversals_is_signed { AWordUpToReversalsIsSigned }

    // The signed sides, in the order of a signed word's squares, are the one flow of its net.
    ensures signed_sides_are_the_one_flow { SignedSidesAreTheOneFlow }

    // A sound layout stays sound when a square is reversed that may be.
    ensures a_reversed_layout_is_sound { AReversedLayoutIsSound }

    // A sound layout is, up to reversed squares, a sound one that has a free word that keeps rule R.
    ensures a_sound_layout_has_a_sound_word_by_rule_r { ASoundLayoutHasASoundWordByRuleR }

    // The layout of a simple tiling of at least 3 squares is sound; around a node no line stands before two squares or
    // after two, and squares that end side by side share a line: what reversing a square keeps.
    ensures a_simple_tiling_is_sound_around { ASimpleTilingIsSoundAround }

    // No net word of a sound layout begins with what no word of a sound layout begins with.
    ensures a_free_barren_word_is_net_barren { AFreeBarrenWordIsNetBarren }

    // No net word of a sound layout has a move of two squares or more that begins with even and above.
    ensures even_then_above_is_net_barren { EvenThenAboveIsNetBarren }

    // A simple tiling of at least 3 squares has a net word: up to reversed squares its net is the Smith diagram, and no
    // beginning of it is barren. Stated for its own sake: no proof uses it.
    ensures a_simple_tiling_has_a_net_word { ASimpleTilingHasANetWord }
{}

/// Normal images and their layouts.
pub fn normal_images()
    // Each tiling has a turn by which its image is normal.
    ensures each_tiling_has_a_normal_image { EachTilingHasANormalImage }

    // Each image of a simple tiling is simple.
    ensures images_are_simple { ImagesAreSimple }

    // The layout of a tiling has the tiling's counts.
    ensures the_layout_has_the_counts { TheLayoutHasTheCounts }

    // The numbers of moves, of squares at the top and at the bottom, and the squares at the walls stay where squares
    // are reversed.
    ensures reversals_keep_counts { ReversalsKeepCounts }

    // The layout of a normal tiling is normal.
    ensures a_normal_tiling_has_a_normal_layout { ANormalTilingHasANormalLayout }
{}

/// What the moves of a word of a normal layout tell.
pub fn moves_of_normal_words()
    // A word of a layout shows its numbers.
    ensures a_word_shows_numbers { AWordShowsNumbers }

    // Each move at a wall hangs one square there, and no other move does.
    ensures wall_moves_hang_one { WallMovesHangOne }

    // A move at a wall hangs one square there, and any other move none.
    ensures a_move_hangs_at_walls { AMoveHangsAtWalls }

    // A move leaves as many segments as there were and squares hang, less one and one for each even sign.
    ensures a_move_leaves_segments { AMoveLeavesSegments }

    // A word of a normal layout has at most so many moves: half of one more than the squares, and one less than just
    // half where more squares stand at a wall than at the top.
    ensures most_moves_are_most { MostMovesAreMost }

    // A number that bounds the moves of a word, once its next valley is known, still does when the next move is played.
    ensures most_moves_hold_then { MostMovesHoldThen }
{}

/// The strong bound, and how it is counted.
pub fn strong_bound()
    // Whatever it passed before, a pass over the segments from left to right counts the strong bound and the weight of
    // those that are left.
    ensures the_pass_is_strong { ThePassIsStrong }

    // From the first segment on a pass counts the strong bound and the weight.
    ensures the_pass_counts_the_bound { ThePassCountsTheBound }

    // Where fewer segments are marked the strong bound is no greater.
    ensures fewer_marks_ask_less { FewerMarksAskLess }

    // The sign even at the right of a valley asks for no more than other signs do.
    ensures even_asks_least { EvenAsksLeast }
{}

/// With what no word of a normal layout begins, and how one goes on.
pub fn what_is_normal_barren()
    // No word of a normal layout begins with what no net word begins with.
    ensures a_net_barren_word_is_normal_barren { ANetBarrenWordIsNormalBarren }

    // No word of a normal layout goes on from moves after which fewer moves are left than segments that must be closed.
    // Stated for its own sake: no proof uses it, but an example.
    ensures too_few_moves_is_normal_barren { TooFewMovesIsNormalBarren }

    // No word of a normal layout goes on from moves after which more squares and segments are left than the moves that
    // are left can take.
    ensures too_many_squares_is_normal_barren { TooManySquaresIsNormalBarren }

    // No word of a normal layout goes on from moves after which fewer moves are left than the strong bound.
    ensures strong_bound_is_normal_barren { StrongBoundIsNormalBarren }

    // No word of a normal layout goes on from moves after which fewer squares are left than the strong bound and the
    // weight of valleys of one square.
    ensures strong_weight_is_normal_barren { StrongWeightIsNormalBarren }

    // No word of a normal layout goes on from moves after which all signs are under and no more moves are left than
    // segments, but where just as many squares are left as signs.
    ensures all_under_is_normal_barren { AllUnderIsNormalBarren }

    // No word of a normal layout goes on from moves after which all signs are under and no more moves are left than
    // segments, with more squares at the left wall than squares at the right wall and signs together.
    ensures all_under_at_left_is_normal_barren { AllUnderAtLeftIsNormalBarren }

    // No word of a normal layout is one with more squares in the last segment than at the top.
    ensures too_wide_bottom_is_normal_barren { TooWideBottomIsNormalBarren }

    // No word of a normal layout is one with more squares at the left wall than at the right.
    ensures too_many_at_left_is_normal_barren { TooManyAtLeftIsNormalBarren }

    // Where one square is left, a word of a normal layout goes on by that, even with the segments at both its sides.
    ensures one_square_goes_on_even { OneSquareGoesOnEven }

    // Take a word of a normal layout whose moves are just half of one more than its squares, and moves after which all
    // signs are under and no more moves are left than segments. The word doesn't go on from these so that more squares
    // stand at the right wall than at the top.
    ensures all_under_at_right_is_normal_barren { AllUnderAtRightIsNormalBarren }

    // No word of a normal layout whose moves are just half of one more than its squares has more squares at the right
    // wall than at the top.
    ensures too_many_at_right_is_normal_barren { TooManyAtRightIsNormalBarren }

    // No word of a normal layout goes on by a move with too few even signs, which is one number for all counts of
    // squares.
    ensures too_few_evens_is_normal_barren { TooFewEvensIsNormalBarren }

    // No word of a normal layout goes on from moves after which the next move is the last, and two squares or more are
    // left.
    ensures next_is_last_is_normal_barren { NextIsLastIsNormalBarren }
{}

/// What a search has to meet.
pub fn words_to_meet()
    // A normal and simple tiling of at least 3 squares has a signed word of which no beginning is barren.
    ensures a_normal_tiling_has_a_normal_word { ANormalTilingHasANormalWord }

    // Each simple tiling of at least 3 squares has an image that is simple and normal, with its ties settled, and with
    // a word by rule R of which no beginning is barren.
    ensures each_simple_tiling_has_a_normal_word { EachSimpleTilingHasANormalWord }

    // A search for complete words of which no beginning is barren meets each normal word of a tiling.
    ensures a_normal_word_is_sought { ANormalWordIsSought }

    // The counts of a normal word are normal, and the tie of its sides is settled.
    ensures a_normal_word_has_settled_counts { ANormalWordHasSettledCounts }

    // The corner ties of a tiling are settled by the squares that a normal word of it places.
    ensures a_normal_word_has_settled_corners { ANormalWordHasSettledCorners }

    // Each image of a member is a primitive and simple tiling of the order and the class, and its canonical tiling is
    // the member.
    ensures each_image_is_a_members { EachImageIsAMembers }

    // Each member of at least 3 squares has an image with a word that is sought.
    ensures each_member_is_met { EachMemberIsMet }
{}
