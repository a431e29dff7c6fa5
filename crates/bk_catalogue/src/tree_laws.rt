//! How many words of the tree there are.

ghost use Rattle.bk_catalogue.specs.TreeLaws.{ALegalWordIsOne, AtLeastAdds, EachPartOfTheTreeHasACount};
ghost use Rattle.bk_catalogue.specs.TreeLaws.{TheTreeCountIsMost, TheTreeCountIsOne, TreeCountsAdd};

/// Each part of the tree, after a cursor and not after a bound, has a tree count.
pub fn each_part_of_the_tree_has_a_count()
    ensures { EachPartOfTheTreeHasACount }
{}

/// A list of words of the tree, each once, has at most as many as the tree count.
pub fn the_tree_count_is_most()
    ensures { TheTreeCountIsMost }
{}

/// The tree count is one number.
pub fn the_tree_count_is_one()
    ensures { TheTreeCountIsOne }
{}

/// The counts up to a word between and from it on add up.
pub fn tree_counts_add()
    ensures { TreeCountsAdd }
{}

/// Numbers of words of the tree add up.
pub fn at_least_adds()
    ensures { AtLeastAdds }
{}

/// A legal word of at most the order, after the cursor, is one word up to itself.
pub fn a_legal_word_is_one()
    ensures { ALegalWordIsOne }
{}
