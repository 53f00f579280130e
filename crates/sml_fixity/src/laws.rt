//! Laws of the definitions.
ghost use Rattle.sml_fixity.specs.Laws.{TreeIsUnique, HeadIsUnique, NamesDecide};

/// At most one tree that obeys levels and sides is written as a given sequence: looser operators stand above tighter
/// ones, and those of one level group to their side.
pub fn tree_is_unique()
    ensures { TreeIsUnique }
{}

/// A sequence is the head of a clause in one way at most.
pub fn head_is_unique()
    ensures { HeadIsUnique }
{}

/// What a sequence of expressions stands for follows from the names of its items.
pub fn names_decide()
    ensures { NamesDecide }
{}
