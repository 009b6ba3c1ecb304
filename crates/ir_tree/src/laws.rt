ghost use Rattle.ir_tree.specs.Carrying.{LeafCountsAgree, LeafCountsAreLeast};
ghost use Rattle.ir_tree.specs.WellFormed.{OneRefusal, RefusedIsNotWellFormed};

/// A function is refused for one reason at one position, and not where it is well formed. It does
/// nothing.
pub fn is_one_refusal()
    ensures one { OneRefusal }
    ensures never { RefusedIsNotWellFormed }
{}

/// The counts of undef leaves agree with their rule, and are the least that do. It does nothing.
pub fn are_least_counts()
    ensures agree { LeafCountsAgree }
    ensures least { LeafCountsAreLeast }
{}
