// Laws of picks. The functions do nothing: their clauses are what is proved.
ghost use Rattle.level_spec.specs.Laws.{CorrelationsLaw, OneRecursionLaw, BoundsLaw, PicksLaw, NeverLongerLaw, RowsLaw};

/// The correlations of one to six channels of a frame: the first is from 1 to 2 ^ 20, and no other is greater in size.
pub fn correlations_law()
    ensures { CorrelationsLaw }
{}

/// One recursion gives the values of each order.
pub fn one_recursion_law()
    ensures { OneRecursionLaw }
{}

/// No divisor of the recursion is 0, and all its numbers stay small.
pub fn bounds_law()
    ensures { BoundsLaw }
{}

/// The picks of a level are few, and each is lawful parameters of the channels.
pub fn picks_law()
    ensures { PicksLaw }
{}

/// A frame stored with the picks of level 3 is never longer than one with those of level 2.
pub fn never_longer_law()
    ensures { NeverLongerLaw }
{}

/// There are rows, each is small, and no divisor of solving is 0.
pub fn rows_law()
    ensures { RowsLaw }
{}
