//! What the numbers of fields and levels say of an execution.

ghost use Rattle.juniper_written.specs.Bounds.{BoundsDepth, BoundsExecution, CountsFields, LongIsEndless, MetIsCollected, MetIsMerged};
ghost use Rattle.juniper_written.specs.Bounds.{BoundsLevels, CountsLevels};

/// No types of objects and no values of variables make an execution meet more fields than are counted, where the count is below
/// the greatest number: what is met are the fields that the selections hold for each object (sections 6.3.2 and 6.4.3). Nor do more
/// stand inside one another.
pub fn bounds_execution()
    ensures bounds { BoundsExecution }
    ensures depth { BoundsDepth }
    ensures counts { CountsFields }
    ensures collected { MetIsCollected }
    ensures merged { MetIsMerged }
{}

/// No values of variables make selections nest deeper than is counted, where the count is below the greatest number: neither do more
/// fields stand inside one another (section 6.3.2), nor do more fields, spreads and inline fragments.
pub fn bounds_levels()
    ensures bounds { BoundsLevels }
    ensures counts { CountsLevels }
{}

/// A chain of spreads that is longer than the list of fragments has no end (section 5.5.2.2).
pub fn long_is_endless()
    ensures { LongIsEndless }
{}
