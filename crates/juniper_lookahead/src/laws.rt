//! Laws of what look-ahead shows. Each function does nothing; its contract is the law.

ghost use Rattle.juniper_lookahead.specs.ShownValues.{ConstantsAreShown};

/// A value in which no variable stands is shown as it is.
pub fn constants_are_shown_as_they_are()
    ensures { ConstantsAreShown }
{}
