//! Laws of the grammar of type systems (section 3 of the Specification).

ghost use Rattle.juniper_sdl.specs.Laws.{SpelledAreFaultless, TextsSpell};

/// Of every schema: its text is one of the grammar, and spells it, where it has no fault; and no text spells one that has a fault. So
/// [`as_sdl`](crate::as_sdl) refuses just the schemas that cannot be written.
pub fn faultless_schemas_are_spelled()
    ensures texts { TextsSpell }
    ensures faults { SpelledAreFaultless }
{}
