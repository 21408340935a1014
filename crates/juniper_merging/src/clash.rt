//! What stands against the merging of fields (section 5.3.2).

ghost use Rattle.std.specs.Prelude.{◌≡◌, not, true};
ghost use Rattle.juniper_merging.specs.Questions.{passes, worse};

/// What stands against it that two fields merge, or each two of several.
#[derive(Clone, Copy)]
pub(crate) enum Clash {
    /// Nothing: they can be merged.
    Nothing,
    /// They cannot be merged, but agree in shape.
    Merging,
    /// They do not agree in shape.
    Shape,
}

/// What stands against both.
#[tactic(auto, unfolding(crate::specs::Questions::worse))]
pub(crate) fn worse(a: Clash, b: Clash) -> Clash
    ensures { result ≡ worse a b }
{
    match (a, b) {
        (Clash::Nothing, other) => other,
        (Clash::Shape, _) => Clash::Shape,
        (Clash::Merging, Clash::Shape) => Clash::Shape,
        (Clash::Merging, Clash::Merging) => Clash::Merging,
        (Clash::Merging, Clash::Nothing) => Clash::Merging,
    }
}

/// Whether anything does.
#[tactic(auto, unfolding(crate::specs::Questions::passes))]
pub(crate) fn is_clash(clash: Clash) -> bool
    ensures { result ≡ not (passes true clash) }
{
    match clash {
        Clash::Nothing => false,
        Clash::Merging => true,
        Clash::Shape => true,
    }
}
