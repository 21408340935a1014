//! The kinds of scalars (section 3.5 of the Specification).

ghost use Rattle.std.specs.Prelude.{◌≡◌};
ghost use Rattle.graphql_spec.specs.Fields.{accepts_kind};
ghost use Rattle.juniper_meta.specs.MetaView.{view_kinds};

use juniper_syntax::ScalarValue;

/// The kinds of scalars that a scalar type accepts (3.5).
#[derive(Clone, Copy, Debug, PartialEq, Eq)]
pub struct ScalarKinds {
    /// Whether it accepts an Int.
    pub int: bool,
    /// Whether it accepts a text.
    pub text: bool,
    /// Whether it accepts a boolean.
    pub boolean: bool,
}

impl ScalarKinds {
    /// Whether the scalar is of a kind that is accepted.
    #[tactic(auto, using(crate::proofs::AcceptedKinds::kind_is_one), unfolding(graphql_spec::specs::Shown::shown_int, graphql_spec::specs::Shown::shown_text, graphql_spec::specs::Shown::shown_boolean))]
    pub fn accept<S: ScalarValue>(self, scalar: &S) -> bool
        ensures { result ≡ accepts_kind (view_kinds self) (S.shown scalar.now) }
    {
        if scalar.try_to_int().is_some() {
            self.int
        } else if scalar.try_to_bool().is_some() {
            self.boolean
        } else {
            self.text
        }
    }
}
