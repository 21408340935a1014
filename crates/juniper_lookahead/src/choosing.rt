//! What chooses among selections: which are left out, and which fragments apply (sections 2.8, 3.13 and 6.3.2 of the Specification).

ghost use Rattle.std.specs.Prelude.{◌≡◌, ◌≤◌, true, IfSome};
ghost use Rattle.std.specs.Option.{option_map};
ghost use Rattle.graphql_spec.specs.Fragments.{fragment_of};
ghost use Rattle.juniper_lookahead.specs.Choices.{core};
ghost use Rattle.juniper_lookahead.specs.Choosing.{CanFind, source_deepest, source_fragments};
ghost use Rattle.juniper_lookahead.specs.Expansion.{fragments_among};
ghost use Rattle.juniper_lookahead.specs.Nesting.{deepest_of, nesting, view_core};

use crate::conditions::Conditions;
use crate::fragments::FragmentMap;
use juniper_syntax::{Fragment, Fragments, ScalarValue, Variables};

/// Which type conditions of fragments are met.
pub(crate) trait Meets {
    ghost use Rattle.std.specs.Prelude.{Bool};
    ghost use Rattle.graphql_spec.specs.Shown.{Name};

    /// Those that are.
    ghost met: { Self → Name → Bool };

    /// Whether this one is.
    fn meets(&self, condition: &str) -> bool
        ensures { result ≡ met self.now condition.now };
}

/// All type conditions.
#[derive(Drop)]
pub(crate) struct AnyType;

impl Meets for AnyType {
    ghost met = { λ _ _. true };

    fn meets(&self, _condition: &str) -> bool {
        true
    }
}

/// The type conditions at which an object type is possible (DoesFragmentTypeApply).
#[derive(Drop)]
pub(crate) struct ForType<'c, P> {
    pub(crate) possible: &'c P,
    pub(crate) concrete: &'c str,
}

impl<'c, P: Conditions> Meets for ForType<'c, P> {
    ghost met = { λ s condition. P.possible s.possible.now s.concrete.now condition };

    fn meets(&self, condition: &str) -> bool {
        self.possible.is_possible(self.concrete, condition)
    }
}

/// Where fragments are found.
#[derive(Drop)]
pub(crate) enum FragmentSource<'r, 'd, 'a, S> {
    /// In a map that look-ahead was lent.
    Lent(&'r Fragments<'d, 'a, S>),
    /// In that of a document.
    Document(&'r FragmentMap<'d, 'a, S>),
}

/// What chooses among the selections of a document.
#[derive(Drop)]
pub(crate) struct Choosing<'r, 'd, 'a, S, M> {
    pub(crate) fragments: FragmentSource<'r, 'd, 'a, S>,
    pub(crate) variables: &'r Variables<S>,
    pub(crate) conditions: M,
}

impl<'r, 'd, 'a, S: ScalarValue> FragmentSource<'r, 'd, 'a, S> {
    /// The fragment of a name (2.8).
    pub(crate) fn named(&self, name: &str) -> Option<&'d Fragment<'a, S>>
        requires { CanFind S.shown self.now }
        ensures found { option_map core (fragment_of (source_fragments S.shown self.now) name.now) ≡ option_map (λ f. view_core S.shown f.now) result }
        ensures nested { IfSome result (λ f. nesting f.now.selection_set.items ≤ source_deepest self.now) }
    {
        match self {
            FragmentSource::Lent(fragments) => lent_named(fragments, name),
            FragmentSource::Document(fragments) => fragments.named(name),
        }
    }
}

/// The fragment of a name, of those that look-ahead was lent.
fn lent_named<'d, 'a, S: ScalarValue>(
    fragments: &Fragments<'d, 'a, S>,
    name: &str,
) -> Option<&'d Fragment<'a, S>>
    ensures found { option_map core (fragment_of (fragments_among S.shown fragments.now) name.now) ≡ option_map (λ f. view_core S.shown f.now) result }
    ensures nested { IfSome result (λ f. nesting f.now.selection_set.items ≤ deepest_of fragments.now.entries) }
{
    match fragments.get(name) {
        Some(fragment) => Some(*fragment),
        None => None,
    }
}
