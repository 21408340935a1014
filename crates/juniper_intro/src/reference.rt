//! References to types, of which non-nulls and lists were taken off (section 4.2.2 of the Specification).

ghost use Rattle.std.specs.Prelude.{◌≡◌, [], option_map, unwrap_or};
ghost use Rattle.graphql_spec.specs.Introspected.{of_type, own_name};
ghost use Rattle.juniper_intro.specs.Handles.{taken_off};
ghost use Rattle.juniper_intro.specs.References.{view_reference, wrapper_kind};

use juniper_syntax::Type;

/// A reference to a type.
#[derive(Clone, Copy)]
pub(crate) enum Reference<'a> {
    /// The type of this name, nullable.
    Named(&'a str),
    /// As it is written.
    Written(&'a Type<String>),
    /// As it is written, but nullable.
    Nullable(&'a Type<String>),
}

impl<'a> Reference<'a> {
    /// The type that a non-null type or a list is made of.
    #[tactic(auto, unfolding(graphql_spec::specs::Introspected::of_type, graphql_spec::specs::Types::nullable))]
    pub(crate) fn of_type(self) -> Option<Reference<'a>>
        ensures { option_map view_reference result ≡ of_type (view_reference self.entry) }
    {
        match self {
            Reference::Named(_) => None,
            Reference::Written(written) => match written {
                Type::Named(_) => None,
                Type::List(inner, _) => Some(Reference::Written(&**inner)),
                Type::NonNullNamed(_) | Type::NonNullList(_, _) => Some(Reference::Nullable(
                    written,
                )),
            },
            Reference::Nullable(written) => match written {
                Type::Named(_) | Type::NonNullNamed(_) => None,
                Type::List(inner, _) | Type::NonNullList(inner, _) => Some(Reference::Written(
                    &**inner,
                )),
            },
        }
    }

    /// The same without so many of its non-nulls and lists, outermost first; without all where it has fewer.
    pub(crate) fn without(self, depth: usize) -> Reference<'a>
        ensures { view_reference result ≡ taken_off depth (view_reference self.entry) }
    {
        let mut inner = self;
        for _turn in 0..depth {
            match inner.of_type() {
                Some(next) => inner = next,
                None => return inner,
            }
        }
        inner
    }

    /// The name that it is: a list and a non-null type have none.
    #[tactic(auto, unfolding(graphql_spec::specs::Introspected::own_name, graphql_spec::specs::Types::nullable))]
    pub(crate) fn own_name(self) -> Option<&'a str>
        ensures { option_map (λ n. n.now) result ≡ own_name (view_reference self.entry) }
    {
        match self {
            Reference::Named(name) => Some(name),
            Reference::Written(written) => match written {
                Type::Named(name) => Some(name.as_str()),
                Type::List(_, _) | Type::NonNullNamed(_) | Type::NonNullList(_, _) => None,
            },
            Reference::Nullable(written) => match written {
                Type::Named(name) | Type::NonNullNamed(name) => Some(name.as_str()),
                Type::List(_, _) | Type::NonNullList(_, _) => None,
            },
        }
    }

    /// The name that it is; empty for a list and a non-null type.
    pub(crate) fn name_or_empty(self) -> &'a str
        ensures { result.now ≡ unwrap_or (own_name (view_reference self.entry)) [] }
    {
        match self.own_name() {
            Some(name) => name,
            None => "",
        }
    }

    /// The kind of a non-null type or a list; `None` for a name.
    #[tactic(auto, unfolding(crate::specs::References::wrapper_kind, graphql_spec::specs::Types::nullable))]
    pub(crate) fn wrapper_kind(self) -> Option<&'static str>
        ensures { option_map (λ n. n.now) result ≡ wrapper_kind (view_reference self.entry) }
    {
        match self {
            Reference::Named(_) => None,
            Reference::Written(written) => match written {
                Type::Named(_) => None,
                Type::List(_, _) => Some("LIST"),
                Type::NonNullNamed(_) | Type::NonNullList(_, _) => Some("NON_NULL"),
            },
            Reference::Nullable(written) => match written {
                Type::Named(_) | Type::NonNullNamed(_) => None,
                Type::List(_, _) | Type::NonNullList(_, _) => Some("LIST"),
            },
        }
    }
}
