//! References to types (section 2.11 of the Specification).

ghost use Rattle.std.specs.Prelude.{◌≡◌, Some, IfOk, option_map, false};
ghost use Rattle.graphql_spec.specs.Types.{list_of, required, nullable, innermost, type_text};
ghost use Rattle.juniper_syntax.specs.TypeView.{view_type, non_null, contents};

use std::alloc::{AllocError, Global};
use std::convert::AsStr;
use std::fmt;
use std::fmt::Display;

/// A reference to a type: a name or a list, each nullable or not. A list may have an expected number of items, which is
/// never written and comes from arrays of a fixed length.
#[derive(Debug, PartialEq, Eq, Drop)]
pub enum Type<N> {
    /// A nullable named type.
    Named(N),
    /// A nullable list.
    List(Box<Type<N>>, Option<usize>),
    /// A non-null named type.
    NonNullNamed(N),
    /// A non-null list.
    NonNullList(Box<Type<N>>, Option<usize>),
}

impl<N: AsStr + Drop> Type<N> {
    /// The type that also takes null.
    #[tactic(auto, unfolding(graphql_spec::specs::Types::nullable))]
    pub fn nullable(self) -> Self
        ensures { view_type N.text result ≡ nullable (view_type N.text self) }
    {
        match self {
            Type::Named(name) | Type::NonNullNamed(name) => Type::Named(name),
            Type::List(inner, size) | Type::NonNullList(inner, size) => Type::List(inner, size),
        }
    }

    /// The nullable list of items of this type; an error where memory is refused.
    pub fn wrap_list(self, alloc: Global, expected_size: Option<usize>) -> Result<Self, AllocError>
        ensures { IfOk result (λ t. view_type N.text t ≡ list_of false expected_size (view_type N.text self)) }
    {
        Ok(Type::List(Box::new(alloc, self)?, expected_size))
    }

    /// The type that doesn't take null.
    pub fn wrap_non_null(self) -> Self
        ensures { view_type N.text result ≡ non_null (view_type N.text self) }
    {
        match self {
            Type::Named(name) | Type::NonNullNamed(name) => Type::NonNullNamed(name),
            Type::List(inner, size) | Type::NonNullList(inner, size) => Type::NonNullList(
                inner, size,
            ),
        }
    }

    /// Whether it doesn't take null.
    #[tactic(auto, unfolding(graphql_spec::specs::Types::required))]
    pub fn is_non_null(&self) -> bool
        ensures { result ≡ required (view_type N.text self.now) }
    {
        match self {
            Type::Named(_) | Type::List(_, _) => false,
            Type::NonNullNamed(_) | Type::NonNullList(_, _) => true,
        }
    }

    /// The type of a list's items; `None` where this is no list.
    pub fn list_contents(&self) -> Option<&Type<N>>
        ensures { option_map (λ t. view_type N.text t.now) result ≡ contents (view_type N.text self.now) }
    {
        match self {
            Type::Named(_) | Type::NonNullNamed(_) => None,
            Type::List(inner, _) | Type::NonNullList(inner, _) => Some(&**inner),
        }
    }

    /// The name inside all lists.
    #[tactic(auto, unfolding(graphql_spec::specs::Types::innermost))]
    pub fn innermost_name(&self) -> &str
        ensures { result.now ≡ innermost (view_type N.text self.now) }
    {
        match self {
            Type::Named(name) => name.as_str(),
            Type::NonNullNamed(name) => name.as_str(),
            Type::List(inner, _) => inner.innermost_name(),
            Type::NonNullList(inner, _) => inner.innermost_name(),
        }
    }
}

/// As it is written (2.11): `[Episode!]!`. The expected number of items is left out.
impl<N: AsStr + Drop> Display for Type<N> {
    ghost output = { λ t. Some (type_text (view_type N.text t)) };

    fn fmt<W: fmt::Write>(&self, f: &mut fmt::Formatter<W>) -> fmt::Result {
        match self {
            Type::Named(name) => f.write_str(name.as_str()),
            Type::List(inner, _) => {
                f.write_str("[")?;
                (**inner).fmt(f)?;
                f.write_str("]")
            }
            Type::NonNullNamed(name) => {
                f.write_str(name.as_str())?;
                f.write_str("!")
            }
            Type::NonNullList(inner, _) => {
                f.write_str("[")?;
                (**inner).fmt(f)?;
                f.write_str("]!")
            }
        }
    }
}
