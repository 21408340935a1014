//! Faults: what a schema lacks for requests to be executed on it (section 3 of the Specification).

ghost use Rattle.std.specs.Prelude.{◌≡◌, Some, option_map};
ghost use Rattle.juniper_schema.specs.Faults.{view_fault};
ghost use Rattle.juniper_schema.specs.Messages.{demand_text};
ghost use Rattle.juniper_schema.specs.Searching.{at_type, fault_unless};

use std::error::Error;
use std::fmt;

/// What is asked of a schema, in the order in which it is tested: the clauses of [`schema_is_executable`](crate::schema_is_executable).
#[derive(Clone, Copy, Debug, PartialEq, Eq)]
pub enum Demand {
    /// Each type stands at its own name, and all names are Names that are not reserved (2.1.9, 3.3).
    EntryNames,
    /// The query type is an object, and so is the mutation type, which is another one (3.3.1).
    RootTypes,
    /// Fields end in types for output, arguments and input fields in types for input (3.4.2).
    KnownTypes,
    /// Names differ in each list, and members of unions are objects (3.6, 3.8 to 3.10).
    DistinctNames,
    /// Interfaces that are listed are implemented (3.6, 3.7).
    Interfaces,
    /// Default values are constants that fit their types (3.6.1, 3.10).
    Defaults,
    /// `String` and `Boolean` are there, and built-in scalars accept their own kinds (3.5).
    BuiltInScalars,
}

impl Demand {
    /// What is asked, in a sentence.
    pub fn text(self) -> &'static str
        ensures { result.now ≡ demand_text self }
    {
        match self {
            Demand::EntryNames => "a name is no Name, or is reserved, or no type is declared at it",
            Demand::RootTypes => "a root type has to be an object type of its own",
            Demand::KnownTypes =>
                "a field has to end in a type for output, an argument in one for input",
            Demand::DistinctNames =>
                "two names are the same, or a member of a union is no object type",
            Demand::Interfaces => "an interface that is listed is not implemented",
            Demand::Defaults => "a default value does not fit its type",
            Demand::BuiltInScalars => "a built-in scalar is missing, or accepts other kinds",
        }
    }
}

/// Why requests cannot be executed on a schema: what is not met, and where. Shown as `Query.hero: ..`, or as `Query: ..`.
#[derive(Clone, Copy, Debug)]
pub struct SchemaFault<'s> {
    /// What is not met.
    pub demand: Demand,
    /// The name that the type stands at.
    pub type_name: &'s str,
    /// The field, enum value, interface or member of the type; `None` where it is the type itself.
    pub member: Option<&'s str>,
}

impl<'s> SchemaFault<'s> {
    /// A fault of the type itself.
    pub(crate) fn of_type(demand: Demand, type_name: &'s str) -> Self
        ensures { view_fault result ≡ at_type demand type_name.now }
    {
        SchemaFault {
            demand,
            type_name,
            member: None,
        }
    }

    /// A fault of the type itself, where it does not hold.
    pub(crate) fn unless(holds: bool, demand: Demand, type_name: &'s str) -> Option<Self>
        ensures { option_map view_fault result ≡ fault_unless holds demand type_name.now }
    {
        if holds {
            None
        } else {
            Some(SchemaFault::of_type(demand, type_name))
        }
    }
}

impl fmt::Display for SchemaFault<'_> {
    ghost use Rattle.juniper_schema.specs.Messages.{fault_text};

    ghost output = { λ f. Some (fault_text (view_fault f)) };

    fn fmt<W: fmt::Write>(&self, f: &mut fmt::Formatter<W>) -> fmt::Result {
        let text = self.demand.text();
        match self.member {
            Some(member) => write!(f, "{}.{}: {}", self.type_name, member, text),
            None => write!(f, "{}: {}", self.type_name, text),
        }
    }
}

impl Error for SchemaFault<'_> {}
