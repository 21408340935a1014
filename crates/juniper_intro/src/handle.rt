//! Nodes of introspection, held by numbers (section 4.2 of the Specification).

ghost use Rattle.std.specs.Prelude.{◌≡◌};
ghost use Rattle.juniper_intro.specs.HandleView.{view_handle};
ghost use Rattle.juniper_intro.specs.Handles.{handle_type};

/// Where an argument or an input field is declared.
#[derive(Clone, Copy, Debug)]
pub enum InputPlace {
    /// Of a field: the numbers of the type, of the field and of the argument.
    OfField(usize, usize, usize),
    /// Of an input object: the numbers of the type and of the field.
    OfInputObject(usize, usize),
    /// Of a directive: the numbers of the directive and of the argument.
    OfDirective(usize, usize),
}

/// Where a reference to a type stands.
#[derive(Clone, Copy, Debug)]
pub enum TypePlace {
    /// In the list of names alone, at this number.
    ByName(usize),
    /// At a field: the numbers of the type and of the field.
    AtField(usize, usize),
    /// At an argument or an input field.
    AtInput(InputPlace),
}

/// A node of introspection: it names what it stands for by numbers in the lists of a root's schema.
#[derive(Clone, Copy, Debug)]
pub enum Handle {
    /// The schema.
    Schema,
    /// A type, and how many non-nulls and lists were taken off the reference.
    Type(TypePlace, usize),
    /// A field: the numbers of the type and of the field.
    Field(usize, usize),
    /// An argument or an input field.
    Input(InputPlace),
    /// A value of an enum: the numbers of the type and of the value.
    Value(usize, usize),
    /// A directive.
    Directive(usize),
}

impl Handle {
    /// The name of its object type.
    #[tactic(auto, unfolding(crate::specs::Handles::handle_type))]
    pub fn type_name(self) -> &'static str
        ensures { result.now ≡ handle_type (view_handle self) }
    {
        match self {
            Handle::Schema => "__Schema",
            Handle::Type(_, _) => "__Type",
            Handle::Field(_, _) => "__Field",
            Handle::Input(_) => "__InputValue",
            Handle::Value(_, _) => "__EnumValue",
            Handle::Directive(_) => "__Directive",
        }
    }
}
