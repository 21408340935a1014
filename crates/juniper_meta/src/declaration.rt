//! What types declare: fields, arguments and enum values (section 3 of the Specification).

ghost use Rattle.std.specs.Prelude.{◌≡◌, IfOk, string_bytes, map, option_map, [], ◌∷◌, ◌++◌};
ghost use Rattle.graphql_spec.specs.Schema.{plain_field, plain_input};
ghost use Rattle.graphql_spec.specs.BuiltIns.{value_named};
ghost use Rattle.graphql_spec.specs.Fields.{field_in, declaration_in, declares_value};
ghost use Rattle.graphql_spec.specs.Introspected.{is_deprecated, reason_of};
ghost use Rattle.juniper_syntax.specs.DocumentView.{items_or_none};
ghost use Rattle.juniper_syntax.specs.InputView.{view_input};
ghost use Rattle.juniper_meta.specs.MetaView.{view_type, view_text, view_argument, view_field, view_enum_value, view_deprecation};
ghost use Rattle.juniper_meta.specs.MetaView.{described_argument, with_default, described_field, with_argument, deprecated_field, described_value};
ghost use Rattle.juniper_meta.specs.MetaView.{deprecated_value};

use juniper_syntax::{InputValue, ScalarValue, Type};
use std::alloc::{AllocError, Global};

/// Whether a field or an enum's value is deprecated (3.13.3).
#[derive(Debug, Drop)]
pub enum DeprecationStatus {
    /// It is not deprecated.
    Current,
    /// It is deprecated, for this reason, where one is given.
    Deprecated(Option<String>),
}

impl DeprecationStatus {
    /// Whether it is deprecated.
    #[tactic(auto, unfolding(graphql_spec::specs::Introspected::is_deprecated))]
    pub fn is_deprecated(&self) -> bool
        ensures { result ≡ is_deprecated (view_deprecation self.now) }
    {
        match self {
            DeprecationStatus::Current => false,
            DeprecationStatus::Deprecated(_) => true,
        }
    }

    /// Why it is deprecated; `None` where no reason is given, or where it is not deprecated.
    #[tactic(auto, unfolding(graphql_spec::specs::Introspected::reason_of))]
    pub fn reason(&self) -> Option<&str>
        ensures { option_map (λ r. r.now) result ≡ reason_of (view_deprecation self.now) }
    {
        match self {
            DeprecationStatus::Current => None,
            DeprecationStatus::Deprecated(None) => None,
            DeprecationStatus::Deprecated(Some(reason)) => Some(reason.as_str()),
        }
    }
}

/// An argument of a field (3.6.1), or a field of an input object (3.10).
#[derive(Debug, Drop)]
pub struct Argument<S> {
    /// Its name.
    pub name: String,
    /// Its description, where it has one.
    pub description: Option<String>,
    /// Its type.
    pub arg_type: Type<String>,
    /// Its default value, where it has one.
    pub default_value: Option<InputValue<S>>,
}

impl<S: ScalarValue> Argument<S> {
    /// The argument of this name and type, without description and default value.
    #[tactic(auto, unfolding(graphql_spec::specs::Schema::plain_input))]
    pub fn new(name: String, arg_type: Type<String>) -> Self
        ensures { view_argument S.shown result ≡ plain_input (string_bytes name) (view_type arg_type) }
    {
        Argument {
            name,
            description: None,
            arg_type,
            default_value: None,
        }
    }

    /// The same argument with this description, in place of any that it had.
    pub fn description(self, description: String) -> Self
        ensures { view_argument S.shown result ≡ described_argument (view_argument S.shown self) (string_bytes description) }
    {
        Argument {
            name: self.name,
            description: Some(description),
            arg_type: self.arg_type,
            default_value: self.default_value,
        }
    }

    /// The same argument with this default value, in place of any that it had.
    pub fn default_value(self, value: InputValue<S>) -> Self
        ensures { view_argument S.shown result ≡ with_default (view_argument S.shown self) (view_input S.shown value) }
    {
        Argument {
            name: self.name,
            description: self.description,
            arg_type: self.arg_type,
            default_value: Some(value),
        }
    }
}

/// A field of an object or an interface (3.6).
#[derive(Debug, Drop)]
pub struct Field<S> {
    /// Its name.
    pub name: String,
    /// Its description, where it has one.
    pub description: Option<String>,
    /// Its arguments in order, where it has some.
    pub arguments: Option<Vec<Argument<S>>>,
    /// Its type.
    pub field_type: Type<String>,
    /// Whether it is deprecated.
    pub deprecation_status: DeprecationStatus,
}

impl<S: ScalarValue> Field<S> {
    /// The field of this name and type, without description and arguments, and not deprecated.
    #[tactic(auto, unfolding(graphql_spec::specs::Schema::plain_field))]
    pub fn new(name: String, field_type: Type<String>) -> Self
        ensures { view_field S.shown result ≡ plain_field (string_bytes name) [] (view_type field_type) }
    {
        Field {
            name,
            description: None,
            arguments: None,
            field_type,
            deprecation_status: DeprecationStatus::Current,
        }
    }

    /// The same field with this description, in place of any that it had.
    pub fn description(self, description: String) -> Self
        ensures { view_field S.shown result ≡ described_field (view_field S.shown self) (string_bytes description) }
    {
        Field {
            name: self.name,
            description: Some(description),
            arguments: self.arguments,
            field_type: self.field_type,
            deprecation_status: self.deprecation_status,
        }
    }

    /// The same field with one more argument, behind those that it had; an error where memory is refused.
    pub fn argument(self, alloc: Global, argument: Argument<S>) -> Result<Self, AllocError>
        ensures { IfOk result (λ field. view_field S.shown field ≡ with_argument (view_field S.shown self) (view_argument S.shown argument)) }
    {
        let Field {
            name,
            description,
            arguments,
            field_type,
            deprecation_status,
        } = self;
        let arguments = appended(alloc, arguments, argument)?;
        Ok(Field {
            name,
            description,
            arguments: Some(arguments),
            field_type,
            deprecation_status,
        })
    }

    /// The same field, deprecated for this reason, where one is given.
    pub fn deprecated(self, reason: Option<String>) -> Self
        ensures { view_field S.shown result ≡ deprecated_field (view_field S.shown self) (view_text reason) }
    {
        let deprecation_status = DeprecationStatus::Deprecated(reason);
        Field {
            name: self.name,
            description: self.description,
            arguments: self.arguments,
            field_type: self.field_type,
            deprecation_status,
        }
    }

    /// The arguments that it declares, in order; empty where it has none.
    pub fn declared_arguments(&self) -> &[Argument<S>]
        ensures { map (view_argument S.shown) result.now ≡ (view_field S.shown self.now).arguments }
    {
        match &self.arguments {
            Some(arguments) => arguments.as_slice(),
            None => no_arguments(self),
        }
    }
}

/// No arguments.
fn no_arguments<S: ScalarValue>(field: &Field<S>) -> &[Argument<S>]
    ensures { result.now ≡ [] }
{
    &[]
}

/// The arguments with one more behind them.
fn appended<S: ScalarValue>(
    alloc: Global,
    arguments: Option<Vec<Argument<S>>>,
    argument: Argument<S>,
) -> Result<Vec<Argument<S>>, AllocError>
    ensures { IfOk result (λ made. map (view_argument S.shown) made.items
        ≡ items_or_none (view_argument S.shown) arguments ++ view_argument S.shown argument ∷ []) }
{
    match arguments {
        Some(mut items) => {
            items.push(argument)?;
            Ok(items)
        }
        None => {
            let mut items = Vec::new(alloc);
            items.push(argument)?;
            Ok(items)
        }
    }
}

/// A value of an enum (3.9).
#[derive(Debug, Drop)]
pub struct EnumValue {
    /// Its name.
    pub name: String,
    /// Its description, where it has one.
    pub description: Option<String>,
    /// Whether it is deprecated.
    pub deprecation_status: DeprecationStatus,
}

impl EnumValue {
    /// The value of this name, without description, and not deprecated.
    #[tactic(auto, unfolding(graphql_spec::specs::BuiltIns::value_named))]
    pub fn new(name: String) -> Self
        ensures { view_enum_value result ≡ value_named (string_bytes name) }
    {
        EnumValue {
            name,
            description: None,
            deprecation_status: DeprecationStatus::Current,
        }
    }

    /// The same value with this description, in place of any that it had.
    pub fn description(self, description: String) -> Self
        ensures { view_enum_value result ≡ described_value (view_enum_value self) (string_bytes description) }
    {
        EnumValue {
            name: self.name,
            description: Some(description),
            deprecation_status: self.deprecation_status,
        }
    }

    /// The same value, deprecated for this reason, where one is given.
    pub fn deprecated(self, reason: Option<String>) -> Self
        ensures { view_enum_value result ≡ deprecated_value (view_enum_value self) (view_text reason) }
    {
        EnumValue {
            name: self.name,
            description: self.description,
            deprecation_status: DeprecationStatus::Deprecated(reason),
        }
    }
}

/// The first field of this name.
#[tactic(auto, unfolding(graphql_spec::specs::Fields::field_in))]
pub fn find_field<'a, S: ScalarValue>(fields: &'a [Field<S>], name: &str) -> Option<&'a Field<S>>
    ensures { option_map (λ f. view_field S.shown f.now) result ≡ field_in (map (view_field S.shown) fields.now) name.now }
{
    for field in fields {
        if name == field.name.as_str() {
            return Some(field);
        }
    }
    None
}

/// The first argument, or field of an input object, of this name.
#[tactic(auto, unfolding(graphql_spec::specs::Fields::declaration_in))]
pub fn find_argument<'a, S: ScalarValue>(
    arguments: &'a [Argument<S>],
    name: &str,
) -> Option<&'a Argument<S>>
    ensures { option_map (λ a. view_argument S.shown a.now) result ≡ declaration_in (map (view_argument S.shown) arguments.now) name.now }
{
    for argument in arguments {
        if name == argument.name.as_str() {
            return Some(argument);
        }
    }
    None
}

/// Whether one of the values has this name (3.9).
#[tactic(auto, unfolding(graphql_spec::specs::Fields::declares_value))]
pub fn declares_value(values: &[EnumValue], name: &str) -> bool
    ensures { result ≡ declares_value (map view_enum_value values.now) name.now }
{
    for value in values {
        if name == value.name.as_str() {
            return true;
        }
    }
    false
}
