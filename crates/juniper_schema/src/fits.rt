//! Which input values fit a type (sections 3.5 to 3.12 and 5.6.1 of the Specification).

ghost use Rattle.std.specs.Prelude.{◌≡◌, ◌&&◌, Bool, Some, false, map, option_map, string_bytes};
ghost use Rattle.graphql_spec.specs.Fields.{declaration_in, type_named};
ghost use Rattle.graphql_spec.specs.Fits as fit;
ghost use Rattle.graphql_spec.specs.Schema.{Schema};
ghost use Rattle.juniper_meta.specs.MetaView.{shape_of, view_argument};
ghost use Rattle.juniper_schema.specs.Fitting.{declared_fields, declared_of, each_fits, fits_some, is_supplied, keys_differ, list_fits, object_by, takes_one};
ghost use Rattle.juniper_schema.specs.Fitting.{object_fits_type};
ghost use Rattle.juniper_schema.specs.SchemaView.{view_schema};
ghost use Rattle.juniper_syntax.specs.InputView.{view_fields, view_input, view_items};
ghost use Rattle.juniper_syntax.specs.TypeView.{view_type};

use crate::schema::SchemaType;
use juniper_meta::{Argument, MetaType, declares_value, find_argument};
use juniper_syntax::{InputField, InputValue, ScalarValue, Span, Spanning, Type};

impl<S: ScalarValue> SchemaType<S> {
    /// Whether the value fits the type (5.6.1). A variable fits every type, and null the nullable ones; what is no list
    /// stands at a list type for the list of itself alone. Where the value was given for a variable, a text that names an
    /// enum's value fits the enum.
    #[cycle(fits)]
    #[tactic(auto, using(juniper_syntax::proofs::Inputs::input_views), unfolding(graphql_spec::specs::Fits::fits, crate::specs::Fitting::list_fits))]
    pub fn fits(&self, value: &InputValue<S>, reference: &Type<String>, given: bool) -> bool
        ensures { result ≡ fit.fits (view_schema S.shown self.now) given (view_input S.shown value.now) (view_type (λ n. string_bytes n) reference.now) }
    {
        match value {
            InputValue::Null => !reference.is_non_null(),
            InputValue::Variable(_) => true,
            InputValue::Scalar(scalar) => self.scalar_stands(scalar, reference, given),
            InputValue::Enum(name) => self.enum_stands(name.as_str(), reference),
            InputValue::List(items) => self.list_fits(items.as_slice(), reference, given),
            InputValue::Object(fields) => self.object_stands(fields.as_slice(), reference, given),
        }
    }

    /// Whether a list fits the type.
    #[cycle(fits)]
    #[tactic(auto, using(crate::proofs::Fitting::count_is), unfolding(crate::specs::Fitting::list_fits))]
    fn list_fits(
        &self,
        items: &[Spanning<InputValue<S>, Span>],
        reference: &Type<String>,
        given: bool,
    ) -> bool
        ensures { result ≡ list_fits (view_schema S.shown self.now) given (view_items S.shown items.now) (view_type (λ n. string_bytes n) reference.now) }
    {
        match reference {
            Type::Named(_) => false,
            Type::NonNullNamed(_) => false,
            Type::List(inner, size) => {
                is_met(*size, items.len()) && self.all_fit(items, &**inner, given)
            }
            Type::NonNullList(inner, size) => {
                is_met(*size, items.len()) && self.all_fit(items, &**inner, given)
            }
        }
    }

    /// Whether each item fits the type.
    #[cycle(fits)]
    #[tactic(auto, unfolding(graphql_spec::specs::Fits::fits))]
    fn all_fit(
        &self,
        items: &[Spanning<InputValue<S>, Span>],
        reference: &Type<String>,
        given: bool,
    ) -> bool
        ensures { result ≡ fit.all_fit (view_schema S.shown self.now) given (view_items S.shown items.now) (view_type (λ n. string_bytes n) reference.now) }
    {
        for item in items {
            if !self.fits(&item.item, reference, given) {
                return false;
            }
        }
        true
    }

    /// Whether an object fits the type.
    #[cycle(fits)]
    fn object_stands(&self, fields: &[InputField<S>], reference: &Type<String>, given: bool) -> bool
        ensures { result ≡ object_fits_type (view_schema S.shown self.now) given (view_fields S.shown fields.now)
            (view_type (λ n. string_bytes n) reference.now) }
    {
        if !takes_one(reference) {
            return false;
        }
        self.object_fits(fields, reference.innermost_name(), given)
    }

    /// Whether the fields fit the input object of this name (3.10).
    #[cycle(fits)]
    #[tactic(auto, unfolding(crate::specs::Fitting::object_by, crate::specs::Fitting::declared_of))]
    fn object_fits(&self, fields: &[InputField<S>], type_name: &str, given: bool) -> bool
        ensures { result ≡ object_by (view_schema S.shown self.now) given (view_fields S.shown fields.now)
            (declared_fields (type_named (view_schema S.shown self.now) type_name.now)) }
    {
        match self.declared_fields(type_name) {
            Some(declared) => {
                are_few(fields, declared)
                    && all_written(fields, declared)
                    && keys_differ(fields)
                    && self.each_fits(fields, type_name, given)
            }
            None => false,
        }
    }

    /// Whether each field is declared by the input object of this name, and its value fits (5.6.2).
    #[cycle(fits)]
    #[tactic(auto, unfolding(crate::specs::Fitting::each_fits))]
    fn each_fits(&self, fields: &[InputField<S>], type_name: &str, given: bool) -> bool
        ensures { result ≡ each_fits (view_schema S.shown self.now) given (view_fields S.shown fields.now)
            (declared_of (type_named (view_schema S.shown self.now) type_name.now)) }
    {
        for (name, value) in fields {
            let reference = self.declared_type(type_name, name.item.as_str());
            if !self.fits_some(&value.item, reference, given) {
                return false;
            }
        }
        true
    }

    /// Whether the value fits the type, where there is one.
    #[cycle(fits)]
    fn fits_some(
        &self,
        value: &InputValue<S>,
        reference: Option<&Type<String>>,
        given: bool,
    ) -> bool
        ensures { result ≡ fits_some (λ t. fit.fits (view_schema S.shown self.now) given (view_input S.shown value.now) t)
            (option_map (λ t. view_type (λ n. string_bytes n) t.now) reference.entry) }
    {
        match reference {
            Some(reference) => self.fits(value, reference, given),
            None => false,
        }
    }

    /// The type of a field of the input object of this name.
    #[tactic(auto, unfolding(crate::specs::Fitting::declared_of, graphql_spec::specs::Fields::declaration_in))]
    fn declared_type(&self, type_name: &str, field_name: &str) -> Option<&Type<String>>
        ensures { option_map (λ t. view_type (λ n. string_bytes n) t.now) result
            ≡ option_map (λ d. d.of_type) (declaration_in (declared_of (type_named (view_schema S.shown self.now) type_name.now)) field_name.now) }
    {
        match self.declared_fields(type_name) {
            Some(declared) => type_of(find_argument(declared, field_name)),
            None => None,
        }
    }

    /// The fields of the input object of this name.
    #[tactic(auto, unfolding(crate::specs::Fitting::declared_fields))]
    fn declared_fields(&self, type_name: &str) -> Option<&[Argument<S>]>
        ensures { option_map (λ ds. map (view_argument S.shown) ds.now) result ≡ declared_fields (type_named (view_schema S.shown self.now) type_name.now) }
    {
        match self.concrete_type_by_name(type_name) {
            Some(meta) => input_object(meta),
            None => None,
        }
    }

    /// Whether a scalar fits the type.
    fn scalar_stands(&self, scalar: &S, reference: &Type<String>, given: bool) -> bool
        ensures { result ≡ fit.through (λ n. fit.scalar_fits given (S.shown scalar.now) (type_named (view_schema S.shown self.now) n))
            (view_type (λ n. string_bytes n) reference.now) }
    {
        if !takes_one(reference) {
            return false;
        }
        self.scalar_fits(scalar, reference.innermost_name(), given)
    }

    /// Whether an enum's value fits the type.
    fn enum_stands(&self, value: &str, reference: &Type<String>) -> bool
        ensures { result ≡ fit.through (λ n. fit.enum_fits value.now (type_named (view_schema S.shown self.now) n))
            (view_type (λ n. string_bytes n) reference.now) }
    {
        if !takes_one(reference) {
            return false;
        }
        self.enum_fits(value, reference.innermost_name())
    }

    /// Whether a scalar fits the type of this name.
    #[tactic(auto, unfolding(graphql_spec::specs::Fits::scalar_fits))]
    fn scalar_fits(&self, scalar: &S, type_name: &str, given: bool) -> bool
        ensures { result ≡ fit.scalar_fits given (S.shown scalar.now) (type_named (view_schema S.shown self.now) type_name.now) }
    {
        match self.concrete_type_by_name(type_name) {
            Some(meta) => scalar_fits(meta, scalar, given),
            None => false,
        }
    }

    /// Whether the type of this name is an enum that declares the value.
    #[tactic(auto, unfolding(graphql_spec::specs::Fits::enum_fits))]
    fn enum_fits(&self, value: &str, type_name: &str) -> bool
        ensures { result ≡ fit.enum_fits value.now (type_named (view_schema S.shown self.now) type_name.now) }
    {
        match self.concrete_type_by_name(type_name) {
            Some(meta) => enum_fits(meta, value),
            None => false,
        }
    }
}

/// The fields of an input object (3.10).
#[tactic(auto, unfolding(juniper_meta::specs::MetaView::view_meta, crate::specs::Fitting::declared_fields))]
fn input_object<S: ScalarValue>(meta: &MetaType<S>) -> Option<&[Argument<S>]>
    ensures { option_map (λ ds. map (view_argument S.shown) ds.now) result ≡ declared_fields (shape_of S.shown meta.now) }
{
    match meta {
        MetaType::InputObject(declared) => Some(declared.input_fields.as_slice()),
        MetaType::Scalar(_) => None,
        MetaType::List(_) => None,
        MetaType::Nullable(_) => None,
        MetaType::Object(_) => None,
        MetaType::Enum(_) => None,
        MetaType::Interface(_) => None,
        MetaType::Union(_) => None,
        MetaType::Placeholder(_) => None,
    }
}

/// Whether fields are no more than those that are declared. More of them do not fit: one is not declared, or stands twice. So it takes no longer
/// than the declaration is.
#[tactic(auto, using(crate::proofs::FewFields::object_by_few))]
fn are_few<S: ScalarValue>(fields: &[InputField<S>], declared: &[Argument<S>]) -> bool
    ensures { result ≡ false → (s : Schema) (given : Bool) →
        object_by s given (view_fields S.shown fields.now) (Some (map (view_argument S.shown) declared.now)) ≡ false }
{
    if declared.len() < fields.len() {
        return false;
    }
    true
}

/// Whether no two fields have one name (5.6.3).
#[tactic(auto, unfolding(crate::specs::Fitting::keys_differ))]
fn keys_differ<S: ScalarValue>(fields: &[InputField<S>]) -> bool
    ensures { result ≡ keys_differ (view_fields S.shown fields.now) }
{
    let mut left = fields;
    while let [(name, _), others @ ..] = left {
        if has_field(others, name.item.as_str()) {
            return false;
        }
        left = others;
    }
    true
}

/// Whether a scalar fits what is declared: it is of an accepted kind, or it was given for a variable and names a value of an
/// enum.
#[tactic(auto, using(crate::proofs::Fitting::scalar_fits_is))]
fn scalar_fits<S: ScalarValue>(meta: &MetaType<S>, scalar: &S, given: bool) -> bool
    ensures { result ≡ fit.scalar_fits given (S.shown scalar.now) (shape_of S.shown meta.now) }
{
    (given || meta.kinds().is_some()) && meta.accepts(scalar)
}

/// Whether an enum is declared that has the value (3.9).
#[tactic(auto, using(crate::proofs::Fitting::enum_fits_is))]
fn enum_fits<S: ScalarValue>(meta: &MetaType<S>, value: &str) -> bool
    ensures { result ≡ fit.enum_fits value.now (shape_of S.shown meta.now) }
{
    declares_value(meta.values(), value)
}

/// The type of a declared field, where there is one.
fn type_of<S: ScalarValue>(argument: Option<&Argument<S>>) -> Option<&Type<String>>
    ensures { option_map (λ t. view_type (λ n. string_bytes n) t.now) result
        ≡ option_map (λ d. d.of_type) (option_map (λ a. view_argument S.shown a.now) argument.entry) }
{
    match argument {
        Some(argument) => Some(&argument.arg_type),
        None => None,
    }
}

/// Whether what is no list may stand at the type: each list in it may have one item.
#[tactic(auto, unfolding(crate::specs::Fitting::takes_one))]
fn takes_one(reference: &Type<String>) -> bool
    ensures { result ≡ takes_one (view_type (λ n. string_bytes n) reference.now) }
{
    match reference {
        Type::Named(_) => true,
        Type::NonNullNamed(_) => true,
        Type::List(inner, size) => is_met(*size, 1) && takes_one(&**inner),
        Type::NonNullList(inner, size) => is_met(*size, 1) && takes_one(&**inner),
    }
}

/// Whether a list of so many items has the expected number, where there is one.
#[tactic(auto, unfolding(graphql_spec::specs::Fits::size_met))]
fn is_met(expected: Option<usize>, count: usize) -> bool
    ensures { result ≡ fit.size_met expected count }
{
    match expected {
        Some(size) => size == count,
        None => true,
    }
}

/// Whether each declared field that is non-null and has no default is written (3.10).
#[tactic(auto, unfolding(graphql_spec::specs::Fits::all_written))]
fn all_written<S: ScalarValue>(fields: &[InputField<S>], declared: &[Argument<S>]) -> bool
    ensures { result ≡ fit.all_written (view_fields S.shown fields.now) (map (view_argument S.shown) declared.now) }
{
    for argument in declared {
        if !is_supplied(fields, argument) {
            return false;
        }
    }
    true
}

/// Whether the declared field is written, or may be left out.
fn is_supplied<S: ScalarValue>(fields: &[InputField<S>], argument: &Argument<S>) -> bool
    ensures { result ≡ is_supplied (view_fields S.shown fields.now) (view_argument S.shown argument.now) }
{
    !(argument.arg_type.is_non_null() && argument.default_value.is_none())
        || has_field(fields, argument.name.as_str())
}

/// Whether a field of this name is written in an input object (3.10).
#[tactic(auto, unfolding(graphql_spec::specs::Fits::has_field))]
pub fn has_field<S: ScalarValue>(fields: &[InputField<S>], name: &str) -> bool
    ensures { result ≡ fit.has_field name.now (view_fields S.shown fields.now) }
{
    for (key, _) in fields {
        if name == key.item.as_str() {
            return true;
        }
    }
    false
}
