//! What nodes of introspection stand for (section 4.2 of the Specification).

ghost use Rattle.std.specs.Option.{option_and_then};
ghost use Rattle.std.specs.Prelude.{◌≡◌, IfOk, IsTrue, get_or, map};
ghost use Rattle.graphql_spec.specs.Executable.{is_executable};
ghost use Rattle.graphql_spec.specs.TypeList.{type_list};
ghost use Rattle.graphql_spec.specs.Fields.{shape_of};
ghost use Rattle.graphql_spec.specs.Introspected.{declaration_of, declared_as, description_of};
ghost use Rattle.juniper_intro.specs.Handles as spec;
ghost use Rattle.juniper_intro.specs.HandleView.{view_input_place, view_type_place};
ghost use Rattle.juniper_intro.specs.Naming.{listed_in, names_in};
ghost use Rattle.juniper_intro.specs.Numbers.{all_names};
ghost use Rattle.juniper_intro.specs.Shapes.{shape_in};
ghost use Rattle.juniper_schema.specs.SchemaView.{view_schema};
ghost use Rattle.juniper_intro.specs.References.{view_reference};
ghost use Rattle.juniper_meta.specs.MetaView.{view_argument, view_directive, view_enum_value, view_field, view_meta};

use crate::absent::Absent;
use crate::handle::{InputPlace, TypePlace};
use crate::names::TypeNames;
use crate::reference::Reference;
use juniper_meta::meta::Field;
use juniper_meta::{Argument, DirectiveType, EnumValue, MetaType};
use juniper_schema::SchemaType;
use juniper_syntax::ScalarValue;
use std::alloc::{AllocError, Global};

/// A schema that can be executed, with what its nodes of introspection are looked up in: the names of its types, and what
/// stands for nothing.
#[derive(Drop)]
pub struct Introspector<S: ScalarValue> {
    pub(crate) schema: SchemaType<S>,
    pub(crate) names: TypeNames,
    pub(crate) absent: Absent<S>,
    ghost executable: { IsTrue (is_executable (view_schema S.shown schema)) },
    ghost named: { names_in names ≡ all_names (view_schema S.shown schema) },
    ghost listed: { listed_in names ≡ map (λ e. e.key) (type_list (view_schema S.shown schema)) },
}

impl<S: ScalarValue> Introspector<S> {
    ghost use Rattle.juniper_intro.specs.Introspectors.{names_of, number_of, schema_of};

    /// Of a schema that can be executed; an error where memory is refused.
    pub fn new(alloc: Global, schema: SchemaType<S>) -> Result<Self, AllocError>
        requires { IsTrue (is_executable (view_schema S.shown schema)) }
        ensures { IfOk result (λ made. schema_of made ≡ schema) }
    {
        let names = TypeNames::new(alloc, &schema)?;
        Ok(Introspector {
            schema,
            names,
            absent: Absent::new(alloc),
        })
    }

    /// The schema.
    pub fn schema(&self) -> &SchemaType<S>
        ensures { result.now ≡ schema_of self.now }
    {
        &self.schema
    }

    /// What is declared at the name that a reference is.
    pub(crate) fn declared_as(&self, reference: Reference<'_>) -> Option<&MetaType<S>>
        ensures shape { shape_in S.shown result ≡ shape_of (declared_as (view_schema S.shown (schema_of self.now)) (view_reference reference.entry)) }
        ensures description { option_and_then (λ m. (view_meta S.shown m.now).description) result
            ≡ description_of (declared_as (view_schema S.shown (schema_of self.now)) (view_reference reference.entry)) }
    {
        match reference.own_name() {
            Some(name) => self.schema.concrete_type_by_name(name),
            None => None,
        }
    }

    /// What is declared at the name of this number.
    fn declared_at(&self, number: usize) -> Option<&MetaType<S>>
        ensures { shape_in S.shown result ≡ spec.shape_at (view_schema S.shown (schema_of self.now)) (names_of self.now) number }
    {
        self.schema.concrete_type_by_name(self.names.name(number))
    }

    /// The field of this number of the type of that.
    pub(crate) fn field(&self, of_type: usize, number: usize) -> &Field<S>
        ensures { view_field S.shown result.now ≡ spec.field_at (view_schema S.shown (schema_of self.now)) (names_of self.now) of_type number }
    {
        match self.declared_at(of_type) {
            Some(meta) => nth_or(meta.fields(), number, &self.absent.field),
            None => &self.absent.field,
        }
    }

    /// The value of this number of the enum of that.
    pub(crate) fn value(&self, of_type: usize, number: usize) -> &EnumValue
        ensures { view_enum_value result.now ≡ spec.value_at (view_schema S.shown (schema_of self.now)) (names_of self.now) of_type number }
    {
        match self.declared_at(of_type) {
            Some(meta) => nth_or(meta.values(), number, &self.absent.value),
            None => &self.absent.value,
        }
    }

    /// The directive of this number.
    pub(crate) fn directive(&self, number: usize) -> &DirectiveType<S>
        ensures { view_directive S.shown result.now ≡ spec.directive_at number }
    {
        nth_or(self.schema.directives(), number, &self.absent.directive)
    }

    /// The argument or input field at this place.
    pub(crate) fn input(&self, place: InputPlace) -> &Argument<S>
        ensures { view_argument S.shown result.now ≡ spec.input_at (view_schema S.shown (schema_of self.now)) (names_of self.now) (view_input_place place) }
    {
        match place {
            InputPlace::OfField(of_type, field, number) => nth_or(
                self.field(of_type, field).declared_arguments(),
                number,
                &self.absent.input,
            ),
            InputPlace::OfInputObject(of_type, number) => self.input_field(of_type, number),
            InputPlace::OfDirective(directive, number) => nth_or(
                self.directive(directive).arguments.as_slice(),
                number,
                &self.absent.input,
            ),
        }
    }

    /// The field of this number of the input object of that.
    fn input_field(&self, of_type: usize, number: usize) -> &Argument<S>
        ensures { view_argument S.shown result.now ≡ spec.input_at (view_schema S.shown (schema_of self.now)) (names_of self.now)
            (spec.of_input_object of_type number) }
    {
        match self.declared_at(of_type) {
            Some(meta) => nth_or(meta.input_fields(), number, &self.absent.input),
            None => &self.absent.input,
        }
    }

    /// The reference at this place.
    pub(crate) fn reference(&self, place: TypePlace) -> Reference<'_>
        ensures { view_reference result ≡ spec.reference_at (view_schema S.shown (schema_of self.now)) (names_of self.now) (view_type_place place) }
    {
        match place {
            TypePlace::ByName(number) => Reference::Named(self.names.name(number)),
            TypePlace::AtField(of_type, field) => {
                Reference::Written(&self.field(of_type, field).field_type)
            }
            TypePlace::AtInput(place) => Reference::Written(&self.input(place).arg_type),
        }
    }
}

/// The item of this number, or another where there is none.
fn nth_or<'a, T>(items: &'a [T], number: usize, other: &'a T) -> &'a T
    ensures { result.now ≡ get_or items.now number other.now }
{
    match items.get(number) {
        Some(item) => item,
        None => other,
    }
}
