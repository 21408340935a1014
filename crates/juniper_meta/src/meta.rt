//! What types are declared as (section 3 of the Specification).

ghost use Rattle.std.specs.Prelude.{◌≡◌, IfOk, string_bytes, map, option_map, Some, None, [], ◌∷◌};
ghost use Rattle.graphql_spec.specs.Executable.{values_of, input_fields_of};
ghost use Rattle.graphql_spec.specs.Fields.{fields_of, interfaces_of, members_of, is_object, is_interface, is_composite, is_leaf, is_input, leaf_accepts};
ghost use Rattle.graphql_spec.specs.Fields.{enum_accepts, field_in, declaration_in};
ghost use Rattle.graphql_spec.specs.Introspected.{url_of};
ghost use Rattle.graphql_spec.specs.Schema.{scalar_type, enum_type, object_type, interface_type, union_type, input_object_type, list_type, nullable_type};
ghost use Rattle.graphql_spec.specs.Schema.{placeholder};
ghost use Rattle.juniper_meta.specs.MetaView.{view_type, view_text, view_names, view_kinds, view_argument, view_field, view_enum_value, innermost_names};
ghost use Rattle.juniper_meta.specs.MetaView.{view_scalar, view_enum, view_object, view_interface, view_union, view_input_object, view_list, view_nullable};
ghost use Rattle.juniper_meta.specs.MetaView.{view_placeholder, view_meta, shape_of};
ghost use Rattle.juniper_meta.specs.MetaView.{with_description, with_interfaces, with_url, kinds_of, is_placeholder, named_meta, unnamed_meta};

pub use crate::declaration::{Argument, DeprecationStatus, EnumValue, Field};
use crate::declaration::{declares_value, find_argument, find_field};
use crate::kinds::ScalarKinds;
use juniper_syntax::{ScalarValue, Type};
use std::alloc::{AllocError, Global};

/// A scalar: its name, and the kinds of scalars that it accepts (3.5).
#[derive(Debug, Drop)]
pub struct ScalarMeta {
    /// Its name.
    pub name: String,
    /// Its description, where it has one.
    pub description: Option<String>,
    /// Where it is specified, as a URL, where that is said (3.13.4).
    pub specified_by_url: Option<String>,
    /// The kinds of scalars that it accepts.
    pub kinds: ScalarKinds,
}

impl ScalarMeta {
    /// The scalar of this name that accepts these kinds, without description and URL.
    pub fn new(name: String, kinds: ScalarKinds) -> Self
        ensures { view_scalar result ≡ named_meta (string_bytes name) (scalar_type (view_kinds kinds) None) }
    {
        ScalarMeta {
            name,
            description: None,
            specified_by_url: None,
            kinds,
        }
    }

    /// The same type with this description, in place of any that it had.
    pub fn description(self, description: String) -> Self
        ensures { view_scalar result ≡ with_description (view_scalar self) (string_bytes description) }
    {
        ScalarMeta {
            name: self.name,
            description: Some(description),
            specified_by_url: self.specified_by_url,
            kinds: self.kinds,
        }
    }

    /// The same scalar, specified at this URL, in place of any that it had (3.13.4).
    pub fn specified_by_url(self, url: String) -> Self
        ensures { view_scalar result ≡ with_url (view_scalar self) (string_bytes url) }
    {
        ScalarMeta {
            name: self.name,
            description: self.description,
            specified_by_url: Some(url),
            kinds: self.kinds,
        }
    }

    /// It as a declaration of any kind.
    #[tactic(auto, unfolding(crate::specs::MetaView::view_meta))]
    pub fn into_meta<S: ScalarValue>(self) -> MetaType<S>
        ensures { view_meta S.shown result ≡ view_scalar self }
    {
        MetaType::Scalar(self)
    }
}

/// An enum (3.9).
#[derive(Debug, Drop)]
pub struct EnumMeta {
    /// Its name.
    pub name: String,
    /// Its description, where it has one.
    pub description: Option<String>,
    /// Its values in order.
    pub values: Vec<EnumValue>,
}

impl EnumMeta {
    /// The enum of this name with these values, without description.
    pub fn new(name: String, values: Vec<EnumValue>) -> Self
        ensures { view_enum result ≡ named_meta (string_bytes name) (enum_type (map view_enum_value values.items)) }
    {
        EnumMeta {
            name,
            description: None,
            values,
        }
    }

    /// The same type with this description, in place of any that it had.
    pub fn description(self, description: String) -> Self
        ensures { view_enum result ≡ with_description (view_enum self) (string_bytes description) }
    {
        EnumMeta {
            name: self.name,
            description: Some(description),
            values: self.values,
        }
    }

    /// It as a declaration of any kind.
    #[tactic(auto, unfolding(crate::specs::MetaView::view_meta))]
    pub fn into_meta<S: ScalarValue>(self) -> MetaType<S>
        ensures { view_meta S.shown result ≡ view_enum self }
    {
        MetaType::Enum(self)
    }
}

/// An object (3.6).
#[derive(Debug, Drop)]
pub struct ObjectMeta<S> {
    /// Its name.
    pub name: String,
    /// Its description, where it has one.
    pub description: Option<String>,
    /// Its fields in order.
    pub fields: Vec<Field<S>>,
    /// The names of the interfaces that it lists, in order.
    pub interface_names: Vec<String>,
}

impl<S: ScalarValue> ObjectMeta<S> {
    /// The object of this name with these fields, without description, that lists no interfaces.
    pub fn new(alloc: Global, name: String, fields: Vec<Field<S>>) -> Self
        ensures { view_object S.shown result ≡ named_meta (string_bytes name) (object_type (map (view_field S.shown) fields.items) []) }
    {
        ObjectMeta {
            name,
            description: None,
            fields,
            interface_names: Vec::new(alloc),
        }
    }

    /// The same type with this description, in place of any that it had.
    pub fn description(self, description: String) -> Self
        ensures { view_object S.shown result ≡ with_description (view_object S.shown self) (string_bytes description) }
    {
        ObjectMeta {
            name: self.name,
            description: Some(description),
            fields: self.fields,
            interface_names: self.interface_names,
        }
    }

    /// The same object that lists these interfaces, by their innermost names, in place of those that it listed; an error
    /// where memory is refused.
    pub fn interfaces(self, alloc: Global, interfaces: &[Type<String>]) -> Result<Self, AllocError>
        ensures { IfOk result (λ made. view_object S.shown made ≡ with_interfaces (view_object S.shown self) (innermost_names interfaces.now)) }
    {
        let ObjectMeta {
            name,
            description,
            fields,
            interface_names: _,
        } = self;
        let interface_names = names_of(alloc, interfaces)?;
        Ok(ObjectMeta {
            name,
            description,
            fields,
            interface_names,
        })
    }

    /// It as a declaration of any kind.
    #[tactic(auto, unfolding(crate::specs::MetaView::view_meta))]
    pub fn into_meta(self) -> MetaType<S>
        ensures { view_meta S.shown result ≡ view_object S.shown self }
    {
        MetaType::Object(self)
    }
}

/// An interface (3.7).
#[derive(Debug, Drop)]
pub struct InterfaceMeta<S> {
    /// Its name.
    pub name: String,
    /// Its description, where it has one.
    pub description: Option<String>,
    /// Its fields in order.
    pub fields: Vec<Field<S>>,
    /// The names of the interfaces that it lists, in order.
    pub interface_names: Vec<String>,
}

impl<S: ScalarValue> InterfaceMeta<S> {
    /// The interface of this name with these fields, without description, that lists no interfaces.
    pub fn new(alloc: Global, name: String, fields: Vec<Field<S>>) -> Self
        ensures { view_interface S.shown result ≡ named_meta (string_bytes name) (interface_type (map (view_field S.shown) fields.items) []) }
    {
        InterfaceMeta {
            name,
            description: None,
            fields,
            interface_names: Vec::new(alloc),
        }
    }

    /// The same type with this description, in place of any that it had.
    pub fn description(self, description: String) -> Self
        ensures { view_interface S.shown result ≡ with_description (view_interface S.shown self) (string_bytes description) }
    {
        InterfaceMeta {
            name: self.name,
            description: Some(description),
            fields: self.fields,
            interface_names: self.interface_names,
        }
    }

    /// The same interface that lists these interfaces, by their innermost names, in place of those that it listed; an error
    /// where memory is refused.
    pub fn interfaces(self, alloc: Global, interfaces: &[Type<String>]) -> Result<Self, AllocError>
        ensures { IfOk result (λ made. view_interface S.shown made ≡ with_interfaces (view_interface S.shown self) (innermost_names interfaces.now)) }
    {
        let InterfaceMeta {
            name,
            description,
            fields,
            interface_names: _,
        } = self;
        let interface_names = names_of(alloc, interfaces)?;
        Ok(InterfaceMeta {
            name,
            description,
            fields,
            interface_names,
        })
    }

    /// It as a declaration of any kind.
    #[tactic(auto, unfolding(crate::specs::MetaView::view_meta))]
    pub fn into_meta(self) -> MetaType<S>
        ensures { view_meta S.shown result ≡ view_interface S.shown self }
    {
        MetaType::Interface(self)
    }
}

/// A union (3.8).
#[derive(Debug, Drop)]
pub struct UnionMeta {
    /// Its name.
    pub name: String,
    /// Its description, where it has one.
    pub description: Option<String>,
    /// The names of its members in order.
    pub of_type_names: Vec<String>,
}

impl UnionMeta {
    /// The union of this name of these types, by their innermost names, without description; an error where memory is
    /// refused.
    pub fn new(alloc: Global, name: String, of_types: &[Type<String>]) -> Result<Self, AllocError>
        ensures { IfOk result (λ made. view_union made ≡ named_meta (string_bytes name) (union_type (innermost_names of_types.now))) }
    {
        let of_type_names = names_of(alloc, of_types)?;
        Ok(UnionMeta {
            name,
            description: None,
            of_type_names,
        })
    }

    /// The same type with this description, in place of any that it had.
    pub fn description(self, description: String) -> Self
        ensures { view_union result ≡ with_description (view_union self) (string_bytes description) }
    {
        UnionMeta {
            name: self.name,
            description: Some(description),
            of_type_names: self.of_type_names,
        }
    }

    /// It as a declaration of any kind.
    #[tactic(auto, unfolding(crate::specs::MetaView::view_meta))]
    pub fn into_meta<S: ScalarValue>(self) -> MetaType<S>
        ensures { view_meta S.shown result ≡ view_union self }
    {
        MetaType::Union(self)
    }
}

/// An input object (3.10).
#[derive(Debug, Drop)]
pub struct InputObjectMeta<S> {
    /// Its name.
    pub name: String,
    /// Its description, where it has one.
    pub description: Option<String>,
    /// Its fields in order.
    pub input_fields: Vec<Argument<S>>,
}

impl<S: ScalarValue> InputObjectMeta<S> {
    /// The input object of this name with these fields, without description.
    pub fn new(name: String, input_fields: Vec<Argument<S>>) -> Self
        ensures { view_input_object S.shown result ≡ named_meta (string_bytes name) (input_object_type (map (view_argument S.shown) input_fields.items)) }
    {
        InputObjectMeta {
            name,
            description: None,
            input_fields,
        }
    }

    /// The same type with this description, in place of any that it had.
    pub fn description(self, description: String) -> Self
        ensures { view_input_object S.shown result ≡ with_description (view_input_object S.shown self) (string_bytes description) }
    {
        InputObjectMeta {
            name: self.name,
            description: Some(description),
            input_fields: self.input_fields,
        }
    }

    /// It as a declaration of any kind.
    #[tactic(auto, unfolding(crate::specs::MetaView::view_meta))]
    pub fn into_meta(self) -> MetaType<S>
        ensures { view_meta S.shown result ≡ view_input_object S.shown self }
    {
        MetaType::InputObject(self)
    }
}

/// A list (3.11). It stands in a registry alone.
#[derive(Debug, Drop)]
pub struct ListMeta {
    /// The type of its items.
    pub of_type: Type<String>,
    /// The expected number of items, where there is one.
    pub expected_size: Option<usize>,
}

impl ListMeta {
    /// The list of items of this type, with this number of them, where one is expected.
    pub fn new(of_type: Type<String>, expected_size: Option<usize>) -> Self
        ensures { view_list result ≡ unnamed_meta (list_type expected_size (view_type of_type)) }
    {
        ListMeta {
            of_type,
            expected_size,
        }
    }

    /// It as a declaration of any kind.
    #[tactic(auto, unfolding(crate::specs::MetaView::view_meta))]
    pub fn into_meta<S: ScalarValue>(self) -> MetaType<S>
        ensures { view_meta S.shown result ≡ view_list self }
    {
        MetaType::List(self)
    }
}

/// A type that also takes null (3.12). It stands in a registry alone.
#[derive(Debug, Drop)]
pub struct NullableMeta {
    /// The type.
    pub of_type: Type<String>,
}

impl NullableMeta {
    /// This type, and null.
    pub fn new(of_type: Type<String>) -> Self
        ensures { view_nullable result ≡ unnamed_meta (nullable_type (view_type of_type)) }
    {
        NullableMeta { of_type }
    }

    /// It as a declaration of any kind.
    #[tactic(auto, unfolding(crate::specs::MetaView::view_meta))]
    pub fn into_meta<S: ScalarValue>(self) -> MetaType<S>
        ensures { view_meta S.shown result ≡ view_nullable self }
    {
        MetaType::Nullable(self)
    }
}

/// A type that is not declared yet. It stands in a registry alone.
#[derive(Debug, Drop)]
pub struct PlaceholderMeta {
    /// The type.
    pub of_type: Type<String>,
}

impl PlaceholderMeta {
    /// The declaration that stands for this type until it is declared.
    pub fn new(of_type: Type<String>) -> Self
        ensures shown { view_placeholder result ≡ unnamed_meta placeholder }
        ensures same_type { view_type result.of_type ≡ view_type of_type }
    {
        PlaceholderMeta { of_type }
    }

    /// It as a declaration of any kind.
    #[tactic(auto, unfolding(crate::specs::MetaView::view_meta))]
    pub fn into_meta<S: ScalarValue>(self) -> MetaType<S>
        ensures { view_meta S.shown result ≡ view_placeholder self }
    {
        MetaType::Placeholder(self)
    }
}

/// A declaration of a type (3.4).
#[derive(Debug, Drop)]
pub enum MetaType<S> {
    /// A scalar (3.5).
    Scalar(ScalarMeta),
    /// A list (3.11).
    List(ListMeta),
    /// A type that also takes null (3.12).
    Nullable(NullableMeta),
    /// An object (3.6).
    Object(ObjectMeta<S>),
    /// An enum (3.9).
    Enum(EnumMeta),
    /// An interface (3.7).
    Interface(InterfaceMeta<S>),
    /// A union (3.8).
    Union(UnionMeta),
    /// An input object (3.10).
    InputObject(InputObjectMeta<S>),
    /// A type that is not declared yet.
    Placeholder(PlaceholderMeta),
}

impl<S: ScalarValue> MetaType<S> {
    /// Its name; `None` for lists, for types that also take null, and for those that are not declared yet.
    #[tactic(auto, unfolding(crate::specs::MetaView::view_meta))]
    pub fn name(&self) -> Option<&str>
        ensures { option_map (λ n. n.now) result ≡ (view_meta S.shown self.now).name }
    {
        match self {
            MetaType::Scalar(meta) => Some(meta.name.as_str()),
            MetaType::Object(meta) => Some(meta.name.as_str()),
            MetaType::Enum(meta) => Some(meta.name.as_str()),
            MetaType::Interface(meta) => Some(meta.name.as_str()),
            MetaType::Union(meta) => Some(meta.name.as_str()),
            MetaType::InputObject(meta) => Some(meta.name.as_str()),
            MetaType::List(_) | MetaType::Nullable(_) | MetaType::Placeholder(_) => None,
        }
    }

    /// Its description, where it has one.
    #[tactic(auto, unfolding(crate::specs::MetaView::view_meta))]
    pub fn description(&self) -> Option<&str>
        ensures { option_map (λ t. t.now) result ≡ (view_meta S.shown self.now).description }
    {
        match self {
            MetaType::Scalar(meta) => text_of(&meta.description),
            MetaType::Object(meta) => text_of(&meta.description),
            MetaType::Enum(meta) => text_of(&meta.description),
            MetaType::Interface(meta) => text_of(&meta.description),
            MetaType::Union(meta) => text_of(&meta.description),
            MetaType::InputObject(meta) => text_of(&meta.description),
            MetaType::List(_) | MetaType::Nullable(_) | MetaType::Placeholder(_) => None,
        }
    }

    /// The fields that an object or an interface declares, in order; empty for other types.
    #[tactic(auto, unfolding(crate::specs::MetaView::view_meta, graphql_spec::specs::Fields::fields_of))]
    pub fn fields(&self) -> &[Field<S>]
        ensures { map (view_field S.shown) result.now ≡ fields_of (shape_of S.shown self.now) }
    {
        match self {
            MetaType::Object(meta) => meta.fields.as_slice(),
            MetaType::Interface(meta) => meta.fields.as_slice(),
            MetaType::Scalar(_)
            | MetaType::List(_)
            | MetaType::Nullable(_)
            | MetaType::Enum(_)
            | MetaType::Union(_)
            | MetaType::InputObject(_)
            | MetaType::Placeholder(_) => &[],
        }
    }

    /// The interfaces that an object or an interface lists, in order; empty for other types.
    #[tactic(auto, unfolding(crate::specs::MetaView::view_meta, graphql_spec::specs::Fields::interfaces_of))]
    pub fn interface_names(&self) -> &[String]
        ensures { view_names result.now ≡ interfaces_of (shape_of S.shown self.now) }
    {
        match self {
            MetaType::Object(meta) => meta.interface_names.as_slice(),
            MetaType::Interface(meta) => meta.interface_names.as_slice(),
            MetaType::Scalar(_)
            | MetaType::List(_)
            | MetaType::Nullable(_)
            | MetaType::Enum(_)
            | MetaType::Union(_)
            | MetaType::InputObject(_)
            | MetaType::Placeholder(_) => &[],
        }
    }

    /// The members of a union, in order; empty for other types.
    #[tactic(auto, unfolding(crate::specs::MetaView::view_meta, graphql_spec::specs::Fields::members_of))]
    pub fn of_type_names(&self) -> &[String]
        ensures { view_names result.now ≡ members_of (shape_of S.shown self.now) }
    {
        match self {
            MetaType::Union(meta) => meta.of_type_names.as_slice(),
            MetaType::Scalar(_)
            | MetaType::List(_)
            | MetaType::Nullable(_)
            | MetaType::Object(_)
            | MetaType::Enum(_)
            | MetaType::Interface(_)
            | MetaType::InputObject(_)
            | MetaType::Placeholder(_) => &[],
        }
    }

    /// The fields of an input object, in order; empty for other types.
    #[tactic(auto, unfolding(crate::specs::MetaView::view_meta, graphql_spec::specs::Executable::input_fields_of))]
    pub fn input_fields(&self) -> &[Argument<S>]
        ensures { map (view_argument S.shown) result.now ≡ input_fields_of (view_meta S.shown self.now).shape }
    {
        match self {
            MetaType::InputObject(meta) => meta.input_fields.as_slice(),
            MetaType::Scalar(_)
            | MetaType::List(_)
            | MetaType::Nullable(_)
            | MetaType::Object(_)
            | MetaType::Enum(_)
            | MetaType::Interface(_)
            | MetaType::Union(_)
            | MetaType::Placeholder(_) => &[],
        }
    }

    /// The values of an enum, in order; empty for other types.
    #[tactic(auto, unfolding(crate::specs::MetaView::view_meta, graphql_spec::specs::Executable::values_of))]
    pub fn values(&self) -> &[EnumValue]
        ensures { map view_enum_value result.now ≡ values_of (view_meta S.shown self.now).shape }
    {
        match self {
            MetaType::Enum(meta) => meta.values.as_slice(),
            MetaType::Scalar(_)
            | MetaType::List(_)
            | MetaType::Nullable(_)
            | MetaType::Object(_)
            | MetaType::Interface(_)
            | MetaType::Union(_)
            | MetaType::InputObject(_)
            | MetaType::Placeholder(_) => &[],
        }
    }

    /// The kinds of scalars that a scalar accepts; `None` for other types.
    #[tactic(auto, unfolding(crate::specs::MetaView::view_meta, crate::specs::MetaView::kinds_of))]
    pub fn kinds(&self) -> Option<ScalarKinds>
        ensures { option_map view_kinds result ≡ kinds_of (view_meta S.shown self.now).shape }
    {
        match self {
            MetaType::Scalar(meta) => Some(meta.kinds),
            MetaType::List(_)
            | MetaType::Nullable(_)
            | MetaType::Object(_)
            | MetaType::Enum(_)
            | MetaType::Interface(_)
            | MetaType::Union(_)
            | MetaType::InputObject(_)
            | MetaType::Placeholder(_) => None,
        }
    }

    /// Where a scalar is specified, as a URL, where that is said; `None` for other types (3.13.4).
    #[tactic(auto, unfolding(crate::specs::MetaView::view_meta, graphql_spec::specs::Introspected::url_of))]
    pub fn specified_by_url(&self) -> Option<&str>
        ensures { option_map (λ t. t.now) result ≡ url_of (Some (view_meta S.shown self.now).shape) }
    {
        match self {
            MetaType::Scalar(meta) => text_of(&meta.specified_by_url),
            MetaType::List(_)
            | MetaType::Nullable(_)
            | MetaType::Object(_)
            | MetaType::Enum(_)
            | MetaType::Interface(_)
            | MetaType::Union(_)
            | MetaType::InputObject(_)
            | MetaType::Placeholder(_) => None,
        }
    }

    /// Whether it is an object (3.6).
    #[tactic(auto, unfolding(crate::specs::MetaView::view_meta, graphql_spec::specs::Fields::is_object))]
    pub fn is_object(&self) -> bool
        ensures { result ≡ is_object (shape_of S.shown self.now) }
    {
        match self {
            MetaType::Object(_) => true,
            MetaType::Scalar(_)
            | MetaType::List(_)
            | MetaType::Nullable(_)
            | MetaType::Enum(_)
            | MetaType::Interface(_)
            | MetaType::Union(_)
            | MetaType::InputObject(_)
            | MetaType::Placeholder(_) => false,
        }
    }

    /// Whether it is an interface (3.7).
    #[tactic(auto, unfolding(crate::specs::MetaView::view_meta, graphql_spec::specs::Fields::is_interface))]
    pub fn is_interface(&self) -> bool
        ensures { result ≡ is_interface (shape_of S.shown self.now) }
    {
        match self {
            MetaType::Interface(_) => true,
            MetaType::Scalar(_)
            | MetaType::List(_)
            | MetaType::Nullable(_)
            | MetaType::Object(_)
            | MetaType::Enum(_)
            | MetaType::Union(_)
            | MetaType::InputObject(_)
            | MetaType::Placeholder(_) => false,
        }
    }

    /// Whether it is an object, an interface or a union (3.6 to 3.8).
    #[tactic(auto, unfolding(crate::specs::MetaView::view_meta, graphql_spec::specs::Fields::is_composite))]
    pub fn is_composite(&self) -> bool
        ensures { result ≡ is_composite (shape_of S.shown self.now) }
    {
        match self {
            MetaType::Object(_) | MetaType::Interface(_) | MetaType::Union(_) => true,
            MetaType::Scalar(_)
            | MetaType::List(_)
            | MetaType::Nullable(_)
            | MetaType::Enum(_)
            | MetaType::InputObject(_)
            | MetaType::Placeholder(_) => false,
        }
    }

    /// Whether it is a scalar or an enum (3.5, 3.9).
    #[tactic(auto, unfolding(crate::specs::MetaView::view_meta, graphql_spec::specs::Fields::is_leaf))]
    pub fn is_leaf(&self) -> bool
        ensures { result ≡ is_leaf (shape_of S.shown self.now) }
    {
        match self {
            MetaType::Scalar(_) | MetaType::Enum(_) => true,
            MetaType::List(_)
            | MetaType::Nullable(_)
            | MetaType::Object(_)
            | MetaType::Interface(_)
            | MetaType::Union(_)
            | MetaType::InputObject(_)
            | MetaType::Placeholder(_) => false,
        }
    }

    /// Whether it is a scalar, an enum or an input object (3.4.2).
    #[tactic(auto, unfolding(crate::specs::MetaView::view_meta, graphql_spec::specs::Fields::is_input))]
    pub fn is_input(&self) -> bool
        ensures { result ≡ is_input (shape_of S.shown self.now) }
    {
        match self {
            MetaType::Scalar(_) | MetaType::Enum(_) | MetaType::InputObject(_) => true,
            MetaType::List(_)
            | MetaType::Nullable(_)
            | MetaType::Object(_)
            | MetaType::Interface(_)
            | MetaType::Union(_)
            | MetaType::Placeholder(_) => false,
        }
    }

    /// Whether it stands for a type that is not declared yet.
    #[tactic(auto, unfolding(crate::specs::MetaView::view_meta, crate::specs::MetaView::is_placeholder))]
    pub fn is_placeholder(&self) -> bool
        ensures { result ≡ is_placeholder (view_meta S.shown self.now).shape }
    {
        match self {
            MetaType::Placeholder(_) => true,
            MetaType::Scalar(_)
            | MetaType::List(_)
            | MetaType::Nullable(_)
            | MetaType::Object(_)
            | MetaType::Enum(_)
            | MetaType::Interface(_)
            | MetaType::Union(_)
            | MetaType::InputObject(_) => false,
        }
    }

    /// Whether it is a scalar that accepts the kind of this one, or an enum with a value that this text names (6.4.3).
    #[tactic(auto, unfolding(crate::specs::MetaView::view_meta, graphql_spec::specs::Fields::leaf_accepts))]
    pub fn accepts(&self, scalar: &S) -> bool
        ensures { result ≡ leaf_accepts (shape_of S.shown self.now) (S.shown scalar.now) }
    {
        match self {
            MetaType::Scalar(meta) => meta.kinds.accept(scalar),
            MetaType::Enum(meta) => enum_accepts(meta.values.as_slice(), scalar),
            MetaType::List(_)
            | MetaType::Nullable(_)
            | MetaType::Object(_)
            | MetaType::Interface(_)
            | MetaType::Union(_)
            | MetaType::InputObject(_)
            | MetaType::Placeholder(_) => false,
        }
    }

    /// The first field of this name that an object or an interface declares.
    pub fn field_by_name(&self, name: &str) -> Option<&Field<S>>
        ensures { option_map (λ f. view_field S.shown f.now) result ≡ field_in (fields_of (shape_of S.shown self.now)) name.now }
    {
        find_field(self.fields(), name)
    }

    /// The first field of this name of an input object.
    pub fn input_field_by_name(&self, name: &str) -> Option<&Argument<S>>
        ensures { option_map (λ a. view_argument S.shown a.now) result ≡ declaration_in (input_fields_of (view_meta S.shown self.now).shape) name.now }
    {
        find_argument(self.input_fields(), name)
    }
}

/// The text, where there is one.
fn text_of(text: &Option<String>) -> Option<&str>
    ensures { option_map (λ t. t.now) result ≡ view_text text.now }
{
    match text {
        Some(text) => Some(text.as_str()),
        None => None,
    }
}

/// The innermost names of types.
fn names_of(alloc: Global, types: &[Type<String>]) -> Result<Vec<String>, AllocError>
    ensures { IfOk result (λ names. view_names names.items ≡ innermost_names types.now) }
{
    let mut names = Vec::new(alloc);
    for of_type in types {
        names.push(String::from_str(alloc, of_type.innermost_name())?)?;
    }
    Ok(names)
}

/// Whether the scalar is a text that names one of the values.
#[tactic(auto, unfolding(graphql_spec::specs::Fields::enum_accepts, graphql_spec::specs::Shown::shown_text))]
fn enum_accepts<S: ScalarValue>(values: &[EnumValue], scalar: &S) -> bool
    ensures { result ≡ enum_accepts (map view_enum_value values.now) (S.shown scalar.now) }
{
    match scalar.try_to_str() {
        Some(text) => declares_value(values, text),
        None => false,
    }
}
