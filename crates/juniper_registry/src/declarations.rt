//! Declarations in few words: fields with arguments, and types (section 3 of the Specification). What they answer is for a
//! type's `meta`; a registry that they are asked of changes only where that is said.

ghost use Rattle.std.specs.Prelude.{◌≡◌, ◌++◌, ◌∷◌, [], IfOk, map};
ghost use Rattle.graphql_spec.specs.BuiltIns.{value_named};
ghost use Rattle.graphql_spec.specs.Fields.{typename_field};
ghost use Rattle.graphql_spec.specs.Schema.{plain_field};
ghost use Rattle.graphql_spec.specs.Types.{innermost};
ghost use Rattle.juniper_meta.specs.MetaView.{view_argument, view_enum_value, view_field, view_meta, view_names};

use crate::graphql_type::GraphQLReference;
use crate::registry::Registry;
use juniper_meta::meta::Field;
use juniper_meta::{
    Argument, DeprecationStatus, EnumMeta, EnumValue, InputObjectMeta, InterfaceMeta, MetaType,
    ObjectMeta, UnionMeta,
};
use juniper_syntax::ScalarValue;
use std::alloc::{AllocError, Global};

impl<S: ScalarValue> Registry<S> {
    ghost use Rattle.juniper_registry.specs.DeclaredTypes.{enum, input_object, interface, object, union};
    ghost use Rattle.juniper_registry.specs.Entries.{Awaits, KeepsAdding};
    ghost use Rattle.juniper_registry.specs.RegistryView.{view_registry};

    /// The field of this name and type with this argument, without description, and not deprecated (3.6.1). The registry
    /// changes as by `get_type`; an error where memory is refused.
    pub fn field_with<T: GraphQLReference<S>>(
        &mut self,
        name: &str,
        argument: Argument<S>,
        info: &T::TypeInfo,
    ) -> Result<Field<S>, AllocError>
        ensures made { IfOk result (λ f. view_field S.shown f ≡ plain_field name.now (view_argument S.shown argument ∷ []) (T.reference info.now)) }
        ensures awaited { Awaits result (innermost (T.reference info.now)) (view_registry S.shown self.old) (view_registry S.shown self.new) }
        ensures added { KeepsAdding (view_registry S.shown self.old) (view_registry S.shown self.new) }
    {
        let mut arguments = Vec::new(self.alloc);
        arguments.push(argument)?;
        self.field_with_all::<T>(name, arguments, info)
    }

    /// The field of this name and type with these arguments, without description, and not deprecated (3.6.1). The registry
    /// changes as by `get_type`; an error where memory is refused.
    pub fn field_with_all<T: GraphQLReference<S>>(
        &mut self,
        name: &str,
        arguments: Vec<Argument<S>>,
        info: &T::TypeInfo,
    ) -> Result<Field<S>, AllocError>
        ensures made { IfOk result (λ f. view_field S.shown f ≡ plain_field name.now (map (view_argument S.shown) arguments.items) (T.reference info.now)) }
        ensures awaited { Awaits result (innermost (T.reference info.now)) (view_registry S.shown self.old) (view_registry S.shown self.new) }
        ensures added { KeepsAdding (view_registry S.shown self.old) (view_registry S.shown self.new) }
    {
        let own = String::from_str(self.alloc, name)?;
        let field_type = self.get_type::<T>(info)?;
        Ok(Field {
            name: own,
            description: None,
            arguments: Some(arguments),
            field_type,
            deprecation_status: DeprecationStatus::Current,
        })
    }

    /// The object of this name with these fields and behind them `__typename: String!`, without description, that lists no
    /// interfaces (3.6); an error where memory is refused.
    pub fn object_type<const F: usize>(
        &self,
        name: &str,
        fields: [Field<S>; F],
    ) -> Result<MetaType<S>, AllocError>
        ensures { IfOk result (λ m. view_meta S.shown m ≡ object name.now (map (view_field S.shown) fields) []) }
    {
        self.object_type_of(name, [], fields, &[])
    }

    /// The object of this name that lists the interfaces of these names, with their fields, its own, and behind them
    /// `__typename: String!`, without description (3.6); an error where memory is refused.
    pub fn object_type_of<const I: usize, const F: usize>(
        &self,
        name: &str,
        fields: [Field<S>; I],
        own_fields: [Field<S>; F],
        interfaces: &[&str],
    ) -> Result<MetaType<S>, AllocError>
        ensures { IfOk result (λ m. view_meta S.shown m
            ≡ object name.now (map (view_field S.shown) fields ++ map (view_field S.shown) own_fields) (map (λ n. n.now) interfaces.now)) }
    {
        let mut all = Vec::from_array(self.alloc, fields)?;
        all.append(&mut Vec::from_array(self.alloc, own_fields)?)?;
        let all = Registry::empty(self.alloc).with_typename(all)?;
        let interface_names = names_of(self.alloc, interfaces)?;
        let object = ObjectMeta {
            name: String::from_str(self.alloc, name)?,
            description: None,
            fields: all,
            interface_names,
        };
        Ok(object.into_meta())
    }

    /// The interface of this name with these fields and behind them `__typename: String!`, without description, that lists no
    /// interfaces (3.7); an error where memory is refused.
    pub fn interface_type<const F: usize>(
        &self,
        name: &str,
        fields: [Field<S>; F],
    ) -> Result<MetaType<S>, AllocError>
        ensures { IfOk result (λ m. view_meta S.shown m ≡ interface name.now (map (view_field S.shown) fields)) }
    {
        let fields = Vec::from_array(self.alloc, fields)?;
        let fields = Registry::empty(self.alloc).with_typename(fields)?;
        let own = String::from_str(self.alloc, name)?;
        Ok(InterfaceMeta::new(self.alloc, own, fields).into_meta())
    }

    /// The union of this name of the types of these names, without description (3.8); an error where memory is refused.
    pub fn union_type(&self, name: &str, members: &[&str]) -> Result<MetaType<S>, AllocError>
        ensures { IfOk result (λ m. view_meta S.shown m ≡ union name.now (map (λ n. n.now) members.now)) }
    {
        let of_type_names = names_of(self.alloc, members)?;
        let union = UnionMeta {
            name: String::from_str(self.alloc, name)?,
            description: None,
            of_type_names,
        };
        Ok(union.into_meta())
    }

    /// The enum of this name with the values of these names, none of them with a description or deprecated (3.9); an error
    /// where memory is refused.
    pub fn enum_type(&self, name: &str, values: &[&str]) -> Result<MetaType<S>, AllocError>
        ensures { IfOk result (λ m. view_meta S.shown m ≡ enum name.now (map (λ n. n.now) values.now)) }
    {
        let values = values_of(self.alloc, values)?;
        Ok(EnumMeta::new(String::from_str(self.alloc, name)?, values).into_meta())
    }

    /// The input object of this name with these fields, without description (3.10); an error where memory is refused.
    pub fn input_object_type(
        &self,
        name: &str,
        fields: Vec<Argument<S>>,
    ) -> Result<MetaType<S>, AllocError>
        ensures { IfOk result (λ m. view_meta S.shown m ≡ input_object name.now (map (view_argument S.shown) fields.items)) }
    {
        Ok(InputObjectMeta::new(String::from_str(self.alloc, name)?, fields).into_meta())
    }
}

/// Names, in order; an error where memory is refused.
pub fn names_of(alloc: Global, texts: &[&str]) -> Result<Vec<String>, AllocError>
    ensures { IfOk result (λ names. view_names names.items ≡ map (λ n. n.now) texts.now) }
{
    let mut names = Vec::new(alloc);
    for text in texts {
        names.push(String::from_str(alloc, text)?)?;
    }
    Ok(names)
}

/// The values of these names.
fn values_of(alloc: Global, texts: &[&str]) -> Result<Vec<EnumValue>, AllocError>
    ensures { IfOk result (λ values. map view_enum_value values.items ≡ map value_named (map (λ n. n.now) texts.now)) }
{
    let mut values = Vec::new(alloc);
    for text in texts {
        values.push(EnumValue::new(String::from_str(alloc, text)?))?;
    }
    Ok(values)
}
