//! Building declarations (section 3 of the Specification). Each build that names a type asks that it has a name.

ghost use Rattle.std.specs.Prelude.{◌≡◌, ◌++◌, ◌∷◌, [], IfOk, IfSome, IsSome, None, Some, codes, map, string_bytes};
ghost use Rattle.graphql_spec.specs.Fields.{typename_field};
ghost use Rattle.graphql_spec.specs.Schema.{enum_type, input_object_type, interface_type, list_type, nullable_type, object_type, scalar_type, union_type};
ghost use Rattle.graphql_spec.specs.Types.{innermost};
ghost use Rattle.juniper_meta.specs.MetaView.{innermost_names, named_meta, unnamed_meta, view_argument, view_enum, view_enum_value, view_field};
ghost use Rattle.juniper_meta.specs.MetaView.{view_input_object, view_interface, view_kinds, view_list, view_nullable, view_object, view_scalar, view_union};

use crate::graphql_type::GraphQLReference;
use crate::registry::{Registry, name_of};
use juniper_meta::meta::Field;
use juniper_meta::{
    Argument, EnumMeta, EnumValue, InputObjectMeta, InterfaceMeta, ListMeta, NullableMeta,
    ObjectMeta, ScalarKinds, ScalarMeta, UnionMeta,
};
use juniper_syntax::{ScalarValue, Type};
use std::alloc::AllocError;

impl<S: ScalarValue> Registry<S> {
    ghost use Rattle.juniper_registry.specs.Entries.{Awaits, KeepsAdding};
    ghost use Rattle.juniper_registry.specs.RegistryView.{view_registry};

    /// The list of items of this type, with this number of them, where one is expected (3.11). The registry changes as by
    /// `get_type`; an error where memory is refused.
    pub fn build_list_type<T: GraphQLReference<S>>(
        &mut self,
        info: &T::TypeInfo,
        expected_size: Option<usize>,
    ) -> Result<ListMeta, AllocError>
        ensures built { IfOk result (λ m. view_list m ≡ unnamed_meta (list_type expected_size (T.reference info.now))) }
        ensures awaited { Awaits result (innermost (T.reference info.now)) (view_registry S.shown self.old) (view_registry S.shown self.new) }
        ensures added { KeepsAdding (view_registry S.shown self.old) (view_registry S.shown self.new) }
    {
        Ok(ListMeta::new(self.get_type::<T>(info)?, expected_size))
    }

    /// This type, and null (3.12). The registry changes as by `get_type`; an error where memory is refused.
    pub fn build_nullable_type<T: GraphQLReference<S>>(
        &mut self,
        info: &T::TypeInfo,
    ) -> Result<NullableMeta, AllocError>
        ensures built { IfOk result (λ m. view_nullable m ≡ unnamed_meta (nullable_type (T.reference info.now))) }
        ensures awaited { Awaits result (innermost (T.reference info.now)) (view_registry S.shown self.old) (view_registry S.shown self.new) }
        ensures added { KeepsAdding (view_registry S.shown self.old) (view_registry S.shown self.new) }
    {
        Ok(NullableMeta::new(self.get_type::<T>(info)?))
    }

    /// The scalar of this type's name that accepts these kinds, without description and URL (3.5); an error where memory is
    /// refused.
    pub fn build_scalar_type<T: GraphQLReference<S>>(
        &self,
        info: &T::TypeInfo,
        kinds: ScalarKinds,
    ) -> Result<ScalarMeta, AllocError>
        requires { IsSome (T.named info.now) }
        ensures { IfSome (T.named info.now) (λ n. IfOk result (λ m. view_scalar m ≡ named_meta n (scalar_type (view_kinds kinds) None))) }
    {
        Ok(ScalarMeta::new(self.own_name::<T>(info)?, kinds))
    }

    /// The object of this type's name with these fields and behind them `__typename: String!`, without description, that
    /// lists no interfaces (3.6). A placeholder is left at `String`, where nothing stands there; an error where memory is
    /// refused, when at most placeholders are added.
    pub fn build_object_type<T: GraphQLReference<S>>(
        &mut self,
        info: &T::TypeInfo,
        fields: Vec<Field<S>>,
    ) -> Result<ObjectMeta<S>, AllocError>
        requires { IsSome (T.named info.now) }
        ensures built { IfSome (T.named info.now) (λ n. IfOk result (λ m. view_object S.shown m
            ≡ named_meta n (object_type (map (view_field S.shown) fields.items ++ typename_field ∷ []) []))) }
        ensures awaited { Awaits result (codes "String") (view_registry S.shown self.old) (view_registry S.shown self.new) }
        ensures added { KeepsAdding (view_registry S.shown self.old) (view_registry S.shown self.new) }
    {
        let name = self.own_name::<T>(info)?;
        let fields = self.with_typename(fields)?;
        Ok(ObjectMeta::new(self.alloc, name, fields))
    }

    /// The enum of this type's name with these values, without description (3.9); an error where memory is refused.
    pub fn build_enum_type<T: GraphQLReference<S>>(
        &self,
        info: &T::TypeInfo,
        values: Vec<EnumValue>,
    ) -> Result<EnumMeta, AllocError>
        requires { IsSome (T.named info.now) }
        ensures { IfSome (T.named info.now) (λ n. IfOk result (λ m. view_enum m ≡ named_meta n (enum_type (map view_enum_value values.items)))) }
    {
        Ok(EnumMeta::new(self.own_name::<T>(info)?, values))
    }

    /// The interface of this type's name with these fields and behind them `__typename: String!`, without description, that
    /// lists no interfaces (3.7). A placeholder is left at `String`, where nothing stands there; an error where memory is
    /// refused, when at most placeholders are added.
    pub fn build_interface_type<T: GraphQLReference<S>>(
        &mut self,
        info: &T::TypeInfo,
        fields: Vec<Field<S>>,
    ) -> Result<InterfaceMeta<S>, AllocError>
        requires { IsSome (T.named info.now) }
        ensures built { IfSome (T.named info.now) (λ n. IfOk result (λ m. view_interface S.shown m
            ≡ named_meta n (interface_type (map (view_field S.shown) fields.items ++ typename_field ∷ []) []))) }
        ensures awaited { Awaits result (codes "String") (view_registry S.shown self.old) (view_registry S.shown self.new) }
        ensures added { KeepsAdding (view_registry S.shown self.old) (view_registry S.shown self.new) }
    {
        let name = self.own_name::<T>(info)?;
        let fields = self.with_typename(fields)?;
        Ok(InterfaceMeta::new(self.alloc, name, fields))
    }

    /// The union of this type's name of these types, by their innermost names, without description (3.8); an error where
    /// memory is refused.
    pub fn build_union_type<T: GraphQLReference<S>>(
        &self,
        info: &T::TypeInfo,
        types: &[Type<String>],
    ) -> Result<UnionMeta, AllocError>
        requires { IsSome (T.named info.now) }
        ensures { IfSome (T.named info.now) (λ n. IfOk result (λ m. view_union m ≡ named_meta n (union_type (innermost_names types.now)))) }
    {
        UnionMeta::new(self.alloc, self.own_name::<T>(info)?, types)
    }

    /// The input object of this type's name with these fields, without description (3.10); an error where memory is
    /// refused.
    pub fn build_input_object_type<T: GraphQLReference<S>>(
        &self,
        info: &T::TypeInfo,
        input_fields: Vec<Argument<S>>,
    ) -> Result<InputObjectMeta<S>, AllocError>
        requires { IsSome (T.named info.now) }
        ensures { IfSome (T.named info.now) (λ n. IfOk result (λ m. view_input_object S.shown m
            ≡ named_meta n (input_object_type (map (view_argument S.shown) input_fields.items)))) }
    {
        Ok(InputObjectMeta::new(self.own_name::<T>(info)?, input_fields))
    }

    /// The name of a type that has one.
    fn own_name<T: GraphQLReference<S>>(&self, info: &T::TypeInfo) -> Result<String, AllocError>
        requires { IsSome (T.named info.now) }
        ensures { IfOk result (λ n. T.named info.now ≡ Some (string_bytes n)) }
    {
        String::from_str(self.alloc, name_of::<T, S>(info))
    }

    /// The fields, and behind them `__typename: String!` (4.1).
    pub(crate) fn with_typename(
        &mut self,
        fields: Vec<Field<S>>,
    ) -> Result<Vec<Field<S>>, AllocError>
        ensures made { IfOk result (λ made. map (view_field S.shown) made.items ≡ map (view_field S.shown) fields.items ++ typename_field ∷ []) }
        ensures awaited { Awaits result (codes "String") (view_registry S.shown self.old) (view_registry S.shown self.new) }
        ensures added { KeepsAdding (view_registry S.shown self.old) (view_registry S.shown self.new) }
    {
        let mut fields = fields;
        let typename = self.field::<String>("__typename", &())?;
        fields.push(typename)?;
        Ok(fields)
    }
}
