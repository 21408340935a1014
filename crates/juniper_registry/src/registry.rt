//! The registry, which gathers the declarations of types by their names (section 3 of the Specification).

ghost use Rattle.std.specs.Prelude.{◌≡◌, true, IfOk, IsSome, IfSome, None, OnErr, OnOk, Some, []};
ghost use Rattle.graphql_spec.specs.Constants.{meaning};
ghost use Rattle.graphql_spec.specs.Schema.{plain_field, plain_input};
ghost use Rattle.graphql_spec.specs.Shown.{Name};
ghost use Rattle.graphql_spec.specs.Types.{innermost};
ghost use Rattle.graphql_spec.specs.Types as refs;
ghost use Rattle.juniper_meta.specs.MetaView.{view_argument, view_field, view_meta, view_type};
ghost use Rattle.juniper_registry.specs.Entries.{is_own, table};

use crate::error::RegistryError;
use crate::graphql_type::{GraphQLReference, GraphQLType};
use crate::names::{declares, put, stands};
use juniper_meta::meta::Field;
use juniper_meta::{Argument, MetaType, PlaceholderMeta};
use juniper_syntax::{ScalarValue, Type};
use juniper_values::{IntoResolvable, ToInputValue};
use std::alloc::{AllocError, Global};
use std::collections::HashMap;

/// The types that are declared so far, by name, and placeholders of those that are referred to and not declared yet. Each
/// declaration stands at its own name.
#[derive(Drop)]
pub struct Registry<S: ScalarValue> {
    pub(crate) alloc: Global,
    types: HashMap<String, MetaType<S>>,
    ghost keyed: { (n : Name) → is_own (table S.shown types n) ≡ true },
}

impl<S: ScalarValue> Registry<S> {
    ghost use Rattle.juniper_registry.specs.DeclaredTypes.{input_of, input_with_default};
    ghost use Rattle.juniper_registry.specs.Entries.{Awaits, KeepsAdding, Registers, declaring, is_declared};
    ghost use Rattle.juniper_registry.specs.Made.{IsDefaulted};
    ghost use Rattle.juniper_registry.specs.RegistryView.{view_registry};

    /// The registry of these types, each of which stands at its own name. More memory comes from `alloc`.
    pub fn new(alloc: Global, types: HashMap<String, MetaType<S>>) -> Self
        requires { (n : Name) → is_own (table S.shown types n) ≡ true }
        ensures { view_registry S.shown result ≡ table S.shown types }
    {
        Registry { alloc, types }
    }

    /// The registry where nothing stands at any name. More memory comes from `alloc`.
    #[tactic(auto, unfolding(graphql_spec::specs::Fields::entry_in))]
    pub fn empty(alloc: Global) -> Self
        ensures { (n : Name) → view_registry S.shown result n ≡ None }
    {
        Registry::new(alloc, HashMap::new(alloc))
    }

    /// What stands at each name.
    pub fn types(&self) -> &HashMap<String, MetaType<S>>
        ensures { table S.shown result.now ≡ view_registry S.shown self.now }
    {
        &self.types
    }

    /// What stands at each name, each declaration at its own.
    pub fn into_types(self) -> HashMap<String, MetaType<S>>
        ensures same { table S.shown result ≡ view_registry S.shown self }
        ensures keyed { (n : Name) → is_own (table S.shown result n) ≡ true }
    {
        let Registry { alloc: _, types } = self;
        types
    }

    /// The non-null type of this name. A placeholder is left at the name where nothing stands there; an error where memory is
    /// refused, when at most placeholders are added.
    pub fn named_type(&mut self, name: &str) -> Result<Type<String>, AllocError>
        ensures referred { IfOk result (λ t. view_type t ≡ refs.named true name.now) }
        ensures awaited { Awaits result name.now (view_registry S.shown self.old) (view_registry S.shown self.new) }
        ensures added { KeepsAdding (view_registry S.shown self.old) (view_registry S.shown self.new) }
    {
        let own = String::from_str(self.alloc, name)?;
        self.await_type(name)?;
        Ok(Type::NonNullNamed(own))
    }

    /// Leaves a placeholder at this name, where nothing stands there.
    pub(crate) fn await_type(&mut self, name: &str) -> Result<(), AllocError>
        ensures awaited { Awaits result name.now (view_registry S.shown self.old) (view_registry S.shown self.new) }
        ensures added { KeepsAdding (view_registry S.shown self.old) (view_registry S.shown self.new) }
    {
        if stands(&self.types, name) {
            return Ok(());
        }
        let key = String::from_str(self.alloc, name)?;
        let of_type = Type::NonNullNamed(String::from_str(self.alloc, name)?);
        put(
            &mut self.types,
            key,
            PlaceholderMeta::new(of_type).into_meta(),
        )
    }

    /// Puts this declaration at its own name. Where memory is refused nothing changes.
    fn declare(&mut self, name: &str, meta: MetaType<S>) -> Result<(), AllocError>
        requires { (view_meta S.shown meta).name ≡ Some name.now }
        ensures put { OnOk result ((n : Name) → view_registry S.shown self.new n
            ≡ declaring name.now (view_meta S.shown meta) (view_registry S.shown self.old) n) }
        ensures kept { OnErr result ((n : Name) → view_registry S.shown self.new n ≡ view_registry S.shown self.old n) }
    {
        let key = String::from_str(self.alloc, name)?;
        put(&mut self.types, key, meta)
    }

    /// Whether a declaration stands at this name.
    fn declares(&self, name: &str) -> bool
        ensures { result ≡ is_declared (view_registry S.shown self.now name.now) }
    {
        declares(&self.types, name)
    }

    /// Registers the declaration of this type, at a name where nothing or a placeholder stands. The registry gets
    /// placeholders at the names that the declaration refers to, where nothing stands there, and nothing else.
    ///
    /// Errors: `AlreadyRegistered` exactly where a declaration stands at the name, when nothing changes; `Memory` where
    /// memory is refused, when at most placeholders are added.
    pub fn register<T: GraphQLType<S>>(&mut self, info: &T::TypeInfo) -> Result<(), RegistryError>
        requires { IsSome (T.named info.now) }
        ensures { IfSome (T.named info.now) (λ k. Registers result k (T.declaration info.now) (view_registry S.shown self.old)
            (view_registry S.shown self.new)) }
    {
        let name = name_of::<T, S>(info);
        if self.declares(name) {
            return Err(RegistryError::AlreadyRegistered);
        }
        let meta = meta_of::<T, S>(self.alloc, info)?;
        self.await_referred(&meta)?;
        self.declare(name, meta)?;
        Ok(())
    }

    /// The reference to this type. A placeholder is left at the name inside all lists, where nothing stands there; an error
    /// where memory is refused, when at most placeholders are added.
    pub fn get_type<T: GraphQLReference<S>>(
        &mut self,
        info: &T::TypeInfo,
    ) -> Result<Type<String>, AllocError>
        ensures referred { IfOk result (λ t. view_type t ≡ T.reference info.now) }
        ensures awaited { Awaits result (innermost (T.reference info.now)) (view_registry S.shown self.old) (view_registry S.shown self.new) }
        ensures added { KeepsAdding (view_registry S.shown self.old) (view_registry S.shown self.new) }
    {
        let reference = reference_of::<T, S>(self.alloc, info)?;
        self.await_type(reference.innermost_name())?;
        Ok(reference)
    }

    /// The field of this name and type, without description and arguments, and not deprecated. The registry changes as by
    /// `get_type`; an error where memory is refused.
    pub fn field<T: GraphQLReference<S>>(
        &mut self,
        name: &str,
        info: &T::TypeInfo,
    ) -> Result<Field<S>, AllocError>
        ensures made { IfOk result (λ f. view_field S.shown f ≡ plain_field name.now [] (T.reference info.now)) }
        ensures awaited { Awaits result (innermost (T.reference info.now)) (view_registry S.shown self.old) (view_registry S.shown self.new) }
        ensures added { KeepsAdding (view_registry S.shown self.old) (view_registry S.shown self.new) }
    {
        let own = String::from_str(self.alloc, name)?;
        Ok(Field::new(own, self.get_type::<T>(info)?))
    }

    /// The field of this name and the type `I`, of which a resolver answers a `T`: the field of `I`, as by `field`, whatever
    /// `T` is. The registry changes as by `get_type`; an error where memory is refused.
    pub fn field_convert<T: IntoResolvable<N, S>, I: GraphQLReference<S>, N>(
        &mut self,
        name: &str,
        info: &I::TypeInfo,
    ) -> Result<Field<S>, AllocError>
        ensures made { IfOk result (λ f. view_field S.shown f ≡ plain_field name.now [] (I.reference info.now)) }
        ensures awaited { Awaits result (innermost (I.reference info.now)) (view_registry S.shown self.old) (view_registry S.shown self.new) }
        ensures added { KeepsAdding (view_registry S.shown self.old) (view_registry S.shown self.new) }
    {
        self.field::<I>(name, info)
    }

    /// The argument of this name and type, without description and default value. The registry changes as by `get_type`; an
    /// error where memory is refused.
    pub fn arg<T: GraphQLReference<S>>(
        &mut self,
        name: &str,
        info: &T::TypeInfo,
    ) -> Result<Argument<S>, AllocError>
        ensures made { IfOk result (λ a. view_argument S.shown a ≡ plain_input name.now (T.reference info.now)) }
        ensures awaited { Awaits result (innermost (T.reference info.now)) (view_registry S.shown self.old) (view_registry S.shown self.new) }
        ensures added { KeepsAdding (view_registry S.shown self.old) (view_registry S.shown self.new) }
    {
        let own = String::from_str(self.alloc, name)?;
        Ok(Argument::new(own, self.get_type::<T>(info)?))
    }

    /// The argument of this name, type and default value, without description (3.6.1): of a scalar, an enum's value and null the
    /// default is known exactly, of lists and objects by its meaning. The registry changes as by `get_type`; an error where
    /// memory is refused.
    pub fn arg_with_default<T: GraphQLReference<S> + ToInputValue<S>>(
        &mut self,
        name: &str,
        value: &T,
        info: &T::TypeInfo,
    ) -> Result<Argument<S>, AllocError>
        ensures made { IfOk result (λ a. IsDefaulted (view_argument S.shown a) name.now (T.reference info.now) (T.input value.now)) }
        ensures exact { IfSome (input_of (T.input value.now))
            (λ v. IfOk result (λ a. view_argument S.shown a ≡ input_with_default name.now (T.reference info.now) v)) }
        ensures awaited { Awaits result (innermost (T.reference info.now)) (view_registry S.shown self.old) (view_registry S.shown self.new) }
        ensures added { KeepsAdding (view_registry S.shown self.old) (view_registry S.shown self.new) }
    {
        let own_value = value.to_input_value(self.alloc)?;
        let argument = self.arg::<T>(name, info)?;
        Ok(argument.default_value(own_value))
    }
}

/// The reference to a type, which it says with a registry of its own.
fn reference_of<T: GraphQLReference<S>, S: ScalarValue>(
    alloc: Global,
    info: &T::TypeInfo,
) -> Result<Type<String>, AllocError>
    ensures { IfOk result (λ t. view_type t ≡ T.reference info.now) }
{
    T::type_in(alloc, info, &mut Registry::empty(alloc))
}

/// The declaration of a type, which it says with a registry of its own.
fn meta_of<T: GraphQLType<S>, S: ScalarValue>(
    alloc: Global,
    info: &T::TypeInfo,
) -> Result<MetaType<S>, AllocError>
    ensures { IfOk result (λ m. view_meta S.shown m ≡ T.declaration info.now) }
{
    T::meta(alloc, info, &mut Registry::empty(alloc))
}

/// The name of a type that has one.
pub(crate) fn name_of<T: GraphQLReference<S>, S: ScalarValue>(info: &T::TypeInfo) -> &str
    requires { IsSome (T.named info.now) }
    ensures { T.named info.now ≡ Some result.now }
{
    T::name(info).unwrap()
}
