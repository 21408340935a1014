//! Schemas (section 3.3 of the Specification): types by name, and the root types.

ghost use Rattle.std.specs.List.{list_any};
ghost use Rattle.std.specs.Option.{option_and_then};
ghost use Rattle.std.specs.Prelude.{◌≡◌, ◌∷◌, IfOk, IfSome, IsSome, MatchOption, None, map, option_map, string_bytes};
ghost use Rattle.std.specs.Str.{bytes_eq};
ghost use Rattle.graphql_spec.specs.BuiltIns as built;
ghost use Rattle.graphql_spec.specs.Fields as fields;
ghost use Rattle.graphql_spec.proofs.Sets.{directives-set, entries-set, fields-set};
ghost use Rattle.graphql_spec.specs.Types.{innermost};
ghost use Rattle.juniper_meta.specs.MetaView.{shape_of, view_directive, view_field, view_meta};
ghost use Rattle.juniper_syntax.specs.TypeView.{view_type};
ghost use Rattle.juniper_meta.specs.MetaView.{own_entry};

use crate::built_ins::with_built_ins;
use crate::names::{contains, entry, find_meta};
use crate::type_type::{TypeType, type_around};
use juniper_meta::meta::Field;
use juniper_meta::{DirectiveType, MetaType, directives, introspection_types, meta_fields};
use juniper_syntax::{ScalarValue, Type};
use std::alloc::{AllocError, Global};
use std::collections::HashMap;
use std::convert::AsStr;

/// A schema: its types by name, the types of introspection apart, its directives, the fields that types have beside the
/// declared ones, and the names of its root types (3.3).
#[derive(Debug, Drop)]
pub struct SchemaType<S: ScalarValue> {
    pub(crate) types: HashMap<String, MetaType<S>>,
    pub(crate) introspection: Vec<MetaType<S>>,
    pub(crate) directives: Vec<DirectiveType<S>>,
    pub(crate) meta_fields: Vec<Field<S>>,
    pub(crate) query_name: String,
    pub(crate) mutation_name: Option<String>,
    ghost introspected: { map (own_entry S.shown) introspection.items ≡ built.introspection_types } by { entries-set _ _ },
    ghost directed: { map (view_directive S.shown) directives.items ≡ built.directives } by { directives-set _ _ },
    ghost fielded: { map (view_field S.shown) meta_fields.items ≡ fields.typename_field ∷ fields.root_fields } by { fields-set _ _ },
}

impl<S: ScalarValue> SchemaType<S> {
    ghost use Rattle.juniper_schema.specs.SchemaView.{AreCompleted, entry_meta, meta_named, view_entries, view_schema};
    ghost use Rattle.juniper_schema.specs.MadeTypes.{around, concrete, view_made};

    /// The schema of these types by name, with these names of the root types. `String` and `Boolean` are added where they
    /// are absent or placeholders, `Int` and `ID` where they are placeholders (3.5); the types of introspection are kept
    /// apart (4.2). An error where memory is refused.
    pub fn new(
        alloc: Global,
        types: HashMap<String, MetaType<S>>,
        query_name: String,
        mutation_name: Option<String>,
    ) -> Result<Self, AllocError>
        ensures entries { IfOk result (λ s. AreCompleted (view_entries S.shown types) (view_schema S.shown s).entries) }
        ensures query { IfOk result (λ s. (view_schema S.shown s).query ≡ string_bytes query_name) }
        ensures mutation { IfOk result (λ s. (view_schema S.shown s).mutation ≡ option_map (λ n. string_bytes n) mutation_name) }
    {
        let types = with_built_ins(alloc, types)?;
        let introspection = introspection_types(alloc)?;
        let directives = directives(alloc)?;
        let meta_fields = meta_fields(alloc)?;
        Ok(SchemaType {
            types,
            introspection,
            directives,
            meta_fields,
            query_name,
            mutation_name,
        })
    }

    /// What is declared at this name: the entry, or the type of introspection; `None` where there is neither.
    pub fn concrete_type_by_name(&self, name: &str) -> Option<&MetaType<S>>
        ensures meta { option_map (λ m. view_meta S.shown m.now) result ≡ meta_named (view_schema S.shown self.now) name.now }
        ensures shape { MatchOption result (fields.type_named (view_schema S.shown self.now) name.now ≡ None)
            (λ m. fields.type_named (view_schema S.shown self.now) name.now ≡ shape_of S.shown m.now) }
    {
        match entry(&self.types, name) {
            Some(meta) => Some(meta),
            None => find_meta(&self.introspection, name),
        }
    }

    /// What is declared as the entry of this name.
    #[tactic(auto, unfolding(graphql_spec::specs::Fields::entry_named))]
    pub(crate) fn entry(&self, name: &str) -> Option<&MetaType<S>>
        ensures meta { option_map (λ m. view_meta S.shown m.now) result ≡ entry_meta (view_schema S.shown self.now) name.now }
        ensures shape { MatchOption result (fields.entry_named (view_schema S.shown self.now) name.now ≡ None)
            (λ m. fields.entry_named (view_schema S.shown self.now) name.now ≡ shape_of S.shown m.now) }
    {
        entry(&self.types, name)
    }

    /// The type of this name, nullable: the entry, or the type of introspection; `None` where there is neither.
    pub fn type_by_name(&self, name: &str) -> Option<TypeType<'_, S>>
        ensures { option_map (view_made S.shown) result ≡ option_map concrete (meta_named (view_schema S.shown self.now) name.now) }
    {
        match self.concrete_type_by_name(name) {
            Some(meta) => Some(TypeType::Concrete(meta)),
            None => None,
        }
    }

    /// What is declared as the query type; `None` where nothing is (3.3.1).
    pub fn query_type(&self) -> Option<TypeType<'_, S>>
        ensures { option_map (view_made S.shown) result ≡ option_map concrete (entry_meta (view_schema S.shown self.now) (view_schema S.shown self.now).query) }
    {
        self.entry_type(self.query_name.as_str())
    }

    /// What is declared as the mutation type; `None` where the schema has none, or nothing is declared (3.3.1).
    pub fn mutation_type(&self) -> Option<TypeType<'_, S>>
        ensures { option_map (view_made S.shown) result ≡ option_map concrete
            (option_and_then (entry_meta (view_schema S.shown self.now)) (view_schema S.shown self.now).mutation) }
    {
        match &self.mutation_name {
            Some(name) => self.entry_type(name.as_str()),
            None => None,
        }
    }

    /// The name of the query type.
    pub fn query_name(&self) -> &str
        ensures { result.now ≡ (view_schema S.shown self.now).query }
    {
        self.query_name.as_str()
    }

    /// The name of the mutation type, where the schema has one.
    pub fn mutation_name(&self) -> Option<&str>
        ensures { option_map (λ n. n.now) result ≡ (view_schema S.shown self.now).mutation }
    {
        match &self.mutation_name {
            Some(name) => Some(name.as_str()),
            None => None,
        }
    }

    /// Whether the first name is a subtype of the second: it is the same, or lists it as an interface, or is a member of it
    /// (3.6, 3.7, 3.8).
    #[tactic(auto, unfolding(graphql_spec::specs::Fields::is_named_subtype))]
    pub fn is_named_subtype(&self, sub_name: &str, super_name: &str) -> bool
        ensures { result ≡ fields.is_named_subtype (view_schema S.shown self.now) sub_name.now super_name.now }
    {
        sub_name == super_name
            || self.lists_interface(sub_name, super_name)
            || self.has_member(super_name, sub_name)
    }

    /// Whether the object type of the first name is the type of the second, implements it or is a member of it
    /// (DoesFragmentTypeApply, 6.3.2); false where the first is no object type.
    #[tactic(auto, unfolding(graphql_spec::specs::Fields::is_possible, graphql_spec::specs::Fields::is_object, graphql_spec::specs::Fields::interfaces_of))]
    pub fn is_possible(&self, object_name: &str, type_name: &str) -> bool
        ensures { result ≡ fields.is_possible (view_schema S.shown self.now) object_name.now type_name.now }
    {
        match self.concrete_type_by_name(object_name) {
            Some(meta) => {
                meta.is_object()
                    && (object_name == type_name
                        || contains(meta.interface_names(), type_name)
                        || self.has_member(type_name, object_name))
            }
            None => false,
        }
    }

    /// Whether an answer may hold the scalar at the type of this name: a scalar type takes those of an accepted kind (3.5), an
    /// enum the texts that name its values (3.9).
    #[tactic(auto, unfolding(graphql_spec::specs::Fields::accepts, graphql_spec::specs::Fields::leaf_accepts))]
    pub fn may_hold(&self, type_name: &str, scalar: &S) -> bool
        ensures { result ≡ fields.accepts (view_schema S.shown self.now) type_name.now (S.shown scalar.now) }
    {
        match self.concrete_type_by_name(type_name) {
            Some(meta) => meta.accepts(scalar),
            None => false,
        }
    }

    /// The type of a reference: what its innermost name is declared as, in its lists and non-nulls (3.4.1). An error where
    /// memory is refused.
    pub fn make_type<N: AsStr + Drop>(
        &self,
        alloc: Global,
        reference: &Type<N>,
    ) -> Result<TypeType<'_, S>, AllocError>
        requires { IsSome (meta_named (view_schema S.shown self.now) (innermost (view_type N.text reference.now))) }
        ensures { IfOk result (λ made. IfSome (meta_named (view_schema S.shown self.now) (innermost (view_type N.text reference.now)))
            (λ m. view_made S.shown made ≡ around m (view_type N.text reference.now))) }
    {
        type_around(alloc, self.known(reference.innermost_name()), reference)
    }

    /// What is declared as the entry of this name, nullable.
    fn entry_type(&self, name: &str) -> Option<TypeType<'_, S>>
        ensures { option_map (view_made S.shown) result ≡ option_map concrete (entry_meta (view_schema S.shown self.now) name.now) }
    {
        match self.entry(name) {
            Some(meta) => Some(TypeType::Concrete(meta)),
            None => None,
        }
    }

    /// Whether the type of the first name lists the second as an interface.
    #[tactic(auto, unfolding(graphql_spec::specs::Fields::interfaces_of))]
    fn lists_interface(&self, name: &str, interface: &str) -> bool
        ensures { result ≡ list_any (bytes_eq interface.now) (fields.interfaces_of (fields.type_named (view_schema S.shown self.now) name.now)) }
    {
        match self.concrete_type_by_name(name) {
            Some(meta) => contains(meta.interface_names(), interface),
            None => false,
        }
    }

    /// Whether the type of the first name has the second as a member.
    #[tactic(auto, unfolding(graphql_spec::specs::Fields::members_of))]
    fn has_member(&self, name: &str, member: &str) -> bool
        ensures { result ≡ list_any (bytes_eq member.now) (fields.members_of (fields.type_named (view_schema S.shown self.now) name.now)) }
    {
        match self.concrete_type_by_name(name) {
            Some(meta) => contains(meta.of_type_names(), member),
            None => false,
        }
    }

    /// What is declared at a name that is known.
    fn known(&self, name: &str) -> &MetaType<S>
        requires { IsSome (meta_named (view_schema S.shown self.now) name.now) }
        ensures { IfSome (meta_named (view_schema S.shown self.now) name.now) (λ m. view_meta S.shown result.now ≡ m) }
    {
        self.concrete_type_by_name(name).unwrap()
    }
}
