//! What a schema lists of itself (section 4.2.1 of the Specification): its types and its directives.

ghost use Rattle.std.specs.Cmp.Lexicographic.{slice_cmp};
ghost use Rattle.std.specs.List.{filter};
ghost use Rattle.std.specs.Ordering.{nat_cmp};
ghost use Rattle.std.specs.Prelude.{◌≡◌, ◌++◌, [], ◌∷◌, IfOk, OnOk, map};
ghost use Rattle.graphql_spec.specs.BuiltIns as built;
ghost use Rattle.graphql_spec.specs.BuiltIns.{introspection_types};
ghost use Rattle.graphql_spec.specs.Introspected.{implementers, is_implementer};
ghost use Rattle.graphql_spec.specs.Shown.{Name};
ghost use Rattle.graphql_spec.specs.TypeList.{comes_before, has_listed_name, in_order, is_listed, type_list};
ghost use Rattle.juniper_meta.specs.MetaView.{entry_at, view_directive, view_meta};
ghost use Rattle.juniper_schema.specs.ListedTypes.{view_named};
ghost use Rattle.juniper_schema.specs.MadeTypes.{concrete, view_made};
ghost use Rattle.juniper_schema.specs.SchemaView.{meta_of, view_schema};

use crate::names::contains;
use crate::schema::SchemaType;
use crate::type_type::TypeType;
use juniper_meta::{DirectiveType, MetaType};
use juniper_syntax::ScalarValue;
use std::alloc::{AllocError, Global};
use std::cmp::Ordering;

/// A declaration, and the name that it stands at.
#[derive(Drop)]
struct NamedType<'a, S> {
    name: &'a str,
    meta: &'a MetaType<S>,
}

impl<'a, S: ScalarValue> NamedType<'a, S> {
    /// The order of the names, by their bytes.
    fn compare(&self, other: &Self) -> Ordering
        ensures { result ≡ slice_cmp nat_cmp self.now.name.now other.now.name.now }
    {
        self.name.cmp(other.name)
    }
}

impl<S: ScalarValue> SchemaType<S> {
    /// All types, those of introspection among them, in byte order of their names, each nullable (4.2.1). The types
    /// `_EmptyMutation` and `_EmptySubscription`, which stand for none, are left out. An error where memory is refused.
    #[tactic(auto, unfolding(graphql_spec::specs::TypeList::type_list))]
    pub fn type_list(&self, alloc: Global) -> Result<Vec<TypeType<'_, S>>, AllocError>
        ensures { IfOk result (λ made. map (view_made S.shown) made.items ≡ map (λ e. concrete (meta_of e)) (type_list (view_schema S.shown self.now))) }
    {
        let mut types = self.listed_types(alloc)?;
        sort_types(&mut types)?;
        concrete_types(alloc, types)
    }

    /// The names of all types that `type_list` lists, in the same order (4.2.1). An error where memory is refused.
    #[tactic(auto, unfolding(graphql_spec::specs::TypeList::type_list))]
    pub fn type_names(&self, alloc: Global) -> Result<Vec<&str>, AllocError>
        ensures { IfOk result (λ names. map (λ n. n.now) names.items ≡ map (λ e. e.key) (type_list (view_schema S.shown self.now))) }
    {
        let mut types = self.listed_types(alloc)?;
        sort_types(&mut types)?;
        names_of(alloc, types)
    }

    /// The names of the object types that list this interface, in byte order (4.2.2). An error where memory is refused.
    #[tactic(auto, unfolding(graphql_spec::specs::Introspected::implementers))]
    pub fn implementers(&self, alloc: Global, interface: &str) -> Result<Vec<&str>, AllocError>
        ensures { IfOk result (λ names. map (λ n. n.now) names.items ≡ implementers (view_schema S.shown self.now) interface.now) }
    {
        let mut types = self.objects_of(alloc, interface)?;
        sort_types(&mut types)?;
        names_of(alloc, types)
    }

    /// The directives, in the order of `directive_list`.
    pub fn directives(&self) -> &[DirectiveType<S>]
        ensures { map (view_directive S.shown) result.now ≡ built.directives }
    {
        self.directives.as_slice()
    }

    /// The directives `deprecated`, `include`, `skip` and `specifiedBy`, in this order, which is the byte order of their
    /// names (3.13, 4.2.1). An error where memory is refused.
    pub fn directive_list(&self, alloc: Global) -> Result<Vec<&DirectiveType<S>>, AllocError>
        ensures { IfOk result (λ made. map (λ d. view_directive S.shown d.now) made.items ≡ built.directives) }
    {
        let mut listed = Vec::with_capacity(alloc, self.directives.len())?;
        for directive in &self.directives {
            listed.push(directive)?;
        }
        Ok(listed)
    }

    /// The entries that are objects which list this interface, in no order.
    fn objects_of(
        &self,
        alloc: Global,
        interface: &str,
    ) -> Result<Vec<NamedType<'_, S>>, AllocError>
        ensures { IfOk result (λ made. map (view_named S.shown) made.items ≡ filter (is_implementer interface.now) (view_schema S.shown self.now).entries) }
    {
        let mut types = Vec::new(alloc);
        for (name, meta) in &self.types {
            push_implementer(&mut types, name.as_str(), meta, interface)?;
        }
        Ok(types)
    }

    /// The entries and the types of introspection that are listed, in no order.
    fn listed_types(&self, alloc: Global) -> Result<Vec<NamedType<'_, S>>, AllocError>
        ensures { IfOk result (λ made. map (view_named S.shown) made.items
            ≡ filter has_listed_name ((view_schema S.shown self.now).entries ++ introspection_types)) }
    {
        let mut types = Vec::new(alloc);
        for (name, meta) in &self.types {
            push_listed(&mut types, name.as_str(), meta)?;
        }
        for meta in &self.introspection {
            push_listed(&mut types, meta.name().unwrap_or(""), meta)?;
        }
        Ok(types)
    }
}

/// Puts the declaration last, where its name is listed.
fn push_listed<'a, S: ScalarValue>(
    types: &mut Vec<NamedType<'a, S>>,
    name: &'a str,
    meta: &'a MetaType<S>,
) -> Result<(), AllocError>
    ensures { OnOk result (map (view_named S.shown) types.new.items
        ≡ map (view_named S.shown) types.old.items ++ filter has_listed_name (entry_at name.now (view_meta S.shown meta.now) ∷ [])) }
{
    if is_listed(name) {
        types.push(NamedType { name, meta })?;
    }
    Ok(())
}

/// Puts the declaration last, where it is an object that lists the interface.
fn push_implementer<'a, S: ScalarValue>(
    types: &mut Vec<NamedType<'a, S>>,
    name: &'a str,
    meta: &'a MetaType<S>,
    interface: &str,
) -> Result<(), AllocError>
    ensures { OnOk result (map (view_named S.shown) types.new.items ≡ map (view_named S.shown) types.old.items
        ++ filter (is_implementer interface.now) (entry_at name.now (view_meta S.shown meta.now) ∷ [])) }
{
    if implements(meta, interface) {
        types.push(NamedType { name, meta })?;
    }
    Ok(())
}

/// Whether it is an object that lists this interface, whatever name it stands at.
#[tactic(auto, unfolding(graphql_spec::specs::Introspected::is_implementer))]
fn implements<S: ScalarValue>(meta: &MetaType<S>, interface: &str) -> bool
    ensures { (n : Name) → result ≡ is_implementer interface.now (entry_at n (view_meta S.shown meta.now)) }
{
    if meta.is_object() {
        contains(meta.interface_names(), interface)
    } else {
        false
    }
}

/// Whether a type of this name is listed: the names of what stands for no mutation and no subscription are not.
fn is_listed(name: &str) -> bool
    ensures { result ≡ is_listed name.now }
{
    !(name == "_EmptyMutation" || name == "_EmptySubscription")
}

/// Sorts the declarations by the bytes of their names.
fn sort_types<S: ScalarValue>(types: &mut Vec<NamedType<'_, S>>) -> Result<(), AllocError>
    ensures { OnOk result (map (view_named S.shown) types.new.items ≡ in_order comes_before (map (view_named S.shown) types.old.items)) }
{
    types.sort_by(|a, b| a.compare(b))
}

/// The declarations as types, nullable, in the same order.
fn concrete_types<'a, S: ScalarValue>(
    alloc: Global,
    named: Vec<NamedType<'a, S>>,
) -> Result<Vec<TypeType<'a, S>>, AllocError>
    ensures { IfOk result (λ made. map (view_made S.shown) made.items ≡ map (λ e. concrete (meta_of e)) (map (view_named S.shown) named.entry.items)) }
{
    let mut types = Vec::with_capacity(alloc, named.len())?;
    for one in &named {
        types.push(TypeType::Concrete(one.meta))?;
    }
    Ok(types)
}

/// The names of the declarations, in the same order.
fn names_of<'a, S: ScalarValue>(
    alloc: Global,
    named: Vec<NamedType<'a, S>>,
) -> Result<Vec<&'a str>, AllocError>
    ensures { IfOk result (λ made. map (λ n. n.now) made.items ≡ map (λ e. e.key) (map (view_named S.shown) named.entry.items)) }
{
    let mut names = Vec::with_capacity(alloc, named.len())?;
    for one in &named {
        names.push(one.name)?;
    }
    Ok(names)
}
