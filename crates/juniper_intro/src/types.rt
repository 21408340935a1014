//! What the schema and its types answer (sections 4.2.1 and 4.2.2 of the Specification).

ghost use Rattle.std.specs.Option.{option_and_then};
ghost use Rattle.std.specs.Option.{is_some};
ghost use Rattle.std.specs.Prelude.{◌≡◌, [], cond, option_map, suc, unwrap_or};
ghost use Rattle.graphql_spec.specs.Introspected.{declaration_of, declared_kind, lists_field, lists_value, listed_inputs, listed_interfaces, of_type};
ghost use Rattle.graphql_spec.specs.Introspected.{own_fields, own_name, own_values, possible_types, url_of};
ghost use Rattle.graphql_spec.specs.Introspection.{all_of, answer_at, if_any};
ghost use Rattle.graphql_spec.specs.Resolvers.{answered, node, nothing};
ghost use Rattle.graphql_spec.specs.SeenNodes.{map_tree};
ghost use Rattle.juniper_meta.specs.MetaView.{view_meta};
ghost use Rattle.juniper_values.specs.ResolvedView.{Answers};
ghost use Rattle.juniper_values.specs.ArgumentView.{view_arguments};
ghost use Rattle.juniper_intro.specs.HandleView.{of_handle, view_type_place};
ghost use Rattle.juniper_intro.specs.Handles.{called, field_handle, held_answers, inputs_at, numbered, of_input_object, root_held, schema_held, type_handle};
ghost use Rattle.juniper_intro.specs.Handles.{value_handle};
ghost use Rattle.juniper_intro.specs.Kinds.{kind_in};
ghost use Rattle.juniper_intro.specs.Naming.{number_of};
ghost use Rattle.juniper_intro.specs.References.{view_reference};
ghost use Rattle.juniper_intro.specs.Shapes.{shape_in};
ghost use Rattle.juniper_schema.specs.SchemaView.{view_schema};

use crate::arguments::{given_name, includes_deprecated};
use crate::handle::{Handle, TypePlace};
use crate::introspector::Introspector;
use crate::names::TypeNames;
use crate::nodes::{InputOwner, directives, fields, inputs, types, values};
use crate::reference::Reference;
use crate::words::{Answer, null, object, text_or_null};
use juniper_meta::MetaType;
use juniper_syntax::ScalarValue;
use juniper_values::{Arguments, ResolveError};
use std::alloc::Global;

/// Where a type is referred to, how many non-nulls and lists were taken off, what is left, and what is declared at its name.
#[derive(Drop)]
struct TypeSite<'t, S: ScalarValue> {
    place: TypePlace,
    depth: usize,
    reference: Reference<'t>,
    declared: Option<&'t MetaType<S>>,
}

impl<S: ScalarValue> Introspector<S> {
    ghost use Rattle.juniper_intro.specs.TypeSites.{IsDeclaredSo, site_held};
    ghost use Rattle.juniper_intro.specs.Introspectors.{names_of, number_of as number_in, schema_of};

    /// What the schema answers (4.2.1).
    #[tactic(auto, unfolding(graphql_spec::specs::Introspection::answer_at, crate::specs::Handles::schema_held, graphql_spec::specs::SeenNodes::map_tree))]
    pub(crate) fn of_schema<N: Drop>(&self, alloc: Global, field_name: &str) -> Answer<N, S>
        ensures { Answers S.shown result (answered (map_tree of_handle
            (answer_at field_name.now (schema_held (view_schema S.shown (schema_of self.now)) (names_of self.now) (number_in self.now))))) }
    {
        match field_name {
            "types" => types(alloc, &self.names, self.names.listed()),
            "queryType" => type_called(&self.names, self.schema.query_name()),
            "mutationType" => type_or_null(&self.names, self.schema.mutation_name()),
            "directives" => directives(alloc, self.schema.directives()),
            _ => null(),
        }
    }

    /// What `__schema` and `__type` of the root answer (4.1).
    #[tactic(auto, unfolding(graphql_spec::specs::Introspection::answer_at, crate::specs::Handles::root_held, graphql_spec::specs::SeenNodes::map_tree))]
    pub(crate) fn of_root<N: Drop>(
        &self,
        field_name: &str,
        arguments: &Arguments<'_, S>,
    ) -> Answer<N, S>
        ensures { Answers S.shown result (answered (map_tree of_handle (answer_at field_name.now
            (root_held (view_schema S.shown (schema_of self.now)) (names_of self.now) (number_in self.now) (view_arguments S.shown arguments.now))))) }
    {
        match field_name {
            "__schema" => object(Handle::Schema),
            "__type" => self.known_type(given_name(arguments)),
            _ => null(),
        }
    }

    /// The type of a name that is given and known.
    #[tactic(auto, unfolding(graphql_spec::specs::Introspection::if_any))]
    fn known_type<N: Drop>(&self, name: Option<&str>) -> Answer<N, S>
        ensures { Answers S.shown result (answered (map_tree of_handle
            (if_any (λ n. cond (is_some (declaration_of (view_schema S.shown (schema_of self.now)) n))
            (called (number_in self.now) n) nothing) (option_map (λ n. n.now) name.entry)))) }
    {
        match name {
            Some(name) => self.type_if_known(name),
            None => null(),
        }
    }

    /// The type of this name, or null where it is not known.
    fn type_if_known<N: Drop>(&self, name: &str) -> Answer<N, S>
        ensures { Answers S.shown result (answered (map_tree of_handle (cond (is_some (declaration_of (view_schema S.shown (schema_of self.now)) name.now))
            (called (number_in self.now) name.now) nothing))) }
    {
        if self.knows(name) {
            type_called(&self.names, name)
        } else {
            null()
        }
    }

    /// Whether something is declared at this name.
    fn knows(&self, name: &str) -> bool
        ensures { result ≡ is_some (declaration_of (view_schema S.shown (schema_of self.now)) name.now) }
    {
        self.schema.concrete_type_by_name(name).is_some()
    }

    /// What a type answers of which so many non-nulls and lists were taken off (4.2.2).
    pub(crate) fn of_type<N: Drop>(
        &self,
        alloc: Global,
        place: TypePlace,
        depth: usize,
        field_name: &str,
        arguments: &Arguments<'_, S>,
    ) -> Answer<N, S>
        ensures { Answers S.shown result (answered (map_tree of_handle (answer_at field_name.now
            (held_answers (view_schema S.shown (schema_of self.now)) (names_of self.now) (number_in self.now) (type_handle (view_type_place place) depth)
            (view_arguments S.shown arguments.now))))) }
    {
        let reference = self.reference(place).without(depth);
        let declared = self.declared_as(reference);
        let site = TypeSite {
            place,
            depth,
            reference,
            declared,
        };
        self.of_site(alloc, &site, field_name, arguments)
    }

    /// What a type answers, by its reference and what is declared at its name.
    #[tactic(auto, unfolding(graphql_spec::specs::Introspection::answer_at, crate::specs::Handles::type_held, graphql_spec::specs::SeenNodes::map_tree))]
    fn of_site<N: Drop>(
        &self,
        alloc: Global,
        site: &TypeSite<'_, S>,
        field_name: &str,
        arguments: &Arguments<'_, S>,
    ) -> Answer<N, S>
        requires { IsDeclaredSo S.shown (view_schema S.shown (schema_of self.now)) site.now }
        ensures { Answers S.shown result (answered (map_tree of_handle (answer_at field_name.now
            (site_held S.shown (view_schema S.shown (schema_of self.now)) (names_of self.now) (number_in self.now) site.now
            (view_arguments S.shown arguments.now))))) }
    {
        let declared = site.declared;
        match field_name {
            "kind" => text_or_null(alloc, kind_of(site.reference, declared)),
            "name" => text_or_null(alloc, site.reference.own_name()),
            "ofType" => inside(site.place, site.depth, site.reference),
            "description" => text_or_null(alloc, description_of(declared)),
            "specifiedByURL" => text_or_null(alloc, url_of(declared)),
            "specifiedByUrl" => text_or_null(alloc, url_of(declared)),
            "fields" => fields_of(
                alloc,
                self.number_at(site),
                declared,
                includes_deprecated(arguments),
            ),
            "interfaces" => interfaces_of(alloc, &self.names, declared),
            "possibleTypes" => self.possible_types(alloc, site.reference, declared),
            "enumValues" => values_of(
                alloc,
                self.number_at(site),
                declared,
                includes_deprecated(arguments),
            ),
            "inputFields" => inputs_of(alloc, self.number_at(site), declared),
            _ => null(),
        }
    }

    /// The number of the type that is referred to.
    fn number_at(&self, site: &TypeSite<'_, S>) -> usize
        ensures { result ≡ number_in self.now (unwrap_or (own_name (view_reference site.now.reference)) []) }
    {
        self.names.number(site.reference.name_or_empty())
    }

    /// The object types that are possible at an interface or a union.
    fn possible_types<N: Drop>(
        &self,
        alloc: Global,
        reference: Reference<'_>,
        declared: Option<&MetaType<S>>,
    ) -> Answer<N, S>
        ensures { Answers S.shown result (answered (map_tree of_handle (if_any (all_of (called (number_in self.now)))
            (option_and_then (λ n. possible_types (view_schema S.shown (schema_of self.now)) n (shape_in S.shown declared.entry))
            (own_name (view_reference reference.entry)))))) }
    {
        match reference.own_name() {
            Some(name) => self.possible_at(alloc, name, declared),
            None => null(),
        }
    }

    /// The object types that are possible at the interface or union of this name.
    #[tactic(auto, unfolding(graphql_spec::specs::Introspected::possible_types, graphql_spec::specs::Introspection::if_any, graphql_spec::specs::SeenNodes::map_tree, juniper_meta::specs::MetaView::view_meta))]
    fn possible_at<N: Drop>(
        &self,
        alloc: Global,
        name: &str,
        declared: Option<&MetaType<S>>,
    ) -> Answer<N, S>
        ensures { Answers S.shown result (answered (map_tree of_handle (if_any (all_of (called (number_in self.now)))
            (possible_types (view_schema S.shown (schema_of self.now)) name.now (shape_in S.shown declared.entry))))) }
    {
        match declared {
            Some(MetaType::Interface(_)) => {
                let implementers = self.schema.implementers(alloc, name)?;
                types(alloc, &self.names, implementers.as_slice())
            }
            Some(MetaType::Union(meta)) => types(alloc, &self.names, meta.of_type_names.as_slice()),
            Some(MetaType::Scalar(_)) => null(),
            Some(MetaType::List(_)) => null(),
            Some(MetaType::Nullable(_)) => null(),
            Some(MetaType::Object(_)) => null(),
            Some(MetaType::Enum(_)) => null(),
            Some(MetaType::InputObject(_)) => null(),
            Some(MetaType::Placeholder(_)) => null(),
            None => null(),
        }
    }
}

/// The type of this name.
#[tactic(auto, unfolding(crate::specs::Handles::called))]
fn type_called<N: Drop, S: ScalarValue>(names: &TypeNames, name: &str) -> Answer<N, S>
    ensures { Answers S.shown result (answered (map_tree of_handle (called (number_of names.now) name.now))) }
{
    object(Handle::Type(TypePlace::ByName(names.number(name)), 0))
}

/// The type of this name, or null where there is none.
#[tactic(auto, unfolding(graphql_spec::specs::Introspection::if_any))]
fn type_or_null<N: Drop, S: ScalarValue>(names: &TypeNames, name: Option<&str>) -> Answer<N, S>
    ensures { Answers S.shown result (answered (map_tree of_handle (if_any (called (number_of names.now)) (option_map (λ n. n.now) name.entry)))) }
{
    match name {
        Some(name) => type_called(names, name),
        None => null(),
    }
}

/// The kind of a type that is declared so.
fn kind_of<S: ScalarValue>(
    reference: Reference<'_>,
    declared: Option<&MetaType<S>>,
) -> Option<&'static str>
    ensures { option_map (λ n. n.now) result ≡ kind_in (view_reference reference.entry) (shape_in S.shown declared.entry) }
{
    match reference.wrapper_kind() {
        Some(kind) => Some(kind),
        None => declared_kind(declared),
    }
}

/// The kind of a declared type.
#[tactic(auto, unfolding(graphql_spec::specs::Introspected::declared_kind, juniper_meta::specs::MetaView::view_meta))]
fn declared_kind<S: ScalarValue>(declared: Option<&MetaType<S>>) -> Option<&'static str>
    ensures { option_map (λ n. n.now) result ≡ declared_kind (shape_in S.shown declared.entry) }
{
    match declared {
        Some(MetaType::Scalar(_)) => Some("SCALAR"),
        Some(MetaType::Object(_)) => Some("OBJECT"),
        Some(MetaType::Interface(_)) => Some("INTERFACE"),
        Some(MetaType::Union(_)) => Some("UNION"),
        Some(MetaType::Enum(_)) => Some("ENUM"),
        Some(MetaType::InputObject(_)) => Some("INPUT_OBJECT"),
        Some(MetaType::List(_)) => None,
        Some(MetaType::Nullable(_)) => None,
        Some(MetaType::Placeholder(_)) => None,
        None => None,
    }
}

/// The description of what is declared.
fn description_of<S: ScalarValue>(declared: Option<&MetaType<S>>) -> Option<&str>
    ensures { option_map (λ t. t.now) result ≡ option_and_then (λ m. (view_meta S.shown m.now).description) declared.entry }
{
    match declared {
        Some(meta) => meta.description(),
        None => None,
    }
}

/// Where a scalar is specified.
#[tactic(auto, unfolding(graphql_spec::specs::Introspected::url_of))]
fn url_of<S: ScalarValue>(declared: Option<&MetaType<S>>) -> Option<&str>
    ensures { option_map (λ t. t.now) result ≡ url_of (shape_in S.shown declared.entry) }
{
    match declared {
        Some(meta) => meta.specified_by_url(),
        None => None,
    }
}

/// The listed fields of an object or an interface, which has this number.
#[tactic(auto, unfolding(graphql_spec::specs::Introspected::own_fields, graphql_spec::specs::Introspection::if_any, graphql_spec::specs::SeenNodes::map_tree, juniper_meta::specs::MetaView::view_meta))]
fn fields_of<N: Drop, S: ScalarValue>(
    alloc: Global,
    number: usize,
    declared: Option<&MetaType<S>>,
    deprecated_too: bool,
) -> Answer<N, S>
    ensures { Answers S.shown result (answered (map_tree of_handle (if_any (all_of (λ p. node (field_handle number p.0)))
        (option_map (numbered (lists_field deprecated_too)) (own_fields (shape_in S.shown declared.entry)))))) }
{
    match declared {
        Some(MetaType::Object(meta)) => fields(
            alloc,
            number,
            meta.fields.as_slice(),
            deprecated_too,
        ),
        Some(MetaType::Interface(meta)) => fields(
            alloc,
            number,
            meta.fields.as_slice(),
            deprecated_too,
        ),
        Some(MetaType::Scalar(_)) => null(),
        Some(MetaType::List(_)) => null(),
        Some(MetaType::Nullable(_)) => null(),
        Some(MetaType::Enum(_)) => null(),
        Some(MetaType::Union(_)) => null(),
        Some(MetaType::InputObject(_)) => null(),
        Some(MetaType::Placeholder(_)) => null(),
        None => null(),
    }
}

/// The interfaces that an object or an interface lists.
#[tactic(auto, unfolding(graphql_spec::specs::Introspected::listed_interfaces, graphql_spec::specs::Introspection::if_any, graphql_spec::specs::SeenNodes::map_tree, juniper_meta::specs::MetaView::view_meta))]
fn interfaces_of<N: Drop, S: ScalarValue>(
    alloc: Global,
    names: &TypeNames,
    declared: Option<&MetaType<S>>,
) -> Answer<N, S>
    ensures { Answers S.shown result (answered (map_tree of_handle
        (if_any (all_of (called (number_of names.now))) (listed_interfaces (shape_in S.shown declared.entry))))) }
{
    match declared {
        Some(MetaType::Object(meta)) => types(alloc, names, meta.interface_names.as_slice()),
        Some(MetaType::Interface(meta)) => types(alloc, names, meta.interface_names.as_slice()),
        Some(MetaType::Scalar(_)) => null(),
        Some(MetaType::List(_)) => null(),
        Some(MetaType::Nullable(_)) => null(),
        Some(MetaType::Enum(_)) => null(),
        Some(MetaType::Union(_)) => null(),
        Some(MetaType::InputObject(_)) => null(),
        Some(MetaType::Placeholder(_)) => null(),
        None => null(),
    }
}

/// The listed values of an enum, which has this number.
#[tactic(auto, unfolding(graphql_spec::specs::Introspected::own_values, graphql_spec::specs::Introspection::if_any, graphql_spec::specs::SeenNodes::map_tree, juniper_meta::specs::MetaView::view_meta))]
fn values_of<N: Drop, S: ScalarValue>(
    alloc: Global,
    number: usize,
    declared: Option<&MetaType<S>>,
    deprecated_too: bool,
) -> Answer<N, S>
    ensures { Answers S.shown result (answered (map_tree of_handle (if_any (all_of (λ p. node (value_handle number p.0)))
        (option_map (numbered (lists_value deprecated_too)) (own_values (shape_in S.shown declared.entry)))))) }
{
    match declared {
        Some(MetaType::Enum(meta)) => values(alloc, number, meta.values.as_slice(), deprecated_too),
        Some(MetaType::Scalar(_)) => null(),
        Some(MetaType::List(_)) => null(),
        Some(MetaType::Nullable(_)) => null(),
        Some(MetaType::Object(_)) => null(),
        Some(MetaType::Interface(_)) => null(),
        Some(MetaType::Union(_)) => null(),
        Some(MetaType::InputObject(_)) => null(),
        Some(MetaType::Placeholder(_)) => null(),
        None => null(),
    }
}

/// The fields of an input object, which has this number.
#[tactic(auto, unfolding(graphql_spec::specs::Introspected::listed_inputs, graphql_spec::specs::Introspection::if_any, graphql_spec::specs::SeenNodes::map_tree, juniper_meta::specs::MetaView::view_meta))]
fn inputs_of<N: Drop, S: ScalarValue>(
    alloc: Global,
    number: usize,
    declared: Option<&MetaType<S>>,
) -> Answer<N, S>
    ensures { Answers S.shown result (answered (map_tree of_handle
        (if_any (inputs_at (of_input_object number)) (listed_inputs (shape_in S.shown declared.entry))))) }
{
    match declared {
        Some(MetaType::InputObject(meta)) => inputs(
            alloc,
            InputOwner::InputObject(number),
            meta.input_fields.as_slice(),
        ),
        Some(MetaType::Scalar(_)) => null(),
        Some(MetaType::List(_)) => null(),
        Some(MetaType::Nullable(_)) => null(),
        Some(MetaType::Object(_)) => null(),
        Some(MetaType::Enum(_)) => null(),
        Some(MetaType::Interface(_)) => null(),
        Some(MetaType::Union(_)) => null(),
        Some(MetaType::Placeholder(_)) => null(),
        None => null(),
    }
}

/// The type that a non-null type or a list is made of. A type of more wrappers than can be counted does not fit in memory.
fn inside<N: Drop, S: ScalarValue>(
    place: TypePlace,
    depth: usize,
    reference: Reference<'_>,
) -> Answer<N, S>
    ensures { Answers S.shown result (answered (map_tree of_handle (if_any (λ u. node (type_handle (view_type_place place) (suc depth)))
        (of_type (view_reference reference.entry))))) }
{
    match reference.of_type() {
        None => null(),
        Some(_) => match depth.checked_add(1) {
            Some(depth) => object(Handle::Type(place, depth)),
            None => Err(ResolveError::Memory),
        },
    }
}
