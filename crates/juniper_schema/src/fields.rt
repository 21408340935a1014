//! The fields of types, declared or not, and directives (sections 3.6, 3.13, 4.1 and 4.2 of the Specification).

ghost use Rattle.std.specs.Prelude.{◌≡◌, ◌∷◌, ◌||◌, cond, map, option_map, []};
ghost use Rattle.std.specs.Str.{bytes_eq};
ghost use Rattle.graphql_spec.specs.Fields as fields;
ghost use Rattle.graphql_spec.specs.Fields.{field_in, root_fields, typename, typename_field};
ghost use Rattle.graphql_spec.specs.Placed.{directive_in, directive_named};
ghost use Rattle.juniper_meta.specs.MetaView.{shape_of, view_directive, view_field};
ghost use Rattle.juniper_schema.specs.SchemaView.{view_schema};

use crate::schema::SchemaType;
use juniper_meta::meta::{Field, MetaType};
use juniper_meta::{DirectiveType, find_field};
use juniper_syntax::ScalarValue;

impl<S: ScalarValue> SchemaType<S> {
    /// The field of a type: a declared one, else `__typename` of an object, interface or union (4.1), else `__schema` or
    /// `__type` of the query type (4.2); `None` where the type has no such field, or is unknown.
    pub fn field_of(&self, type_name: &str, field_name: &str) -> Option<&Field<S>>
        ensures { option_map (λ f. view_field S.shown f.now) result ≡ fields.field_of (view_schema S.shown self.now) type_name.now field_name.now }
    {
        match self.concrete_type_by_name(type_name) {
            Some(meta) => self.field_of_type(type_name, meta, field_name),
            None => None,
        }
    }

    /// The field of a type, as `field_of` finds it, where this is what is declared at the type's name.
    pub fn field_of_type<'s>(
        &'s self,
        type_name: &str,
        meta: &'s MetaType<S>,
        field_name: &str,
    ) -> Option<&'s Field<S>>
        ensures { fields.type_named (view_schema S.shown self.now) type_name.now ≡ shape_of S.shown meta.now →
            option_map (λ f. view_field S.shown f.now) result ≡ fields.field_of (view_schema S.shown self.now) type_name.now field_name.now }
    {
        match meta.field_by_name(field_name) {
            Some(field) => Some(field),
            None => {
                if meta.is_composite() {
                    self.meta_field(type_name, field_name)
                } else {
                    None
                }
            }
        }
    }

    /// The directive of this name, of those that every schema has (3.13); `None` where there is none.
    pub fn directive_by_name(&self, name: &str) -> Option<&DirectiveType<S>>
        ensures { option_map (λ d. view_directive S.shown d.now) result ≡ directive_named name.now }
    {
        find_directive(&self.directives, name)
    }

    /// The field that an object, interface or union has beside its declared ones.
    fn meta_field(&self, type_name: &str, field_name: &str) -> Option<&Field<S>>
        ensures { option_map (λ f. view_field S.shown f.now) result ≡ field_in
            (typename_field ∷ cond (bytes_eq type_name.now (view_schema S.shown self.now).query) root_fields []) field_name.now }
    {
        if self.may_have(type_name, field_name) {
            find_field(&self.meta_fields, field_name)
        } else {
            None
        }
    }

    /// Whether the field is `__typename`, or the type is the query type.
    fn may_have(&self, type_name: &str, field_name: &str) -> bool
        ensures { result ≡ (bytes_eq field_name.now typename || bytes_eq type_name.now (view_schema S.shown self.now).query) }
    {
        field_name == "__typename" || type_name == self.query_name.as_str()
    }
}

/// The first directive of this name.
#[tactic(auto, unfolding(graphql_spec::specs::Placed::directive_in))]
fn find_directive<'d, S: ScalarValue>(
    directives: &'d [DirectiveType<S>],
    name: &str,
) -> Option<&'d DirectiveType<S>>
    ensures { option_map (λ d. view_directive S.shown d.now) result ≡ directive_in (map (view_directive S.shown) directives.now) name.now }
{
    for directive in directives {
        if name == directive.name.as_str() {
            return Some(directive);
        }
    }
    None
}
