//! Fields and directives with their arguments, and with what these should meet (section 5.4 of the Specification).

ghost use Rattle.std.specs.Prelude.{◌≡◌, ◌++◌, IfOk, OnOk, Some, map};
ghost use Rattle.std.specs.List.{flat_map};
ghost use Rattle.graphql_spec.specs.Placed.{directive_named};
ghost use Rattle.juniper_type_rules.specs.PlacedView.{view_parts, view_placed};
ghost use Rattle.juniper_syntax.specs.DocumentView.{view_directive};
ghost use Rattle.juniper_written.specs.WrittenView.{view_directives_at};
ghost use Rattle.juniper_explain.specs.Sites.{directive_site, field_site};
ghost use Rattle.juniper_explain.specs.SitesView.{owner_text, view_sites};

use juniper_meta::meta::Argument;
use juniper_schema::SchemaType;
use juniper_syntax::ast::Arguments;
use juniper_syntax::{Directive, ScalarValue, SourcePosition, Span, Spanning};
use juniper_type_rules::{Placed, PlacedParts};
use std::alloc::{AllocError, Global};
use std::fmt;

/// What is given arguments.
#[derive(Clone, Copy)]
pub(crate) enum Owner<'d> {
    /// The field of a type of this name, with its own.
    Field(&'d str, &'d str),
    /// The directive of a name.
    Directive(&'d str),
}

/// As it is called: `Query.hero` or `@skip`.
impl<'d> fmt::Display for Owner<'d> {
    ghost output = { λ o. Some (owner_text o) };

    fn fmt<W: fmt::Write>(&self, f: &mut fmt::Formatter<W>) -> fmt::Result {
        match self {
            Owner::Field(parent, name) => write!(f, "{parent}.{name}"),
            Owner::Directive(name) => write!(f, "@{name}"),
        }
    }
}

/// A field or directive with its arguments, and with those that are declared.
#[derive(Drop)]
pub(crate) struct Site<'d, 'a, S: ScalarValue> {
    /// What is given arguments.
    pub owner: Owner<'d>,
    /// Where it starts.
    pub location: SourcePosition,
    /// What is declared.
    pub declared: &'d [Argument<S>],
    /// What is given.
    pub given: &'d Option<Spanning<Arguments<'a, S>, Span>>,
}

/// The known fields of what is placed, then its known directives. An error where memory is refused.
pub(crate) fn sites<'d, 'a, S: ScalarValue>(
    alloc: Global,
    schema: &'d SchemaType<S>,
    parts: &PlacedParts<'d, 'a, S>,
) -> Result<Vec<Site<'d, 'a, S>>, AllocError>
    ensures { IfOk result (λ is. view_sites S.shown is.items ≡ flat_map (λ p. field_site p p.declared) (view_parts S.shown parts.now).fields
        ++ flat_map (λ y. directive_site y (directive_named y.name.item)) (view_parts S.shown parts.now).directives) }
{
    let mut sites = Vec::new(alloc);
    add_fields(&parts.fields, &mut sites)?;
    add_directives(schema, &parts.directives, &mut sites)?;
    Ok(sites)
}

/// Adds the known fields.
fn add_fields<'d, 'a, S: ScalarValue>(
    fields: &Vec<Placed<'d, 'a, S>>,
    sites: &mut Vec<Site<'d, 'a, S>>,
) -> Result<(), AllocError>
    ensures { OnOk result (view_sites S.shown sites.new.items ≡ view_sites S.shown sites.old.items
        ++ flat_map (λ p. field_site p p.declared) (map (view_placed S.shown) fields.now.items)) }
{
    for placed in fields {
        add_field(placed, sites)?;
    }
    Ok(())
}

/// Adds a field that its parent type has.
#[tactic(auto, unfolding(crate::specs::Sites::field_site))]
fn add_field<'d, 'a, S: ScalarValue>(
    placed: &Placed<'d, 'a, S>,
    sites: &mut Vec<Site<'d, 'a, S>>,
) -> Result<(), AllocError>
    ensures { OnOk result (view_sites S.shown sites.new.items ≡ view_sites S.shown sites.old.items
        ++ field_site (view_placed S.shown placed.now) (view_placed S.shown placed.now).declared) }
{
    let field = placed.field;
    match placed.declared {
        Some(found) => {
            sites.push(Site {
                owner: Owner::Field(placed.parent, field.item.name.item),
                location: field.span.start,
                declared: found.declared_arguments(),
                given: &field.item.arguments,
            })?;
            Ok(())
        }
        None => Ok(()),
    }
}

/// Adds the known directives.
fn add_directives<'d, 'a, S: ScalarValue>(
    schema: &'d SchemaType<S>,
    directives: &Vec<&'d Spanning<Directive<'a, S>, Span>>,
    sites: &mut Vec<Site<'d, 'a, S>>,
) -> Result<(), AllocError>
    ensures { OnOk result (view_sites S.shown sites.new.items ≡ view_sites S.shown sites.old.items
        ++ flat_map (λ y. directive_site y (directive_named y.name.item)) (view_directives_at S.shown directives.now.items)) }
{
    for index in 0..directives.len() {
        let directive = directives[index];
        add_directive(schema, directive, sites)?;
    }
    Ok(())
}

/// Adds a directive that every schema has.
#[tactic(auto, unfolding(crate::specs::Sites::directive_site))]
fn add_directive<'d, 'a, S: ScalarValue>(
    schema: &'d SchemaType<S>,
    directive: &'d Spanning<Directive<'a, S>, Span>,
    sites: &mut Vec<Site<'d, 'a, S>>,
) -> Result<(), AllocError>
    ensures { OnOk result (view_sites S.shown sites.new.items ≡ view_sites S.shown sites.old.items
        ++ directive_site (view_directive S.shown directive.now) (directive_named (view_directive S.shown directive.now).name.item)) }
{
    let name = directive.item.name.item;
    match schema.directive_by_name(name) {
        Some(found) => {
            sites.push(Site {
                owner: Owner::Directive(name),
                location: directive.span.start,
                declared: found.arguments.as_slice(),
                given: &directive.item.arguments,
            })?;
            Ok(())
        }
        None => Ok(()),
    }
}
