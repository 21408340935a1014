//! What the rules look at in each definition, listed once for all of them (section 5 of the Specification).

ghost use Rattle.std.specs.Prelude.{◌≡◌, IfOk, map};
ghost use Rattle.graphql_spec.specs.Documents as documents;
ghost use Rattle.juniper_schema.specs.SchemaView.{view_schema};
ghost use Rattle.juniper_syntax.specs.DocumentView.{view_definition};
ghost use Rattle.juniper_rules.specs.Listing.{AreListed, AreListedOnTypes, IsListed, definition_of, listing_of, placed_listing_of, view_listed};
ghost use Rattle.juniper_rules.specs.Listing.{view_listed_on_types};

use juniper_schema::SchemaType;
use juniper_syntax::{Definition, ScalarValue};
use juniper_type_rules::{Call, PlacedParts, calls, placed_in};
use juniper_written::{ArgumentLists, Written, argument_lists, written_in};
use std::alloc::{AllocError, Global};

/// A definition with what is written in it.
#[derive(Drop)]
pub struct Listed<'d, 'a, S: ScalarValue> {
    /// The definition.
    pub definition: &'d Definition<'a, S>,
    /// What is written in it, kind by kind.
    pub written: Written<'d, 'a, S>,
    /// The arguments of its fields and directives.
    pub arguments: ArgumentLists<'d, 'a, S>,
}

/// A definition with what is written in it, also on types that are known.
#[derive(Drop)]
pub struct ListedOnTypes<'l, 'd, 'a, S: ScalarValue> {
    /// The definition, and what is written in it.
    pub listed: &'l Listed<'d, 'a, S>,
    /// Its fields and directives on the types that they stand on.
    pub placed: PlacedParts<'d, 'a, S>,
    /// The arguments of these, with their declarations.
    pub calls: Vec<Call<'d, 'a, 'd, S>>,
}

/// The definitions of a document with what is written in each, in order. An error where memory is refused.
pub fn listed_in<'d, 'a, S: ScalarValue>(
    alloc: Global,
    document: &'d [Definition<'a, S>],
) -> Result<Vec<Listed<'d, 'a, S>>, AllocError>
    ensures { IfOk result (λ ls. AreListed S.shown ls.items (map (view_definition S.shown) document.now)) }
{
    let mut all = Vec::with_capacity(alloc, document.len())?;
    for definition in document {
        let listed = list_definition(alloc, definition)?;
        all.push(listed)?;
    }
    Ok(all)
}

/// A definition with what is written in it.
fn list_definition<'d, 'a, S: ScalarValue>(
    alloc: Global,
    definition: &'d Definition<'a, S>,
) -> Result<Listed<'d, 'a, S>, AllocError>
    ensures { IfOk result (λ l. view_listed S.shown l ≡ listing_of (view_definition S.shown definition.now)) }
{
    let written = written_in(alloc, definition)?;
    let arguments = argument_lists(alloc, &written)?;
    Ok(Listed {
        definition,
        written,
        arguments,
    })
}

/// What is written in definitions, also on types that are known, in order. An error where memory is refused.
pub fn listed_on_types<'l, 'd, 'a, S: ScalarValue>(
    alloc: Global,
    schema: &'d SchemaType<S>,
    listed: &'l [Listed<'d, 'a, S>],
) -> Result<Vec<ListedOnTypes<'l, 'd, 'a, S>>, AllocError>
    ensures { IfOk result (λ ls. (d : documents.Document) → AreListed S.shown listed.now d →
        AreListedOnTypes S.shown (view_schema S.shown schema.now) ls.items d) }
{
    let mut all = Vec::with_capacity(alloc, listed.len())?;
    for one in listed {
        let placed = list_on_types(alloc, schema, one)?;
        all.push(placed)?;
    }
    Ok(all)
}

/// What is written in a definition, also on types that are known.
fn list_on_types<'l, 'd, 'a, S: ScalarValue>(
    alloc: Global,
    schema: &'d SchemaType<S>,
    listed: &'l Listed<'d, 'a, S>,
) -> Result<ListedOnTypes<'l, 'd, 'a, S>, AllocError>
    ensures { IfOk result (λ l. IsListed S.shown listed.now →
        view_listed_on_types S.shown l ≡ placed_listing_of (view_schema S.shown schema.now) (definition_of S.shown listed.now)) }
{
    let placed = placed_in(alloc, schema, listed.definition)?;
    let calls = calls(alloc, schema, &placed)?;
    Ok(ListedOnTypes {
        listed,
        placed,
        calls,
    })
}
