//! An operation, and the fragments that it reaches (section 5.8.3 of the Specification).

ghost use Rattle.std.specs.Prelude.{◌≡◌, ◌++◌, IfOk, OnOk, map};
ghost use Rattle.graphql_spec.specs.Documents as documents;
ghost use Rattle.graphql_spec.specs.Schema.{Schema};
ghost use Rattle.graphql_spec.specs.VariableUses.{parts};
ghost use Rattle.juniper_rules.specs.Listing.{definition_of, placed_listing_of, view_listed_on_types};
ghost use Rattle.juniper_written.specs.WrittenView.{has_name};
ghost use Rattle.juniper_explain.specs.Adding.{WherePlaced};
ghost use Rattle.juniper_explain.specs.Parts.{view_each, where_reached};

use juniper_rules::ListedOnTypes;
use juniper_syntax::{Definition, ScalarValue};
use juniper_written::{FragmentsByName, NameSet};
use std::alloc::{AllocError, Global};

/// What is listed of an operation, of which this is listed, and of the fragments that it reaches in a document with these
/// fragments, in the order of the document. An error where memory is refused.
pub(crate) fn parts_of<'p, 'l, 'd, 'a, S: ScalarValue>(
    alloc: Global,
    document: &'p [ListedOnTypes<'l, 'd, 'a, S>],
    fragments: &FragmentsByName<'d, 'a, S>,
    operation: &'p ListedOnTypes<'l, 'd, 'a, S>,
) -> Result<Vec<&'p ListedOnTypes<'l, 'd, 'a, S>>, AllocError>
    ensures { IfOk result (λ ps. (s : Schema) (d : documents.Document) (o : documents.Operation) →
        WherePlaced S.shown s document.now fragments.now operation.now d (λ x. x ≡ documents.operation o →
        view_each S.shown ps.items ≡ map (placed_listing_of s) (parts d o))) }
{
    let listed = operation.listed;
    let reached = fragments.reached(alloc, &listed.written.spreads)?;
    let mut parts = Vec::new(alloc);
    parts.push(operation)?;
    for part in document {
        push_reached(part, &reached, &mut parts)?;
    }
    Ok(parts)
}

/// Adds a fragment whose name is among these.
fn push_reached<'p, 'l, 'd, 'a, S: ScalarValue>(
    part: &'p ListedOnTypes<'l, 'd, 'a, S>,
    names: &NameSet<'a>,
    parts: &mut Vec<&'p ListedOnTypes<'l, 'd, 'a, S>>,
) -> Result<(), AllocError>
    ensures { OnOk result (view_each S.shown parts.new.items ≡ view_each S.shown parts.old.items
        ++ where_reached (has_name names.now) (definition_of S.shown part.now.listed.now) (view_listed_on_types S.shown part.now)) }
{
    let listed = part.listed;
    match listed.definition {
        Definition::Operation(_) => Ok(()),
        Definition::Fragment(fragment) => {
            if names.contains(fragment.item.name.item) {
                parts.push(part)?;
            }
            Ok(())
        }
    }
}
