//! The fields of one response key, together (CollectFields, section 6.3.2 of the Specification).

ghost use Rattle.std.specs.Prelude.{◌≡◌, IfOk};
ghost use Rattle.std.specs.List.{filter};
ghost use Rattle.std.specs.Str.{bytes_eq};
ghost use Rattle.graphql_spec.specs.Documents.{response_key as key_of};
ghost use Rattle.graphql_spec.specs.Shown.{Name};
ghost use Rattle.juniper_syntax.specs.DocumentView.{view_selections, view_set};
ghost use Rattle.juniper_syntax.specs.declared.ast.Field.{out-Field};
ghost use Rattle.juniper_walk.specs.FieldWords.{fields_at, head_of};

use juniper_lookahead::{Collected, Occurrence};
use juniper_syntax::{Field, ScalarValue, Selection, Span, Spanning};
use std::alloc::{AllocError, Global};
use std::collections::BTreeMap;

/// The fields of each response key, in the order of the document.
pub type Groups<'d, 'a, S> = BTreeMap<&'a str, Collected<'d, 'a, S>>;

/// Fields by their response keys; the time grows with their number, and with its logarithm, whatever the keys are. An error where memory is refused.
pub fn group_fields<'d, 'a, S: ScalarValue>(
    alloc: Global,
    fields: &[Occurrence<'d, 'a, S>],
) -> Result<Groups<'d, 'a, S>, AllocError>
    ensures { IfOk result (λ groups. (q : Name) → fields_at groups q ≡ filter (λ o. bytes_eq q (key_of (head_of S.shown o.field.now))) fields.now) }
{
    let mut groups = BTreeMap::new(alloc);
    for occurrence in fields {
        let field = occurrence.field;
        let key = Field::response_key(field);
        groups
            .entry(key)?
            .or_insert(Vec::new(alloc))
            .push(Occurrence { field })?;
    }
    Ok(groups)
}

/// What a field selects; nothing where it has no selections (2.4).
pub fn selections_of<'d, 'a, S: ScalarValue>(
    field: &'d Spanning<Field<'a, S>, Span>,
) -> &'d [Selection<'a, S>]
    ensures { view_selections S.shown result.now ≡ view_set S.shown (out-Field S field.now.item).selection_set }
{
    match &field.item.selection_set {
        Some(selections) => selections.as_slice(),
        None => &[],
    }
}
