//! Fields of one name with the same arguments (FieldsInSetCanMerge, section 5.3.2 of the Specification).

ghost use Rattle.std.specs.Prelude.{◌≡◌, ◌&&◌, false, map};
ghost use Rattle.graphql_spec.specs.Documents.{written};
ghost use Rattle.juniper_field_graph.specs.KindsView as kinds_view;
ghost use Rattle.juniper_field_graph.specs.KindsView.{IsOnce};
ghost use Rattle.juniper_field_graph.specs.NamedValues.{as_fields, view_named};
ghost use Rattle.juniper_field_graph.specs.SameValues.{all_keyed, same_fields};
ghost use Rattle.juniper_syntax.specs.DocumentView.{view_argument, view_arguments, view_field};

use crate::named_values::{Named, all_named, value_at};
use crate::same_values::is_matched;
use juniper_syntax::ast::Arguments;
use juniper_syntax::{Field, ScalarValue, Span, Spanning};

/// Whether two fields have one name, and the same arguments up to places, the order of arguments and that of object
/// fields (FieldsInSetCanMerge, section 5.3.2). Nothing is said of a field that writes an argument or object field
/// twice.
pub fn same_call<S: ScalarValue>(
    first: &Spanning<Field<'_, S>, Span>,
    second: &Spanning<Field<'_, S>, Span>,
) -> bool
    ensures { IsOnce (view_field S.shown first.now) → IsOnce (view_field S.shown second.now) →
        result ≡ kinds_view.same_call (view_field S.shown first.now) (view_field S.shown second.now) }
{
    first.item.name.item == second.item.name.item
        && same_arguments(&first.item.arguments, &second.item.arguments)
}

/// Whether each argument of the one is one of the other, with the same value.
fn same_arguments<S: ScalarValue>(
    first: &Option<Spanning<Arguments<'_, S>, Span>>,
    second: &Option<Spanning<Arguments<'_, S>, Span>>,
) -> bool
    ensures { result ≡ (same_fields (as_fields (written (view_arguments S.shown first.now))) (as_fields (written (view_arguments S.shown second.now)))
        && all_keyed (as_fields (written (view_arguments S.shown second.now))) (as_fields (written (view_arguments S.shown first.now)))) }
{
    let arguments = Arguments::written(first);
    let others = Arguments::written(second);
    all_matched(arguments, others) && all_named(others, arguments)
}

/// Whether each of the arguments has the same value among the others.
fn all_matched<S: ScalarValue>(arguments: &[Named<&str, S>], others: &[Named<&str, S>]) -> bool
    ensures { result ≡ same_fields (view_named (λ n. n.now) S.shown arguments.now) (view_named (λ n. n.now) S.shown others.now) }
{
    for argument in arguments {
        if !is_matched(&argument.1.item, value_at(others, argument.0.item)) {
            return false;
        }
    }
    true
}
