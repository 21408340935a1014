//! When values that look-ahead shows are equal: where they are written the same, at the same places, with values for their variables.

ghost use Rattle.std.specs.Prelude.{◌≡◌};
ghost use Rattle.juniper_syntax.specs.Positions.{view_span};
ghost use Rattle.juniper_lookahead.specs.ShownValues.{listed, fields_listed};
ghost use Rattle.juniper_lookahead.specs.InputEquality.{same_span, same_word, same_field_head, same_input, same_input_items, same_input_fields};
ghost use Rattle.juniper_lookahead.specs.ValueView.{view_look, view_list, view_object, view_lent_word, view_shown_field};

use crate::look_ahead_object::ShownField;
use crate::values::{LookAheadList, LookAheadObject, LookAheadValue};
use juniper_syntax::{ScalarValue, Span, Spanning};

/// Whether two places are the same.
#[tactic(auto, unfolding(crate::specs::InputEquality::same_span, graphql_spec::specs::Positions::same_position))]
fn same_place(left: &Span, right: &Span) -> bool
    ensures { result ≡ same_span (view_span left.now) (view_span right.now) }
{
    left == right
}

/// Whether two names are the same, at the same place.
#[tactic(auto, unfolding(crate::specs::InputEquality::same_word))]
fn same_word(left: &Spanning<&str, &Span>, right: &Spanning<&str, &Span>) -> bool
    ensures { result ≡ same_word (view_lent_word left.now) (view_lent_word right.now) }
{
    left.item == right.item && same_place(left.span, right.span)
}

/// Whether two fields have the same name, at the same place, and their values stand at the same place.
#[tactic(auto, unfolding(crate::specs::InputEquality::same_field_head))]
fn same_head<'l, 'r, S: ScalarValue>(left: &ShownField<'l, S>, right: &ShownField<'r, S>) -> bool
    ensures { result ≡ same_field_head (view_shown_field S.shown left.now) (view_shown_field S.shown right.now) }
{
    same_word(&left.0, &right.0) && same_place(left.1.span, right.1.span)
}

/// Whether two values show the same, at the same places.
#[cycle(same_value)]
#[tactic(auto, unfolding(crate::specs::InputEquality::same_input))]
fn same_value<'l, 'r, S: ScalarValue>(
    left: &LookAheadValue<'l, S>,
    right: &LookAheadValue<'r, S>,
) -> bool
    ensures { result ≡ same_input (view_look S.shown left.now) (view_look S.shown right.now) }
{
    match left {
        LookAheadValue::Null => match right {
            LookAheadValue::Null => true,
            LookAheadValue::Scalar(_) => false,
            LookAheadValue::Enum(_) => false,
            LookAheadValue::List(_) => false,
            LookAheadValue::Object(_) => false,
        },
        LookAheadValue::Scalar(scalar) => match right {
            LookAheadValue::Scalar(other) => scalar == other,
            LookAheadValue::Null => false,
            LookAheadValue::Enum(_) => false,
            LookAheadValue::List(_) => false,
            LookAheadValue::Object(_) => false,
        },
        LookAheadValue::Enum(name) => match right {
            LookAheadValue::Enum(other) => name == other,
            LookAheadValue::Null => false,
            LookAheadValue::Scalar(_) => false,
            LookAheadValue::List(_) => false,
            LookAheadValue::Object(_) => false,
        },
        LookAheadValue::List(list) => match right {
            LookAheadValue::List(other) => same_list(list, other),
            LookAheadValue::Null => false,
            LookAheadValue::Scalar(_) => false,
            LookAheadValue::Enum(_) => false,
            LookAheadValue::Object(_) => false,
        },
        LookAheadValue::Object(object) => match right {
            LookAheadValue::Object(other) => same_object(object, other),
            LookAheadValue::Null => false,
            LookAheadValue::Scalar(_) => false,
            LookAheadValue::Enum(_) => false,
            LookAheadValue::List(_) => false,
        },
    }
}

/// Whether two lists show the same items, at the same places.
#[cycle(same_value)]
fn same_list<'l, 'r, S: ScalarValue>(
    left: &LookAheadList<'l, S>,
    right: &LookAheadList<'r, S>,
) -> bool
    ensures { result ≡ same_input_items (listed (view_list S.shown left.now)) (listed (view_list S.shown right.now)) }
{
    let mut others = right.iter();
    for item in left.iter() {
        let Some(other) = others.next() else {
            return false;
        };
        if !same_place(item.span, other.span) {
            return false;
        }
        if !same_value(&item.item, &other.item) {
            return false;
        }
    }
    others.next().is_none()
}

/// Whether two objects show the same fields, in the same order at the same places.
#[cycle(same_value)]
fn same_object<'l, 'r, S: ScalarValue>(
    left: &LookAheadObject<'l, S>,
    right: &LookAheadObject<'r, S>,
) -> bool
    ensures { result ≡ same_input_fields (fields_listed (view_object S.shown left.now)) (fields_listed (view_object S.shown right.now)) }
{
    let mut others = right.iter();
    for field in left.iter() {
        let Some(other) = others.next() else {
            return false;
        };
        if !same_head(&field, &other) {
            return false;
        }
        if !same_value(&field.1.item, &other.1.item) {
            return false;
        }
    }
    others.next().is_none()
}

impl<'a, S: ScalarValue> PartialEq for LookAheadValue<'a, S> {
    ghost use Rattle.std.specs.Cmp.{on_per};
    ghost use Rattle.juniper_lookahead.specs.EqualityLaws.{same_input_per};

    ghost eq = { λ a b. same_input (view_look S.shown a) (view_look S.shown b) };

    ghost laws = { on_per (view_look S.shown) same_input_per };

    fn eq(&self, other: &LookAheadValue<'a, S>) -> bool {
        same_value(self, other)
    }
}

impl<'a, S: ScalarValue> PartialEq for LookAheadList<'a, S> {
    ghost use Rattle.std.specs.Cmp.{on_per};
    ghost use Rattle.juniper_lookahead.specs.EqualityLaws.{same_items_per};

    ghost eq = { λ a b. same_input_items (listed (view_list S.shown a)) (listed (view_list S.shown b)) };

    ghost laws = { on_per (λ l. listed (view_list S.shown l)) same_items_per };

    fn eq(&self, other: &LookAheadList<'a, S>) -> bool {
        same_list(self, other)
    }
}

impl<'a, S: ScalarValue> PartialEq for LookAheadObject<'a, S> {
    ghost use Rattle.std.specs.Cmp.{on_per};
    ghost use Rattle.juniper_lookahead.specs.EqualityLaws.{same_fields_per};

    ghost eq = { λ a b. same_input_fields (fields_listed (view_object S.shown a)) (fields_listed (view_object S.shown b)) };

    ghost laws = { on_per (λ o. fields_listed (view_object S.shown o)) same_fields_per };

    fn eq(&self, other: &LookAheadObject<'a, S>) -> bool {
        same_object(self, other)
    }
}
