//! Laws of values. Each function does nothing; its contract is the law.

ghost use Rattle.std.specs.Prelude.{◌≡◌, true};
ghost use Rattle.graphql_spec.specs.Values.{keys_differ, same_value};
ghost use Rattle.juniper_syntax.specs.ValueView.{view_object, view_value};

use crate::scalar::ScalarValue;
use crate::value::{Object, Value};

/// `==` compares what is shown: null with null, scalars that show the same, lists item by item, and objects entry by entry
/// in their order.
pub fn equal_values_show_the_same<S: ScalarValue>(u: &Value<S>, v: &Value<S>)
    ensures { ⟦<Value<S> as PartialEq>⟧.eq u.now v.now ≡ same_value (view_value S.shown u.now) (view_value S.shown v.now) }
{}

/// The keys of an object differ from one another.
pub fn object_keys_differ<S: ScalarValue>(object: &Object<S>)
    ensures { keys_differ (view_object S.shown object.now) ≡ true }
{
    object.fields.keys_differ();
}
