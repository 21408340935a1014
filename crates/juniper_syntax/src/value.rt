//! Values of answers (section 7.1 of the Specification).

ghost use Rattle.std.specs.Prelude.{◌≡◌, IfOk, IfSome, OnOk, OnErr, None, option_map, string_bytes};
ghost use Rattle.graphql_spec.specs.Shown.{shown_text};
ghost use Rattle.graphql_spec.specs.Values.{no_entries, look_up, has_entry, put, count_entries, entries_in, is_null, items_in, null, scalar_in};
ghost use Rattle.graphql_spec.specs.Values as values;
ghost use Rattle.juniper_syntax.specs.ValueView.{view_value, view_object, view_values, view_entries};

use crate::entries::{Entries, IntoEntries};
use crate::fields::{Fields, SharedKeys};
use crate::scalar::ScalarValue;
use std::alloc::{AllocError, Global};

/// A value of an answer.
#[cycle(value)]
#[derive(Debug, PartialEq, Eq, Drop)]
pub enum Value<S> {
    /// Null.
    Null,
    /// A scalar or an enum's value.
    Scalar(S),
    /// A list.
    List(Vec<Value<S>>),
    /// An object.
    Object(Object<S>),
}

impl<S: ScalarValue> Value<S> {
    /// Null.
    pub fn null() -> Value<S>
        ensures { view_value S.shown result ≡ null }
    {
        Value::Null
    }

    /// This scalar, or this enum's value.
    pub fn scalar(scalar: S) -> Value<S>
        ensures { view_value S.shown result ≡ values.scalar (S.shown scalar) }
    {
        Value::Scalar(scalar)
    }

    /// The list of these.
    pub fn list(items: Vec<Value<S>>) -> Value<S>
        ensures { view_value S.shown result ≡ values.list (view_values S.shown items.items) }
    {
        Value::List(items)
    }

    /// This object.
    pub fn object(object: Object<S>) -> Value<S>
        ensures { view_value S.shown result ≡ values.object (view_object S.shown object) }
    {
        Value::Object(object)
    }

    /// The scalar or the enum's value that it is.
    #[tactic(auto, unfolding(graphql_spec::specs::Values::scalar_in))]
    pub fn as_scalar(&self) -> Option<&S>
        ensures { option_map (λ s. S.shown s.now) result ≡ scalar_in (view_value S.shown self.now) }
    {
        match self {
            Value::Scalar(scalar) => Some(scalar),
            Value::Null => None,
            Value::List(_) => None,
            Value::Object(_) => None,
        }
    }

    /// The list that it is.
    #[tactic(auto, unfolding(graphql_spec::specs::Values::items_in))]
    pub fn as_list_value(&self) -> Option<&Vec<Value<S>>>
        ensures { option_map (λ items. view_values S.shown items.now.items) result ≡ items_in (view_value S.shown self.now) }
    {
        match self {
            Value::List(items) => Some(items),
            Value::Null => None,
            Value::Scalar(_) => None,
            Value::Object(_) => None,
        }
    }

    /// The object that it is.
    #[tactic(auto, unfolding(graphql_spec::specs::Values::entries_in))]
    pub fn as_object_value(&self) -> Option<&Object<S>>
        ensures { option_map (λ o. view_object S.shown o.now) result ≡ entries_in (view_value S.shown self.now) }
    {
        match self {
            Value::Object(object) => Some(object),
            Value::Null => None,
            Value::Scalar(_) => None,
            Value::List(_) => None,
        }
    }

    /// Whether it is null.
    #[tactic(auto, unfolding(graphql_spec::specs::Values::is_null))]
    pub fn is_null(&self) -> bool
        ensures { result ≡ is_null (view_value S.shown self.now) }
    {
        match self {
            Value::Null => true,
            Value::Scalar(_) => false,
            Value::List(_) => false,
            Value::Object(_) => false,
        }
    }

    /// A value that shows the same; an error where memory is refused.
    #[cycle(try_clone)]
    pub fn try_clone(&self, alloc: Global) -> Result<Value<S>, AllocError>
        ensures { IfOk result (λ made. view_value S.shown made ≡ view_value S.shown self.now) }
    {
        match self {
            Value::Null => Ok(Value::Null),
            Value::Scalar(scalar) => Ok(Value::Scalar(scalar.try_clone(alloc)?)),
            Value::List(items) => Ok(Value::List(clone_values(alloc, items.as_slice())?)),
            Value::Object(object) => Ok(Value::Object(clone_object(alloc, object)?)),
        }
    }
}

/// Keys with values, in order; no two keys are equal (by [`object_keys_differ`](crate::laws::object_keys_differ)).
#[cycle(value)]
#[derive(Debug, PartialEq, Eq, Drop)]
pub struct Object<S> {
    pub(crate) fields: Fields<Value<S>>,
}

impl<S: ScalarValue> Object<S> {
    /// An object without keys, with room for so many; an error where memory is refused.
    pub fn with_capacity(alloc: Global, capacity: usize) -> Result<Object<S>, AllocError>
        ensures { IfOk result (λ o. view_object S.shown o ≡ no_entries) }
    {
        Ok(Object {
            fields: Fields::with_capacity(alloc, capacity)?,
        })
    }

    /// An object without keys, with a hint at those that come: what is put at them, in their order, shares them. An error where memory is
    /// refused.
    pub fn hinted(alloc: Global, keys: &SharedKeys) -> Result<Object<S>, AllocError>
        ensures { IfOk result (λ o. view_object S.shown o ≡ no_entries) }
    {
        Ok(Object {
            fields: Fields::hinted(alloc, keys.keys.clone()?)?,
        })
    }

    /// Puts a value at a key, which is copied where it is not the next that was hinted at. A new key goes last; one that is there keeps its
    /// place, and its old value is let go. Where memory is refused the object stays as it was.
    #[inline(always)]
    pub fn put_field(&mut self, alloc: Global, key: &str, value: Value<S>) -> Result<(), AllocError>
        ensures ok { OnOk result (view_object S.shown self.new ≡ put key.now (view_value S.shown value) (view_object S.shown self.old)) }
        ensures err { OnErr result (view_object S.shown self.new ≡ view_object S.shown self.old) }
    {
        self.fields.put(alloc, key, value)
    }

    /// Puts a value at a key. A new key goes last; one that is there keeps its place, and its old value is handed back.
    /// Where memory is refused the object stays as it was.
    pub fn add_field(
        &mut self,
        key: String,
        value: Value<S>,
    ) -> Result<Option<Value<S>>, AllocError>
        ensures old { IfOk result (λ o. option_map (view_value S.shown) o ≡ look_up (string_bytes key) (view_object S.shown self.old)) }
        ensures ok { OnOk result (view_object S.shown self.new ≡ put (string_bytes key) (view_value S.shown value) (view_object S.shown self.old)) }
        ensures err { OnErr result (view_object S.shown self.new ≡ view_object S.shown self.old) }
    {
        self.fields.insert(key, value)
    }

    /// Whether the key is there.
    pub fn contains_field(&self, key: &str) -> bool
        ensures { result ≡ has_entry key.now (view_object S.shown self.now) }
    {
        self.get_field_value(key).is_some()
    }

    /// The value at a key, if the key is there.
    pub fn get_field_value(&self, key: &str) -> Option<&Value<S>>
        ensures { option_map (λ v. view_value S.shown v.now) result ≡ look_up key.now (view_object S.shown self.now) }
    {
        self.fields.get(key)
    }

    /// Takes the value at a key, if the key is there, and leaves null in its place.
    pub fn take_field(&mut self, key: &str) -> Option<Value<S>>
        ensures value { option_map (view_value S.shown) result ≡ look_up key.now (view_object S.shown self.old) }
        ensures some { IfSome result (λ v. view_object S.shown self.new ≡ put key.now null (view_object S.shown self.old)) }
        ensures none { result ≡ None → view_object S.shown self.new ≡ view_object S.shown self.old }
    {
        self.fields.replace(key, Value::Null)
    }

    /// The keys with their values, handed over in order; an error where memory is refused for keys that other objects share.
    pub fn into_fields(self) -> Result<IntoEntries<Value<S>>, AllocError>
        ensures { IfOk result (λ entries. view_entries S.shown entries ≡ view_object S.shown self) }
    {
        self.fields.into_entries()
    }

    /// How many keys there are.
    pub fn field_count(&self) -> usize
        ensures { result ≡ count_entries (view_object S.shown self.now) }
    {
        self.fields.len()
    }

    /// The keys with their values, in order.
    pub fn iter(&self) -> Entries<'_, Value<S>>
        ensures { view_entries S.shown result ≡ view_object S.shown self.now }
    {
        self.fields.iter()
    }
}

#[cycle(try_clone)]
fn clone_values<S: ScalarValue>(
    alloc: Global,
    items: &[Value<S>],
) -> Result<Vec<Value<S>>, AllocError>
    ensures { IfOk result (λ made. view_values S.shown made.items ≡ view_values S.shown items.now) }
{
    let mut made = Vec::with_capacity(alloc, items.len())?;
    for item in items {
        let copy = item.try_clone(alloc)?;
        made.push(copy)?;
    }
    Ok(made)
}

#[cycle(try_clone)]
fn clone_object<S: ScalarValue>(alloc: Global, object: &Object<S>) -> Result<Object<S>, AllocError>
    ensures { IfOk result (λ made. view_object S.shown made ≡ view_object S.shown object.now) }
{
    let values = clone_values(alloc, object.fields.values())?;
    let fields = object.fields.with_values(values)?;
    Ok(Object { fields })
}
