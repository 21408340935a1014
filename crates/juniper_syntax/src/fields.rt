//! Keys with values, in the order in which the keys came: a key is found without going over the others.

ghost use Rattle.std.specs.Prelude.{◌≡◌, ◌≤◌, ◌<◌, [], length, take, slice_get, slice_set, Some, IfOk, IfSome, OnOk, OnErr, string_bytes};
ghost use Rattle.std.specs.List.{IsDistinct, position};
ghost use Rattle.std.specs.Map.{keys_of, values_of, lookup, set_value};
ghost use Rattle.std.specs.Option.{option_copied};
ghost use Rattle.std.specs.String.{string_eq};
ghost use Rattle.std.specs.Cmp.{on_per, and_per, on_equiv, and_equiv, partial_equiv_from_equiv};
ghost use Rattle.std.specs.Cmp.Lexicographic.{lists_per, lists_equiv, nat_list_eq_equiv};
ghost use Rattle.indexmap.specs.IndexMap.{insert_entry};
ghost use Rattle.std.specs.Str.{bytes_eq};
ghost use Rattle.juniper_syntax.specs.FieldWords.{is_key, names, texts, said, fields_eq, IsKeyAdded};

use crate::entries::{Entries, IntoEntries};
use crate::keys::Keys;
use crate::places::is_at;
use std::alloc::{AllocError, Global};
use std::marker::Model;
use std::rc::Rc;
use std::{fmt, mem};

/// Keys with values. It is seen as the list of them; inside, the keys and the values stand in two lists. Others may share the keys, and of
/// these only as many count as there are values: those that follow are a hint at what comes next.
#[derive(Drop)]
pub struct Fields<V> {
    keys: Rc<Keys>,
    values: Vec<V>,
}

/// Keys that objects share. They are a hint at the keys that are put in an object, and change nothing of what it is.
#[derive(Drop)]
pub struct SharedKeys {
    pub(crate) keys: Rc<Keys>,
}

impl SharedKeys {
    /// These keys, in order; one that comes again is left out. An error where memory is refused.
    pub fn new(alloc: Global, names: &[&str]) -> Result<SharedKeys, AllocError> {
        let mut keys = Keys::with_capacity(alloc, names.len())?;
        for name in names {
            let key = String::from_str(alloc, *name)?;
            keys.insert_full(key)?;
        }
        let keys = Rc::new(alloc, keys)?;
        Ok(SharedKeys { keys })
    }
}

impl<V> Model for Fields<V> {
    ghost use Rattle.std.specs.Prelude.{◌≤◌, List, String, length, zip};
    ghost use Rattle.std.specs.Global.{Global};
    ghost use Rattle.juniper_syntax.specs.FieldWords.{entries_code};

    ghost Value = { List (String Global × V) };

    ghost coded = { entries_code V.code };

    ghost view = { λ f. zip f.keys.value f.values.items };

    ghost invariant = { λ f. length f.values.items ≤ length f.keys.value };
}

impl<V> Fields<V> {
    /// No keys, with room for so many; an error where memory is refused.
    pub fn with_capacity(alloc: Global, capacity: usize) -> Result<Fields<V>, AllocError>
        ensures { IfOk result (λ fields. fields ≡ []) }
    {
        Ok(Fields {
            keys: Rc::new(alloc, Keys::with_capacity(alloc, capacity)?)?,
            values: Vec::with_capacity(alloc, capacity)?,
        })
    }

    /// No keys, with a hint at those that come; an error where memory is refused.
    pub(crate) fn hinted(alloc: Global, keys: Rc<Keys>) -> Result<Fields<V>, AllocError>
        ensures { IfOk result (λ fields. fields ≡ []) }
    {
        let values = Vec::with_capacity(alloc, keys.as_ref().as_slice().len())?;
        Ok(Fields { keys, values })
    }

    // The keys that have values.
    fn own_keys(&self) -> &[String]
        ensures keys { result.now ≡ keys_of self.now }
        ensures unique { IsDistinct string_eq (keys_of self.now) }
    {
        &self.keys.as_ref().as_slice()[..self.values.len()]
    }

    // The place of a key that has a value.
    fn place_of(&self, key: &str) -> Option<usize>
        ensures index { result ≡ position (is_key key.now) (keys_of self.now) }
        ensures within { IfSome result (λ place. place < length self.now) }
    {
        let place = self.keys.as_ref().get_index_of(key)?;
        if place < self.values.len() {
            Some(place)
        } else {
            None
        }
    }

    /// How many keys there are.
    pub fn len(&self) -> usize
        ensures { result ≡ length self.now }
    {
        self.values.len()
    }

    /// The value at a key, if the key is there.
    pub fn get(&self, key: &str) -> Option<&V>
        ensures { option_copied result ≡ lookup (is_key key.now) self.now }
    {
        let place = self.place_of(key)?;
        Some(&self.values[place])
    }

    /// No two keys are equal: it does nothing, and its contract says so.
    pub fn keys_differ(&self)
        ensures { IsDistinct string_eq (keys_of self.now) }
    {
        self.own_keys();
    }

    /// The values, in the order of their keys.
    pub fn values(&self) -> &[V]
        ensures { result.now ≡ values_of self.now }
    {
        self.values.as_slice()
    }

    /// The keys with their values, in order.
    pub fn iter(&self) -> Entries<'_, V>
        ensures { result ≡ self.now }
    {
        Entries::new(self.own_keys(), self.values.as_slice())
    }
}

impl<V: Drop> Fields<V> {
    /// Puts a value at a key that is there, and hands back the old one. A key that is not there is not added.
    pub fn replace(&mut self, key: &str, value: V) -> Option<V>
        ensures old { result ≡ lookup (is_key key.now) self.old }
        ensures new { self.new ≡ set_value (is_key key.now) self.old value }
    {
        let place = self.place_of(key)?;
        Some(put_at(&mut self.values, place, value))
    }

    /// Puts a value at a key. A new key goes last; one that is there keeps its place, and its old value is handed back.
    /// Where memory is refused all stays as it was.
    pub fn insert(&mut self, key: String, value: V) -> Result<Option<V>, AllocError>
        ensures old { IfOk result (λ o. o ≡ lookup (is_key (string_bytes key)) self.old) }
        ensures ok { OnOk result (said self.new ≡ insert_entry bytes_eq (said self.old) (string_bytes key) value) }
        ensures err { OnErr result (said self.new ≡ said self.old) }
    {
        self.values.reserve(1)?;
        let (place, is_new) = add_key(&mut self.keys, self.values.len(), key)?;
        if is_new {
            self.values.push(value)?;
            Ok(None)
        } else {
            Ok(Some(put_at(&mut self.values, place, value)))
        }
    }

    /// Puts a value at a key, which is copied where it is not the next of those that came as a hint. A new key goes last; one that is there
    /// keeps its place, and its old value is let go. Where memory is refused all stays as it was.
    #[inline(always)]
    pub fn put(&mut self, alloc: Global, key: &str, value: V) -> Result<(), AllocError>
        ensures ok { OnOk result (said self.new ≡ insert_entry bytes_eq (said self.old) key.now value) }
        ensures err { OnErr result (said self.new ≡ said self.old) }
    {
        if is_at(self.keys.as_ref().as_slice(), self.values.len(), key) {
            self.values.push(value)?;
            return Ok(());
        }
        let copy = String::from_str(alloc, key)?;
        drop(self.insert(copy, value)?);
        Ok(())
    }

    /// The same keys with other values, one for each; an error where memory is refused.
    pub fn with_values<W: Drop>(&self, values: Vec<W>) -> Result<Fields<W>, AllocError>
        requires { length values.items ≡ length self.now }
        ensures keys { IfOk result (λ made. names made ≡ names self.now) }
        ensures values { IfOk result (λ made. values_of made ≡ values.items) }
    {
        let keys = self.keys.clone()?;
        Ok(Fields { keys, values })
    }

    /// The keys with their values, handed over in order; an error where memory is refused for keys that others share.
    pub fn into_entries(self) -> Result<IntoEntries<V>, AllocError>
        ensures { IfOk result (λ entries. said entries ≡ said self) }
    {
        let names = into_first(self.keys, self.values.len())?;
        Ok(IntoEntries::new(names, self.values))
    }
}

impl<V: PartialEq> PartialEq for Fields<V> {
    ghost eq = { fields_eq V.eq };

    ghost laws = { lists_per (and_per (on_per (λ p. string_bytes p.0) (partial_equiv_from_equiv nat_list_eq_equiv)) (on_per (λ p. p.1) V.laws)) };

    fn eq(&self, other: &Fields<V>) -> bool {
        self.own_keys() == other.own_keys() && self.values.as_slice() == other.values.as_slice()
    }
}

impl<V: Eq> Eq for Fields<V> {
    ghost laws = { lists_equiv (and_equiv (on_equiv (λ p. string_bytes p.0) nat_list_eq_equiv) (on_equiv (λ p. p.1) V.Eq.laws)) };
}

impl<V: fmt::Debug> fmt::Debug for Fields<V> {
    fn fmt<W: fmt::Write>(&self, f: &mut fmt::Formatter<W>) -> fmt::Result {
        let mut out = f.debug_map();
        for (key, value) in self.iter() {
            out.entry(key, value);
        }
        out.finish()
    }
}

// The place of a key among the first of these, and whether it is new: a new key goes last, and the keys are no longer shared.
// Where memory is refused all stays as it was.
fn add_key(keys: &mut Rc<Keys>, count: usize, key: String) -> Result<(usize, bool), AllocError>
    requires { count ≤ length keys.old.value }
    ensures added { IfOk result (λ r. IsKeyAdded (string_bytes key) (take count (texts keys.old.value)) (texts keys.new.value) r) }
    ensures err { OnErr result (keys.new.value ≡ keys.old.value) }
{
    if Rc::as_ref(keys).as_slice().len() == count {
        if let Some(own) = Rc::get_mut(keys) {
            return own.insert_full(key);
        }
    }
    let mut own = Rc::as_ref(keys).first(count)?;
    let added = own.insert_full(key)?;
    *keys = Rc::new(own.alloc(), own)?;
    Ok(added)
}

// The first of these keys, handed over.
fn into_first(keys: Rc<Keys>, count: usize) -> Result<Vec<String>, AllocError>
    requires { count ≤ length keys.value }
    ensures { IfOk result (λ made. texts made.items ≡ take count (texts keys.value)) }
{
    match Rc::try_unwrap(keys) {
        Ok(own) => {
            let mut made = own.into_names();
            made.truncate(count);
            Ok(made)
        }
        Err(shared) => Ok(shared.as_ref().first(count)?.into_names()),
    }
}

// Puts a value at a place, and hands back the old one.
fn put_at<V>(values: &mut Vec<V>, place: usize, value: V) -> V
    requires { place < length values.old.items }
    ensures old { slice_get values.old.items place ≡ Some result }
    ensures new { values.new.items ≡ slice_set values.old.items place value }
{
    mem::replace(&mut values[place], value)
}
