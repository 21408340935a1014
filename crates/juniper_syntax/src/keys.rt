//! Keys of which no two are equal, in the order in which they came.
//!
//! A few are compared one by one. Beside many stands an index that is ordered by what they say, not by a hash, so that names which a
//! stranger chose take no longer than others.

ghost use Rattle.std.specs.Prelude.{◌≡◌, ◌++◌, ◌∷◌, [], ◌<◌, IfOk, IfSome, OnOk, OnErr, false, length, take, string_bytes};
ghost use Rattle.std.specs.List.{IsDistinct, list_any, position};
ghost use Rattle.std.specs.String.{string_eq};
ghost use Rattle.juniper_syntax.specs.FieldWords.{is_key, texts, IsKeyAdded};
ghost use Rattle.juniper_syntax.specs.Indexes.{AreSame, IsIndex};

use crate::places::{Places, places_of};
use std::alloc::{AllocError, Global};
use std::marker::Model;

/// From so many keys on an index is kept.
const MANY: usize = 16;

/// Keys of which no two are equal. It is seen as the list of them.
#[derive(Drop)]
pub(crate) struct Keys {
    alloc: Global,
    names: Vec<String>,
    /// Empty while there are few.
    places: Places,
}

impl Model for Keys {
    ghost use Rattle.std.specs.Prelude.{List, String};
    ghost use Rattle.std.specs.Global.{Global};
    ghost use Rattle.std.specs.List.{IsDistinct};
    ghost use Rattle.std.specs.String.{string_eq};
    ghost use Rattle.juniper_syntax.specs.FieldWords.{names_code};
    ghost use Rattle.juniper_syntax.specs.Indexes.{IsIndex};

    ghost Value = { List (String Global) };

    ghost coded = { names_code };

    ghost view = { λ k. k.names.items };

    ghost invariant = { λ k. IsDistinct string_eq k.names.items × IsIndex k.places k.names.items };
}

impl Keys {
    /// No keys, with room for so many; an error where memory is refused.
    pub(crate) fn with_capacity(alloc: Global, capacity: usize) -> Result<Keys, AllocError>
        ensures { IfOk result (λ keys. keys ≡ []) }
    {
        Ok(Keys {
            alloc,
            names: Vec::with_capacity(alloc, capacity)?,
            places: Places::new(alloc),
        })
    }

    /// What gives them memory.
    pub(crate) fn alloc(&self) -> Global {
        self.alloc
    }

    /// The keys, in order.
    pub(crate) fn as_slice(&self) -> &[String]
        ensures keys { result.now ≡ self.now }
        ensures unique { IsDistinct string_eq self.now }
    {
        self.names.as_slice()
    }

    /// The place of a key.
    pub(crate) fn get_index_of(&self, key: &str) -> Option<usize>
        ensures index { result ≡ position (is_key key.now) self.now }
        ensures within { IfSome result (λ place. place < length self.now) }
    {
        let names = self.names.as_slice();
        if self.places.by_number.is_empty() {
            place_among(names, key)
        } else {
            self.places.get(names, key)
        }
    }

    /// The place of a key, and whether it is new: a new key goes last. Where memory is refused all stays as it was.
    pub(crate) fn insert_full(&mut self, key: String) -> Result<(usize, bool), AllocError>
        ensures added { IfOk result (λ r. IsKeyAdded (string_bytes key) (texts self.old) (texts self.new) r) }
        ensures err { OnErr result (self.new ≡ self.old) }
    {
        if let Some(place) = self.get_index_of(key.as_str()) {
            return Ok((place, false));
        }
        let place = self.names.len();
        self.push(key)?;
        Ok((place, true))
    }

    // Puts a key last that is not there. Where memory is refused all stays as it was.
    fn push(&mut self, key: String) -> Result<(), AllocError>
        requires { list_any (string_eq key) self.old ≡ false }
        ensures ok { OnOk result (self.new ≡ self.old ++ key ∷ []) }
        ensures err { OnErr result (self.new ≡ self.old) }
    {
        self.names.reserve(1)?;
        add_place(
            self.alloc,
            &mut self.places,
            self.names.as_slice(),
            key.as_str(),
        )?;
        self.names.push_reserved(key);
        Ok(())
    }

    /// So many of the keys once more, from the first on; an error where memory is refused.
    pub(crate) fn first(&self, count: usize) -> Result<Keys, AllocError>
        ensures { IfOk result (λ made. AreSame (take count self.now) made) }
    {
        let mut names = self.names.clone()?;
        names.truncate(count);
        Ok(Keys {
            alloc: self.alloc,
            names,
            places: Places::new(self.alloc),
        })
    }

    /// The keys, handed over in order.
    pub(crate) fn into_names(self) -> Vec<String>
        ensures { result.items ≡ self }
    {
        self.names
    }
}

// The place of a key among these.
fn place_among(names: &[String], key: &str) -> Option<usize>
    ensures { result ≡ position (is_key key.now) names.now }
{
    names.iter().position(|name| name.as_str() == key)
}

// Puts a further key, which goes last, into the index, once there are many. Where memory is refused the index is still one of the others.
fn add_place(
    alloc: Global,
    places: &mut Places,
    names: &[String],
    key: &str,
) -> Result<(), AllocError>
    requires distinct { IsDistinct string_eq names.now }
    requires new { list_any (is_key key.now) names.now ≡ false }
    ensures ok { OnOk result ((last : _) → string_bytes last ≡ key.now → IsIndex places.old names.now → IsIndex places.new (names.now ++ last ∷ [])) }
    ensures err { OnErr result (IsIndex places.old names.now → IsIndex places.new names.now) }
{
    if places.by_number.is_empty() {
        if names.len() < MANY {
            return Ok(());
        }
        *places = places_of(alloc, names)?;
    }
    places.put(alloc, key, names.len())?;
    Ok(())
}
