//! Where keys stand: an ordered index by numbers of them, and by themselves where two have one number.

ghost use Rattle.std.specs.Prelude.{◌≡◌, ◌++◌, ◌∷◌, [], ◌<◌, IfOk, OnOk, OnErr, false, length, string_bytes};
ghost use Rattle.std.specs.BTreeMap.{get_by_text};
ghost use Rattle.std.specs.List.{IsDistinct, list_any};
ghost use Rattle.std.specs.String.{string_eq};
ghost use Rattle.juniper_syntax.specs.FieldWords.{is_key};
ghost use Rattle.juniper_syntax.specs.Indexes.{Shows, place_in, stands_at};
ghost use Rattle.juniper_syntax.specs.NameNumbers.{name_number};

use std::alloc::{AllocError, Global};
use std::collections::BTreeMap;

/// Where each of some keys stands.
#[derive(Drop)]
pub(crate) struct Places {
    /// The first key of each number.
    pub(crate) by_number: BTreeMap<u64, usize>,
    /// The keys of whose number another came before.
    pub(crate) tied: BTreeMap<String, usize>,
}

impl Places {
    /// An index of nothing.
    pub(crate) fn new(alloc: Global) -> Places
        ensures number { result.by_number.entries ≡ [] }
        ensures tied { result.tied.entries ≡ [] }
    {
        Places {
            by_number: BTreeMap::new(alloc),
            tied: BTreeMap::new(alloc),
        }
    }

    /// The place of a key among those that the index is of.
    pub(crate) fn get(&self, names: &[String], key: &str) -> Option<usize>
        ensures { result ≡ place_in self.now names.now key.now }
    {
        match self.by_number.get(&name_number(key)) {
            Some(place) => {
                if is_at(names, *place, key) {
                    Some(*place)
                } else {
                    self.tied_place(key)
                }
            }
            None => self.tied_place(key),
        }
    }

    // The place of a key whose number another came before.
    fn tied_place(&self, key: &str) -> Option<usize>
        ensures { result ≡ get_by_text self.now.tied key.now }
    {
        Some(*self.tied.get(key)?)
    }

    /// Puts in a further key, which is to stand behind the others. Where memory is refused the index stays one of the others.
    pub(crate) fn put(&mut self, alloc: Global, key: &str, place: usize) -> Result<(), AllocError>
        ensures ok { OnOk result ((names : _) (last : _) → length names ≡ place → string_bytes last ≡ key.now →
            list_any (is_key key.now) names ≡ false → Shows self.old names → Shows self.new (names ++ last ∷ [])) }
        ensures err { OnErr result ((names : _) → Shows self.old names → Shows self.new names) }
    {
        let number = name_number(key);
        if self.by_number.contains_key(&number) {
            self.tied.insert(String::from_str(alloc, key)?, place)?;
        } else {
            self.by_number.insert(number, place)?;
        }
        Ok(())
    }
}

/// The index of these keys; an error where memory is refused.
pub(crate) fn places_of(alloc: Global, names: &[String]) -> Result<Places, AllocError>
    requires { IsDistinct string_eq names.now }
    ensures { IfOk result (λ places. Shows places names.now) }
{
    let mut places = Places::new(alloc);
    for place in 0..names.len() {
        places.put(alloc, names[place].as_str(), place)?;
    }
    Ok(places)
}

/// Whether the key stands at the place.
#[inline(always)]
pub(crate) fn is_at(names: &[String], place: usize, key: &str) -> bool
    ensures { result ≡ stands_at names.now place key.now }
{
    place < names.len() && names[place].as_str() == key
}

/// A number of a name: equal names have equal numbers, and others have others, but for chance or choice.
pub fn name_number(name: &str) -> u64
    ensures { result ≡ name_number name.now }
{
    let mut number: u64 = 0;
    for byte in name.as_bytes() {
        number = number
            .wrapping_mul(1_099_511_628_211)
            .wrapping_add(u64::from(*byte));
    }
    number
}
