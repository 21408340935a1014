//! Sets of fields, made of fields and of other sets.

ghost use Rattle.std.specs.Prelude.{◌≡◌, ◌++◌, ◌∷◌, IfOk, List, OnOk, Some, false, true, ℕ, []};
ghost use Rattle.juniper_merging.specs.Sets.{IsInside, IsPut, IsSetOf, IsTable};
ghost use Rattle.juniper_merging.specs.Tables.{set_at, table_of};

use std::alloc::{AllocError, Global};

/// A set of fields.
#[derive(Drop)]
pub struct FieldSet {
    /// Its own fields, by the numbers of their vertices.
    pub fields: Vec<usize>,
    /// The sets whose fields it has beside these, by their numbers: they were made before it.
    pub parts: Vec<usize>,
}

/// Whether these are no numbers.
pub(crate) fn is_empty(numbers: &[usize]) -> bool
    ensures none { result ≡ true → numbers.now ≡ [] }
    ensures some { result ≡ false → numbers.now ≡ [] → ⊥ }
{
    numbers.is_empty()
}

/// What a selection set holds, while it is gathered: fields, and sets of fragments in it.
#[derive(Drop)]
pub struct Gathering {
    fields: Vec<usize>,
    parts: Vec<usize>,
}

impl Gathering {
    /// Nothing.
    pub fn new(alloc: Global) -> Self
        ensures { (t : List (List ℕ)) → IsSetOf t result [] }
    {
        Gathering {
            fields: Vec::new(alloc),
            parts: Vec::new(alloc),
        }
    }

    /// Adds a field. An error where memory is refused.
    pub fn push(&mut self, field: usize) -> Result<(), AllocError>
        ensures { OnOk result ((t : List (List ℕ)) (all : List ℕ) → IsSetOf t self.old all → IsSetOf t self.new (all ++ field ∷ [])) }
    {
        self.fields.push(field)?;
        Ok(())
    }

    /// Adds the fields of a set. An error where memory is refused.
    pub fn put(&mut self, set: usize) -> Result<(), AllocError>
        ensures { OnOk result ((t : List (List ℕ)) (all : List ℕ) → IsInside t set → IsSetOf t self.old all → IsSetOf t self.new (all ++ set_at t set)) }
    {
        self.parts.push(set)?;
        Ok(())
    }

    /// Makes a set of all of this, behind those that were made, and gives its number. An error where memory is refused.
    pub fn put_into(self, sets: &mut Vec<FieldSet>) -> Result<usize, AllocError>
        ensures { IfOk result (λ i. IsTable sets.old.items → (all : List ℕ) → IsSetOf (table_of sets.old.items) self all →
            IsPut sets.old.items sets.new.items all i) }
    {
        let number = sets.len();
        sets.push(FieldSet {
            fields: self.fields,
            parts: self.parts,
        })?;
        Ok(number)
    }
}
