//! Laws of IDs. Each function does nothing; its contract is the law.

ghost use Rattle.std.specs.Prelude.{◌≡◌, true};
ghost use Rattle.juniper_conversions.specs.IdText.{id_text};

use crate::ID;

/// IDs are equal exactly where their texts are (3.5.5).
pub fn equal_ids_have_one_text(a: &ID, b: &ID)
    ensures equal { ⟦<ID as PartialEq>⟧.eq a.now b.now ≡ true → id_text a.now ≡ id_text b.now }
    ensures same { id_text a.now ≡ id_text b.now → ⟦<ID as PartialEq>⟧.eq a.now b.now ≡ true }
{}
