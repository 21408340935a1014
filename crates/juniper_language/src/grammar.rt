//! Laws of the grammar (section 2 of the Specification). Each function does nothing; its contract is the law.

ghost use Rattle.std.specs.Prelude.{◌≡◌, ℕ, List};
ghost use Rattle.graphql_spec.specs.Documents.{Document};
ghost use Rattle.graphql_spec.specs.Grammar.{Spells};

/// A text spells at most one document.
pub fn spells_at_most_one_document()
    ensures { (bytes : List ℕ) (d e : Document) → Spells bytes d → Spells bytes e → d ≡ e }
{}
