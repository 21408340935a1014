//! LoneAnonymousOperation: an operation without name is the only one (section 5.2.2.1 of the Specification).

ghost use Rattle.std.specs.Prelude.{◌≡◌, length, map};
ghost use Rattle.graphql_spec.specs.Documents as documents;
ghost use Rattle.graphql_spec.specs.Documents.{operations};
ghost use Rattle.graphql_spec.specs.Rules as rules;
ghost use Rattle.juniper_syntax.specs.DocumentView.{view_definition};

use juniper_syntax::{Definition, ScalarValue};

/// Whether a definition is an operation without name beside another operation, in a document of so many operations.
pub fn is_not_alone<S: ScalarValue>(definition: &Definition<'_, S>, operation_count: usize) -> bool
    ensures { (d : documents.Document) → operation_count ≡ length (operations d) → result ≡ rules.is_not_alone d (view_definition S.shown definition.now) }
{
    match definition {
        Definition::Operation(operation) => operation.item.name.is_none() && operation_count > 1,
        Definition::Fragment(_) => false,
    }
}

/// How many of the definitions are operations.
pub fn count_operations<S: ScalarValue>(definitions: &[Definition<'_, S>]) -> usize
    ensures { result ≡ length (operations (map (view_definition S.shown) definitions.now)) }
{
    let mut count: usize = 0;
    for definition in definitions {
        match definition {
            Definition::Operation(_) => {
                count += 1;
            }
            Definition::Fragment(_) => {}
        }
    }
    count
}
