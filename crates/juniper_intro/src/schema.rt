//! The schema of a root (section 3.3 of the Specification).

ghost use Rattle.std.specs.Prelude.{◌≡◌, IfOk, Some, option_map, string_bytes};
ghost use Rattle.juniper_registry.specs.RegistryView.{view_registry};
ghost use Rattle.juniper_schema.specs.SchemaView.{view_schema};
ghost use Rattle.juniper_intro.specs.Roots.{IsSchemaOf, Makes, mutation_type};

use crate::error::RootError;
use juniper_registry::Registry;
use juniper_schema::{SchemaType, schema_is_executable};
use juniper_syntax::ScalarValue;
use std::alloc::{AllocError, Global};

/// The schema of a registry's types under the names of the root types, if it can be executed.
///
/// Errors: `NotExecutable` exactly where it cannot be, or where a root type has no name; `Memory` where memory is refused.
pub(crate) fn executable_schema<S: ScalarValue>(
    alloc: Global,
    registry: Registry<S>,
    query_name: Option<&str>,
    mutation_name: Option<&str>,
) -> Result<SchemaType<S>, RootError>
    ensures { Makes (view_schema S.shown) (view_registry S.shown registry) (option_map (λ n. n.now) query_name.entry)
        (option_map (λ n. n.now) mutation_name.entry) result }
{
    let Some(query_name) = query_name else {
        return Err(RootError::NotExecutable);
    };
    let Some(mutation_name) = mutation_name else {
        return Err(RootError::NotExecutable);
    };
    let schema = match schema_of(alloc, registry, query_name, mutation_name) {
        Ok(schema) => schema,
        Err(_) => return Err(RootError::Memory),
    };
    if schema_is_executable(&schema) {
        Ok(schema)
    } else {
        Err(RootError::NotExecutable)
    }
}

/// The schema of a registry's types under these names of the root types.
fn schema_of<S: ScalarValue>(
    alloc: Global,
    registry: Registry<S>,
    query_name: &str,
    mutation_name: &str,
) -> Result<SchemaType<S>, AllocError>
    ensures { IfOk result (λ s. IsSchemaOf (view_registry S.shown registry) (Some query_name.now) (Some mutation_name.now) (view_schema S.shown s)) }
{
    let query = String::from_str(alloc, query_name)?;
    let mutation = mutation_type(alloc, mutation_name)?;
    let schema = SchemaType::new(alloc, registry.into_types(), query, mutation)?;
    Ok(schema)
}

/// The mutation type of this name: there is none, where the name is that of no mutation.
fn mutation_type(alloc: Global, name: &str) -> Result<Option<String>, AllocError>
    ensures { IfOk result (λ t. option_map (λ n. string_bytes n) t ≡ mutation_type name.now) }
{
    if name == "_EmptyMutation" {
        return Ok(None);
    }
    Ok(Some(String::from_str(alloc, name)?))
}
