//! The variables that an operation defines, by name (section 2.10 of the Specification).

ghost use Rattle.std.specs.Prelude.{◌≡◌, ◌∷◌, [], IfOk, OnOk};
ghost use Rattle.std.specs.Option.{option_or};
ghost use Rattle.graphql_spec.specs.Shown.{Name};
ghost use Rattle.graphql_spec.specs.VariableUses.{definition_of};
ghost use Rattle.juniper_syntax.specs.DocumentView.{view_variable};
ghost use Rattle.juniper_written.specs.WrittenView.{view_variables};
ghost use Rattle.juniper_type_rules.specs.UsesView.{definition_at};

use juniper_syntax::ast::VariableDefinition;
use juniper_syntax::{DefinedVariable, ScalarValue, Span, Spanning, VariableDefinitions};
use juniper_written::NameMap;
use std::alloc::{AllocError, Global};

/// The variables by name.
pub(crate) type VariablesByName<'d, 'a, S> = NameMap<'a, &'d DefinedVariable<'a, S>>;

/// The variables by name, of those of one name the first. An error where memory is refused.
pub(crate) fn variables_by_name<'d, 'a, S: ScalarValue>(
    alloc: Global,
    variables: &'d Option<Spanning<VariableDefinitions<'a, S>, Span>>,
) -> Result<VariablesByName<'d, 'a, S>, AllocError>
    ensures { IfOk result (λ r. (n : Name) → definition_at S.shown r n ≡ definition_of (view_variables S.shown variables.now) n) }
{
    let mut first = NameMap::new(alloc);
    match variables {
        Some(variables) => {
            for variable in &variables.item.items {
                put_variable(variable, &mut first)?;
            }
            Ok(first)
        }
        None => Ok(first),
    }
}

/// Puts a variable in, where none of its name is there.
fn put_variable<'d, 'a, S: ScalarValue>(
    variable: &'d DefinedVariable<'a, S>,
    first: &mut VariablesByName<'d, 'a, S>,
) -> Result<(), AllocError>
    ensures { OnOk result ((n : Name) → definition_at S.shown first.new n
        ≡ option_or (definition_at S.shown first.old n) (definition_of (view_variable S.shown variable.now ∷ []) n)) }
{
    first.put_first(variable.0.item, variable)
}
