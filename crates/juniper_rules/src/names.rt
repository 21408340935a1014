//! The first phase: names, on which the other rules stand.

ghost use Rattle.std.specs.Prelude.{◌≡◌, Bool, IfOk, List, OnOk, map};
ghost use Rattle.graphql_spec.specs.Documents as documents;
ghost use Rattle.graphql_spec.specs.Rules as rules;
ghost use Rattle.juniper_schema.specs.SchemaView.{view_schema};
ghost use Rattle.juniper_written.specs.SpreadsView.{AreFragmentsOf};
ghost use Rattle.juniper_syntax.specs.DocumentView.{view_definition};
ghost use Rattle.juniper_rules.specs.Listing.{IsListed, definition_of};
ghost use Rattle.juniper_rules.specs.Finding.{AreNameErrors, ReportsNames, WhereBehind, WhereListed};

use crate::lists::Listed;
use crate::report::report;
use juniper_schema::SchemaType;
use juniper_syntax::{Definition, RuleError, ScalarValue};
use juniper_type_rules::has_unknown_type;
use juniper_written::{
    Earlier, FragmentsByName, count_operations, has_unknown_directive, is_not_alone,
    repeats_argument, repeats_input_field, repeats_variable,
};
use std::alloc::{AllocError, Global};

/// What the rules on names find in a document, of whose definitions this is listed, with these fragments: an error for each
/// rule that a definition violates, in the order of the definitions, and of the rules at each. An error where memory is
/// refused.
pub fn name_errors<'d, 'a, S: ScalarValue>(
    alloc: Global,
    schema: &SchemaType<S>,
    document: &[Definition<'a, S>],
    listed: &[Listed<'d, 'a, S>],
    fragments: &FragmentsByName<'d, 'a, S>,
) -> Result<Vec<RuleError>, AllocError>
    ensures { IfOk result (λ es. (disabled : Bool) → WhereListed S.shown listed.now fragments.now (map (view_definition S.shown) document.now)
        (AreNameErrors (view_schema S.shown schema.now) disabled (map (view_definition S.shown) document.now) es.items)) }
{
    let operation_count = count_operations(document);
    let mut errors = Vec::new(alloc);
    let mut earlier = Earlier::new(alloc);
    for one in listed {
        find_names(
            alloc,
            schema,
            fragments,
            operation_count,
            &earlier,
            one,
            &mut errors,
        )?;
        earlier.add(one.definition)?;
    }
    Ok(errors)
}

/// Adds what the rules on names find at a definition, of which this is listed, behind these earlier ones.
fn find_names<'d, 'a, S: ScalarValue>(
    alloc: Global,
    schema: &SchemaType<S>,
    fragments: &FragmentsByName<'d, 'a, S>,
    operation_count: usize,
    earlier: &Earlier<'a>,
    listed: &Listed<'d, 'a, S>,
    errors: &mut Vec<RuleError>,
) -> Result<(), AllocError>
    ensures { OnOk result ((disabled : Bool) (d : documents.Document) (ds : List documents.Definition) →
        WhereBehind S.shown fragments.now operation_count earlier.now d ds
        (ReportsNames S.shown (view_schema S.shown schema.now) disabled d ds listed.now errors.old.items errors.new.items)) }
{
    let definition = listed.definition;
    let inside = names_inside(alloc, schema, fragments, listed)?;
    let findings = [
        (
            earlier.repeats_operation(definition),
            "Operation name is not unique",
        ),
        (
            is_not_alone(definition, operation_count),
            "Anonymous operation is not alone",
        ),
        (
            earlier.repeats_fragment(definition),
            "Fragment name is not unique",
        ),
        (inside.spreads_unknown, "Unknown fragment"),
        (inside.spreads_itself, "Fragment spreads itself"),
        (inside.repeats_variable, "Variable name is not unique"),
        (inside.repeats_argument, "Argument name is not unique"),
        (inside.repeats_input_field, "Input field name is not unique"),
        (inside.has_unknown_directive, "Unknown directive"),
        (inside.has_unknown_type, "Unknown type"),
    ];
    report(alloc, errors, definition, &findings)
}

/// Which rules on names are violated by what is written inside a definition.
#[derive(Clone, Copy)]
struct NamesInside {
    spreads_unknown: bool,
    spreads_itself: bool,
    repeats_variable: bool,
    repeats_argument: bool,
    repeats_input_field: bool,
    has_unknown_directive: bool,
    has_unknown_type: bool,
}

/// Which rules on names are violated by what is written inside a definition, of which this is listed.
fn names_inside<'d, 'a, S: ScalarValue>(
    alloc: Global,
    schema: &SchemaType<S>,
    fragments: &FragmentsByName<'d, 'a, S>,
    listed: &Listed<'d, 'a, S>,
) -> Result<NamesInside, AllocError>
    ensures unknown { IfOk result (λ n. (d : documents.Document) → AreFragmentsOf S.shown fragments.now d → IsListed S.shown listed.now →
        n.spreads_unknown ≡ rules.spreads_unknown d (definition_of S.shown listed.now)) }
    ensures cycle { IfOk result (λ n. (d : documents.Document) → AreFragmentsOf S.shown fragments.now d → IsListed S.shown listed.now →
        n.spreads_itself ≡ rules.spreads_itself d (definition_of S.shown listed.now)) }
    ensures variable { IfOk result (λ n. n.repeats_variable ≡ rules.repeats_variable (definition_of S.shown listed.now)) }
    ensures argument { IfOk result (λ n. IsListed S.shown listed.now → n.repeats_argument ≡ rules.repeats_argument (definition_of S.shown listed.now)) }
    ensures field { IfOk result (λ n. IsListed S.shown listed.now → n.repeats_input_field ≡ rules.repeats_input_field (definition_of S.shown listed.now)) }
    ensures directive { IfOk result (λ n. IsListed S.shown listed.now →
        n.has_unknown_directive ≡ rules.has_unknown_directive (definition_of S.shown listed.now)) }
    ensures named { IfOk result (λ n. IsListed S.shown listed.now →
        n.has_unknown_type ≡ rules.has_unknown_type (view_schema S.shown schema.now) (definition_of S.shown listed.now)) }
{
    let definition = listed.definition;
    let written = &listed.written;
    let arguments = &listed.arguments;
    let repeats_variable = repeats_variable(alloc, definition)?;
    let spreads_itself = fragments.spreads_itself(alloc, definition, &written.spreads)?;
    let repeats_argument = repeats_argument(alloc, arguments)?;
    let repeats_input_field = repeats_input_field(alloc, definition, arguments)?;
    Ok(NamesInside {
        spreads_unknown: fragments.spreads_unknown(&written.spreads),
        spreads_itself,
        repeats_variable,
        repeats_argument,
        repeats_input_field,
        has_unknown_directive: has_unknown_directive(written),
        has_unknown_type: has_unknown_type(schema, written, definition),
    })
}
