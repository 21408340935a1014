//! NoUndefinedVariables (section 5.8.3 of the Specification).

ghost use Rattle.std.specs.Prelude.{◌≡◌, ◌++◌, IfOk, OnOk, codes, map, option_map, string_bytes};
ghost use Rattle.std.specs.List.{flat_map, list_any};
ghost use Rattle.std.specs.Option.{is_none};
ghost use Rattle.std.specs.Str.{bytes_eq};
ghost use Rattle.graphql_spec.specs.Documents as documents;
ghost use Rattle.graphql_spec.specs.Documents.{word_name};
ghost use Rattle.graphql_spec.specs.Schema.{Schema};
ghost use Rattle.graphql_spec.specs.VariableUses as variable_uses;
ghost use Rattle.juniper_syntax.specs.DocumentView.{view_operation, view_variable, view_word};
ghost use Rattle.juniper_type_rules.specs.Variables.{words_given};
ghost use Rattle.juniper_explain.specs.Adding.{Adds, WherePlaced};
ghost use Rattle.juniper_explain.specs.Explanations.{named};
ghost use Rattle.juniper_explain.specs.Nodes.{undefined_name, undefined_text, undefined_variables, where_found};
ghost use Rattle.juniper_explain.specs.Parts.{view_each};
ghost use Rattle.juniper_explain.specs.Words.{view_words};

use crate::explanation::{Explanation, Wording, add_named};
use crate::parts::parts_of;
use crate::rule::Rule;
use crate::variables::listed;
use juniper_rules::ListedOnTypes;
use juniper_syntax::{DefinedVariable, Definition, Operation, ScalarValue, Span, Spanning};
use juniper_type_rules::words_in_lists;
use juniper_written::FragmentsByName;
use std::alloc::{AllocError, Global};

/// Explains the variables that a definition of a document, with these fragments, uses and does not define, in itself or in
/// fragments that it reaches, where it violates the rule.
#[tactic(auto, unfolding(crate::specs::Nodes::where_found))]
pub(crate) fn explain_undefined<'p, 'l, 'd, 'a, S: ScalarValue>(
    alloc: Global,
    document: &'p [ListedOnTypes<'l, 'd, 'a, S>],
    fragments: &FragmentsByName<'d, 'a, S>,
    one: &'p ListedOnTypes<'l, 'd, 'a, S>,
    is_violated: bool,
    explanations: &mut Vec<Explanation>,
) -> Result<(), AllocError>
    ensures { OnOk result ((s : Schema) (d : documents.Document) → WherePlaced S.shown s document.now fragments.now one.now d (λ x.
        Adds explanations.old.items explanations.new.items (where_found is_violated (undefined_variables d x)))) }
{
    if is_violated {
        explain_all(alloc, document, fragments, one, explanations)
    } else {
        Ok(())
    }
}

/// Explains those of a definition: of an operation all, and of a fragment none.
fn explain_all<'p, 'l, 'd, 'a, S: ScalarValue>(
    alloc: Global,
    document: &'p [ListedOnTypes<'l, 'd, 'a, S>],
    fragments: &FragmentsByName<'d, 'a, S>,
    one: &'p ListedOnTypes<'l, 'd, 'a, S>,
    explanations: &mut Vec<Explanation>,
) -> Result<(), AllocError>
    ensures { OnOk result ((s : Schema) (d : documents.Document) → WherePlaced S.shown s document.now fragments.now one.now d (λ x.
        Adds explanations.old.items explanations.new.items (undefined_variables d x))) }
{
    let listed = one.listed;
    match listed.definition {
        Definition::Operation(operation) => {
            let parts = parts_of(alloc, document, fragments, one)?;
            explain_parts(alloc, operation, &parts, explanations)
        }
        Definition::Fragment(_) => Ok(()),
    }
}

/// Explains the variables in the arguments of some definitions, of which this is listed, that the operation does not define.
fn explain_parts<'a, S: ScalarValue>(
    alloc: Global,
    operation: &Spanning<Operation<'a, S>, Span>,
    parts: &Vec<&ListedOnTypes<'_, '_, 'a, S>>,
    explanations: &mut Vec<Explanation>,
) -> Result<(), AllocError>
    ensures { OnOk result (Adds explanations.old.items explanations.new.items
        (flat_map (λ l. flat_map (undefined_name (view_operation S.shown operation.now)) (flat_map (flat_map words_given) l.listing.arguments))
        (view_each S.shown parts.now.items))) }
{
    let variables = listed(&operation.item.variable_definitions);
    let after = undefined_text(alloc, &operation.item.name)?;
    let wording = Wording {
        rule: Rule::NoUndefinedVariables,
        before: "Variable `$",
        after: after.as_str(),
    };
    for index in 0..parts.len() {
        let part = parts[index];
        let listed = part.listed;
        let words = words_in_lists(alloc, &listed.arguments)?;
        explain_words(alloc, variables, &words, &wording, explanations)?;
    }
    Ok(())
}

/// Explains those of the names that none of the variables has.
fn explain_words<'a, S: ScalarValue>(
    alloc: Global,
    variables: &[DefinedVariable<'a, S>],
    words: &Vec<Spanning<&str, Span>>,
    wording: &Wording<'_>,
    explanations: &mut Vec<Explanation>,
) -> Result<(), AllocError>
    ensures { OnOk result (Adds explanations.old.items explanations.new.items
        (flat_map (λ w. named (is_none (variable_uses.definition_of (map (view_variable S.shown) variables.now) w.item))
        wording.now.rule w wording.now.before.now wording.now.after.now) (view_words words.now.items))) }
{
    for index in 0..words.len() {
        let word = words[index];
        explain_name(alloc, variables, &word, wording, explanations)?;
    }
    Ok(())
}

/// What is said behind the name of a variable that the operation of this name does not define.
#[tactic(auto, unfolding(crate::specs::Nodes::undefined_text, graphql_spec::specs::Documents::word_name))]
fn undefined_text(
    alloc: Global,
    operation: &Option<Spanning<&str, Span>>,
) -> Result<String, AllocError>
    ensures { IfOk result (λ t. string_bytes t ≡ undefined_text (word_name (option_map view_word operation.now))) }
{
    match operation {
        Some(word) => by_operation(alloc, word.item),
        None => String::from_str(alloc, "` is not defined"),
    }
}

/// What is said of an operation with a name.
fn by_operation(alloc: Global, name: &str) -> Result<String, AllocError>
    ensures { IfOk result (λ t. string_bytes t ≡ codes "` is not defined by operation `" ++ (name.now ++ codes "`")) }
{
    format!(in alloc; "` is not defined by operation `{name}`")
}

/// Explains the name of a variable, where none of these has it.
fn explain_name<'a, S: ScalarValue>(
    alloc: Global,
    variables: &[DefinedVariable<'a, S>],
    word: &Spanning<&str, Span>,
    wording: &Wording<'_>,
    explanations: &mut Vec<Explanation>,
) -> Result<(), AllocError>
    ensures { OnOk result (Adds explanations.old.items explanations.new.items
        (named (is_none (variable_uses.definition_of (map (view_variable S.shown) variables.now) (view_word word.now).item))
        wording.now.rule (view_word word.now) wording.now.before.now wording.now.after.now)) }
{
    let is_undefined = is_undefined(variables, word.item);
    add_named(alloc, explanations, is_undefined, word, wording)
}

/// Whether none of the variables has this name.
fn is_undefined<'a, S: ScalarValue>(variables: &[DefinedVariable<'a, S>], name: &str) -> bool
    ensures { result ≡ is_none (variable_uses.definition_of (map (view_variable S.shown) variables.now) name.now) }
{
    !defines(variables, name)
}

/// Whether one of the variables has this name.
fn defines<'a, S: ScalarValue>(variables: &[DefinedVariable<'a, S>], name: &str) -> bool
    ensures { result ≡ list_any (λ v. bytes_eq name.now v.name.item) (map (view_variable S.shown) variables.now) }
{
    for variable in variables {
        if name == variable.0.item {
            return true;
        }
    }
    false
}
