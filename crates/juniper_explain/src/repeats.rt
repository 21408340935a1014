//! UniqueVariableNames and UniqueArgumentNames (sections 5.8.1 and 5.4.2 of the Specification).

ghost use Rattle.std.specs.Prelude.{◌≡◌, IfOk, OnOk, cond, false, map, true};
ghost use Rattle.std.specs.List.{flat_map};
ghost use Rattle.std.specs.Str.{bytes_eq};
ghost use Rattle.graphql_spec.specs.Documents.{written};
ghost use Rattle.graphql_spec.specs.Shown.{Name};
ghost use Rattle.juniper_syntax.specs.DocumentView.{view_arguments, view_variable, view_word};
ghost use Rattle.juniper_written.specs.WrittenView.{has_name, view_list};
ghost use Rattle.juniper_explain.specs.Adding.{Adds};
ghost use Rattle.juniper_explain.specs.Explanations.{named};
ghost use Rattle.juniper_explain.specs.Nodes.{repeated, repeated_in, repeated_of};
ghost use Rattle.juniper_explain.specs.Words.{view_words};

use crate::explanation::{Explanation, Wording, add_named};
use crate::rule::Rule;
use juniper_syntax::ast::Arguments;
use juniper_syntax::{DefinedVariable, ScalarValue, Span, Spanning};
use juniper_written::NameSet;
use std::alloc::{AllocError, Global};

/// What is said of a variable.
const REPEATED_VARIABLE: Wording<'static> = Wording {
    rule: Rule::UniqueVariableNames,
    before: "Variable name `$",
    after: "` is not unique",
};

/// What is said of an argument.
const REPEATED_ARGUMENT: Wording<'static> = Wording {
    rule: Rule::UniqueArgumentNames,
    before: "Argument name `",
    after: "` is not unique",
};

/// Explains the variables that have the name of an earlier one.
#[tactic(auto, unfolding(crate::specs::Nodes::repeated_of))]
pub(crate) fn explain_repeated_variables<'a, S: ScalarValue>(
    alloc: Global,
    variables: &[DefinedVariable<'a, S>],
    explanations: &mut Vec<Explanation>,
) -> Result<(), AllocError>
    ensures { OnOk result (Adds explanations.old.items explanations.new.items (repeated_of (map (view_variable S.shown) variables.now))) }
{
    let words = variable_words(alloc, variables)?;
    explain_repeated(alloc, &words, &REPEATED_VARIABLE, explanations)
}

/// The names of variables.
fn variable_words<'a, S: ScalarValue>(
    alloc: Global,
    variables: &[DefinedVariable<'a, S>],
) -> Result<Vec<Spanning<&'a str, Span>>, AllocError>
    ensures { IfOk result (λ ws. view_words ws.items ≡ map (λ v. v.name) (map (view_variable S.shown) variables.now)) }
{
    let mut words = Vec::with_capacity(alloc, variables.len())?;
    for variable in variables {
        words.push(variable.0)?;
    }
    Ok(words)
}

/// Explains the arguments that have the name of an earlier one of the same field or directive.
pub(crate) fn explain_repeated_arguments<'d, 'a, S: ScalarValue>(
    alloc: Global,
    lists: &Vec<&'d Option<Spanning<Arguments<'a, S>, Span>>>,
    explanations: &mut Vec<Explanation>,
) -> Result<(), AllocError>
    ensures { OnOk result (Adds explanations.old.items explanations.new.items (flat_map repeated_in (view_list S.shown lists.now.items))) }
{
    for index in 0..lists.len() {
        let given = lists[index];
        explain_repeated_in(alloc, given, explanations)?;
    }
    Ok(())
}

/// Explains those of one field or directive.
#[tactic(auto, unfolding(crate::specs::Nodes::repeated_in))]
fn explain_repeated_in<'a, S: ScalarValue>(
    alloc: Global,
    given: &Option<Spanning<Arguments<'a, S>, Span>>,
    explanations: &mut Vec<Explanation>,
) -> Result<(), AllocError>
    ensures { OnOk result (Adds explanations.old.items explanations.new.items (repeated_in (written (view_arguments S.shown given.now)))) }
{
    let words = argument_words(alloc, given)?;
    explain_repeated(alloc, &words, &REPEATED_ARGUMENT, explanations)
}

/// The names of arguments.
fn argument_words<'a, S: ScalarValue>(
    alloc: Global,
    given: &Option<Spanning<Arguments<'a, S>, Span>>,
) -> Result<Vec<Spanning<&'a str, Span>>, AllocError>
    ensures { IfOk result (λ ws. view_words ws.items ≡ map (λ a. a.name) (written (view_arguments S.shown given.now))) }
{
    let mut words = Vec::new(alloc);
    match given {
        Some(arguments) => {
            for argument in &arguments.item.items {
                words.push(argument.0)?;
            }
            Ok(words)
        }
        None => Ok(words),
    }
}

/// Explains the names that stand earlier in the list; the time grows with their number.
pub(crate) fn explain_repeated<'a>(
    alloc: Global,
    words: &Vec<Spanning<&'a str, Span>>,
    wording: &Wording<'_>,
    explanations: &mut Vec<Explanation>,
) -> Result<(), AllocError>
    ensures { OnOk result (Adds explanations.old.items explanations.new.items
        (repeated wording.now.rule wording.now.before.now wording.now.after.now (λ n. false) (view_words words.now.items))) }
{
    let mut seen = NameSet::new(alloc);
    for index in 0..words.len() {
        let word = words[index];
        explain_repeat(alloc, &mut seen, &word, wording, explanations)?;
    }
    Ok(())
}

/// Explains a name that was seen before; afterwards it was.
fn explain_repeat<'a>(
    alloc: Global,
    seen: &mut NameSet<'a>,
    word: &Spanning<&'a str, Span>,
    wording: &Wording<'_>,
    explanations: &mut Vec<Explanation>,
) -> Result<(), AllocError>
    ensures seen { OnOk result ((n : Name) → has_name seen.new n ≡ cond (bytes_eq (view_word word.now).item n) true (has_name seen.old n)) }
    ensures told { OnOk result (Adds explanations.old.items explanations.new.items
        (named (has_name seen.old (view_word word.now).item) wording.now.rule (view_word word.now) wording.now.before.now wording.now.after.now)) }
{
    let is_new = seen.insert(word.item)?;
    add_named(alloc, explanations, !is_new, word, wording)
}
