//! What the program answers to the words that it is given.

ghost use Rattle.std.specs.Prelude.{◌≡◌, IfOk, MatchResult, codes, map, option_map, string_bytes};
ghost use Rattle.juniper_syntax.specs.InputView.{view_variables};
ghost use Rattle.juniper_syntax.specs.Scalars.{default_shown};
ghost use Rattle.juniper_json.specs.Given.{variables_by};
ghost use Rattle.juniper_demo_server.specs.Answers.{IsAnswerGiven, IsAnswerTo, IsAnswerWith, IsRefusal, IsUsage, MayBeLeftBy, MayLeave, MayLeaveGiven, name_in};
ghost use Rattle.juniper_demo_server.specs.Answers.{no_values, variables_text};

use crate::demo::DemoContext;
use crate::outcome::{Answer, show};
use crate::schema::demo_root;
use juniper::{DefaultScalarValue, Variables, execute_sync};
use juniper_json::{VariablesError, read_variables};
use std::alloc::{AllocError, Global};

/// What the program answers to its words: the text of a request to the demo, the name of an operation, where an empty one
/// means none, and the values of variables as a JSON object. The last one or two may be left out, and any other number of
/// words gets the usage. An error where memory is refused.
pub fn answer(
    alloc: Global,
    words: &[String],
    context: &mut DemoContext,
) -> Result<Answer, AllocError>
    ensures { MatchResult result
        (λ a. IsAnswerTo (map (λ w. string_bytes w) words.now) context.old a context.new)
        (λ _. MayBeLeftBy (map (λ w. string_bytes w) words.now) context.old context.new) }
{
    match words {
        [] => usage(alloc),
        [text] => answer_without(alloc, text.as_str(), "", context),
        [text, name] => answer_without(alloc, text.as_str(), name.as_str(), context),
        [text, name, given] => {
            answer_given(alloc, text.as_str(), name.as_str(), given.as_str(), context)
        }
        [_, _, _, _, ..] => usage(alloc),
    }
}

/// Any other number of words gets this.
fn usage(alloc: Global) -> Result<Answer, AllocError>
    ensures { IfOk result IsUsage }
{
    refuse(alloc, "usage: juniper_demo TEXT [NAME] [VARIABLES]")
}

/// What the program answers to a request without values of variables.
fn answer_without(
    alloc: Global,
    text: &str,
    name: &str,
    context: &mut DemoContext,
) -> Result<Answer, AllocError>
    ensures { MatchResult result
        (λ a. IsAnswerWith text.now (name_in name.now) no_values context.old a context.new)
        (λ _. MayLeave text.now (name_in name.now) no_values context.old context.new) }
{
    let variables = no_variables(alloc);
    answer_with(alloc, text, name, &variables, context)
}

/// What the program answers to a request with a JSON object of values of variables.
fn answer_given(
    alloc: Global,
    text: &str,
    name: &str,
    given: &str,
    context: &mut DemoContext,
) -> Result<Answer, AllocError>
    ensures { MatchResult result
        (λ a. IsAnswerGiven text.now (name_in name.now) (variables_by given.now) context.old a context.new)
        (λ _. MayLeaveGiven text.now (name_in name.now) (variables_by given.now) context.old context.new) }
{
    match read_variables(alloc, given) {
        Err(error) => Err(error),
        Ok(Ok(variables)) => answer_with(alloc, text, name, &variables, context),
        Ok(Err(error)) => refuse(alloc, line_of(error)),
    }
}

/// What the program answers to a request with these values of variables.
fn answer_with(
    alloc: Global,
    text: &str,
    name: &str,
    variables: &Variables<DefaultScalarValue>,
    context: &mut DemoContext,
) -> Result<Answer, AllocError>
    ensures { MatchResult result
        (λ a. IsAnswerWith text.now (name_in name.now) (view_variables default_shown variables.now) context.old a context.new)
        (λ _. MayLeave text.now (name_in name.now) (view_variables default_shown variables.now) context.old context.new) }
{
    let root = match demo_root(alloc) {
        Err(_) => return Err(AllocError),
        Ok(root) => root,
    };
    let name = operation_name(name);
    let outcome = execute_sync(alloc, text, name, &root, variables, context);
    match show(alloc, &outcome) {
        Err(error) => Err(error),
        Ok(answer) => Ok(answer),
    }
}

/// The name of an operation; an empty word is none.
fn operation_name(word: &str) -> Option<&str>
    ensures { option_map (λ n. n.now) result ≡ name_in word.now }
{
    if word.is_empty() { None } else { Some(word) }
}

/// The values of no variables.
fn no_variables(alloc: Global) -> Variables<DefaultScalarValue>
    ensures { view_variables default_shown result ≡ no_values }
{
    Variables::new(alloc)
}

/// Words that are not understood: this line, and status 2.
fn refuse(alloc: Global, line: &str) -> Result<Answer, AllocError>
    ensures { IfOk result (IsRefusal line.now) }
{
    Ok(Answer {
        status: 2,
        line: String::from_str(alloc, line)?,
    })
}

/// The line for a text that gives no values of variables.
fn line_of(error: VariablesError) -> &'static str
    ensures { result.now ≡ variables_text error }
{
    match error {
        VariablesError::NotAnObject => "variables: not a JSON object",
        VariablesError::Float => "variables: float",
        VariablesError::OutOfRange => "variables: number out of range",
    }
}
