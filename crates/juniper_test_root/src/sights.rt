//! What executors show at fields, in lines that tell it.
//!
//! A line tells one call of a resolver: the response key of the field, `: `, and what is shown there, which is one of these:
//! - what look-ahead shows: `NAME` or `ALIAS: NAME`, then `(NAME: VALUE, ..)` where arguments are written, ` on TYPE` where it applies for
//!   that type alone, and its children, if it has any, as ` { SELECTION .. }`;
//! - `for TYPE:CHILDREN`, the children for that type alone;
//! - `columns NAME ..`, the columns that are asked for;
//! - `names NAME ..`, the names of the children: the first, the last, and then the others from the front, until there is `none`;
//! - `child NAME:`, and the child of that response key, or `none`;
//! - `copy NAME, COUNT left`, what a copy of the children hands over last, and how many are left then;
//! - `occurrences SELECTION .. | SELECTION ..`, all occurrences of the field, from the front and then from the back;
//! - `place TYPE at LINE:COLUMN in KEY.POSITION.KEY`, the declared type of the field, where it starts, counted from 1, and the path of an
//!   error that is made there;
//! - `fragment NAME is there`, or `is not there`: whether a fragment has that name;
//! - `variable NAME is VALUE`, or `has no value`: the value of a variable;
//! - `at once COUNT`: for how many nodes the field is asked at once. Where lines tell that of a response key, calls for single nodes are left out.

use crate::columns::columns_asked_for;
use crate::script::Notes;
use juniper::{
    LookAheadArgument, LookAheadChildren, LookAheadSelection, LookAheadValue, PathSegment,
    ScalarValue, TypeType,
};
use juniper_conversions::error_of_message;
use juniper_types::Executor;
use std::alloc::{AllocError, Global};

/// So many selections, lists and objects stand within one another at most.
const LEVELS: usize = 9;

/// Notes what an executor shows at a field whose response key is told of: in the form of the line that tells this call, or, where there is
/// none, as look-ahead shows it. An error where memory is refused.
pub(crate) fn record<C, S: ScalarValue>(
    alloc: Global,
    notes: &Notes,
    executor: &Executor<C, S>,
) -> Result<(), AllocError> {
    let selection = executor.look_ahead();
    let key = selection.field_name();
    if count_lines(notes.sights.as_str(), key) == 0 || tells_batches(notes, key) {
        return Ok(());
    }
    match notes.seen.try_borrow_mut() {
        Ok(mut seen) => push_call(alloc, notes, executor, &mut seen),
        Err(_) => Ok(()),
    }
}

/// Adds a line for what an executor shows at a field.
fn push_call<C, S: ScalarValue>(
    alloc: Global,
    notes: &Notes,
    executor: &Executor<C, S>,
    seen: &mut String,
) -> Result<(), AllocError> {
    let selection = executor.look_ahead();
    let key = selection.field_name();
    let call = count_lines(seen.as_str(), key);
    let form = line_of(notes.sights.as_str(), key, call);
    seen.push_str(key)?;
    seen.push_str(": ")?;
    show(alloc, executor, form, seen)?;
    seen.push('\n')
}

/// Notes for how many nodes a field is asked at once, where that is told of its response key. An error where memory is refused.
pub(crate) fn record_batch<C, S: ScalarValue>(
    notes: &Notes,
    executor: &Executor<C, S>,
    count: usize,
) -> Result<(), AllocError> {
    let selection = executor.look_ahead();
    let key = selection.field_name();
    if !tells_batches(notes, key) {
        return Ok(());
    }
    match notes.seen.try_borrow_mut() {
        Ok(mut seen) => write!(seen, "{key}: at once {count}\n"),
        Err(_) => Ok(()),
    }
}

/// Whether a line tells for how many nodes the field of a response key is asked at once.
fn tells_batches(notes: &Notes, key: &str) -> bool {
    line_of(notes.sights.as_str(), key, 0).starts_with("at once")
}

/// Whether resolvers were shown what the lines tell: at each call, in order, and no more.
pub(crate) fn saw_as_told(notes: &Notes) -> bool {
    match notes.seen.try_borrow() {
        Ok(seen) => seen.as_str() == notes.sights.as_str(),
        Err(_) => false,
    }
}

/// Adds what resolvers were shown, with `; ` between calls, or `nothing`.
pub(crate) fn push_seen(notes: &Notes, out: &mut String) -> Result<(), AllocError> {
    match notes.seen.try_borrow() {
        Ok(seen) => push_calls(seen.as_str(), out),
        Err(_) => out.push_str("nothing"),
    }
}

/// Adds lines, with `; ` between them, or `nothing`.
fn push_calls(seen: &str, out: &mut String) -> Result<(), AllocError> {
    if seen.is_empty() {
        return out.push_str("nothing");
    }
    let mut is_first = true;
    for line in seen.lines() {
        if !is_first {
            out.push_str("; ")?;
        }
        is_first = false;
        out.push_str(line)?;
    }
    Ok(())
}

/// How many lines there are for a response key.
fn count_lines(lines: &str, key: &str) -> usize {
    let mut count = 0usize;
    for line in lines.lines() {
        if let Some((of, _)) = line.split_once(": ") {
            if of == key {
                count = count.wrapping_add(1);
            }
        }
    }
    count
}

/// What the line of this number for a response key tells, counted from 0; nothing where there is none.
fn line_of<'l>(lines: &'l str, key: &str, number: usize) -> &'l str {
    let mut count = 0usize;
    for line in lines.lines() {
        if let Some((of, told)) = line.split_once(": ") {
            if of == key {
                if count == number {
                    return told;
                }
                count = count.wrapping_add(1);
            }
        }
    }
    ""
}

/// Adds what an executor shows, in the form of what a line tells.
fn show<C, S: ScalarValue>(
    alloc: Global,
    executor: &Executor<C, S>,
    form: &str,
    out: &mut String,
) -> Result<(), AllocError> {
    if let Some(rest) = form.strip_prefix("for ") {
        if let Some((name, _)) = rest.split_once(':') {
            return push_children_for(alloc, executor, name, out);
        }
    }
    if let Some(rest) = form.strip_prefix("fragment ") {
        if let Some((name, _)) = rest.split_once(' ') {
            return push_fragment(executor, name, out);
        }
    }
    if let Some(rest) = form.strip_prefix("variable ") {
        if let Some((name, _)) = rest.split_once(' ') {
            return push_variable(executor, name, out);
        }
    }
    if let Some(rest) = form.strip_prefix("child ") {
        if let Some((name, _)) = rest.split_once(':') {
            return push_child(alloc, executor, name, out);
        }
    }
    if form.starts_with("copy") {
        return push_last_of_copy(alloc, executor, out);
    }
    if form.starts_with("columns") {
        return push_columns(alloc, executor, out);
    }
    if form.starts_with("names") {
        return push_names(alloc, executor, out);
    }
    if form.starts_with("occurrences") {
        return push_occurrences(alloc, executor, out);
    }
    if form.starts_with("place") {
        return push_place(alloc, executor, out);
    }
    push_selection(alloc, &executor.look_ahead(), out)
}

/// Adds the children for one type.
fn push_children_for<C, S: ScalarValue>(
    alloc: Global,
    executor: &Executor<C, S>,
    name: &str,
    out: &mut String,
) -> Result<(), AllocError> {
    write!(out, "for {name}:")?;
    let selection = executor.look_ahead();
    let kept = selection.children_for_explicit_type(alloc, name)?;
    push_children(alloc, &kept, LEVELS, out)
}

/// Adds the names of the children, from both ends.
fn push_names<C, S: ScalarValue>(
    alloc: Global,
    executor: &Executor<C, S>,
    out: &mut String,
) -> Result<(), AllocError> {
    let selection = executor.look_ahead();
    let children = selection.children(alloc)?;
    let mut names = children.names();
    out.push_str("names")?;
    push_name(names.next(), out)?;
    push_name(names.next_back(), out)?;
    for _turn in 1..children.len() {
        push_name(names.next(), out)?;
    }
    Ok(())
}

/// Adds the child of a response key; `none` where there is none.
fn push_child<C, S: ScalarValue>(
    alloc: Global,
    executor: &Executor<C, S>,
    name: &str,
    out: &mut String,
) -> Result<(), AllocError> {
    let selection = executor.look_ahead();
    let children = selection.children(alloc)?;
    match children.select(name) {
        Some(child) if children.has_child(name) => write!(out, "child {name}: {child:?}"),
        _ => write!(out, "child {name}: none"),
    }
}

/// Adds what a copy of the children hands over last, and how many are left then.
fn push_last_of_copy<C, S: ScalarValue>(
    alloc: Global,
    executor: &Executor<C, S>,
    out: &mut String,
) -> Result<(), AllocError> {
    let selection = executor.look_ahead();
    let children = selection.children(alloc)?;
    let mut handed = children.try_clone(alloc)?.into_iter();
    match handed.next_back() {
        Some(last) => {
            let (name, left) = (last.field_original_name(), handed.len());
            write!(out, "copy {name}, {left} left")
        }
        None => out.push_str("copy none"),
    }
}

/// Adds a name, or `none`.
fn push_name(name: Option<&str>, out: &mut String) -> Result<(), AllocError> {
    let name = name.unwrap_or("none");
    write!(out, " {name}")
}

/// Adds the columns that are asked for.
fn push_columns<C, S: ScalarValue>(
    alloc: Global,
    executor: &Executor<C, S>,
    out: &mut String,
) -> Result<(), AllocError> {
    out.push_str("columns")?;
    for column in columns_asked_for(alloc, executor)? {
        out.push(' ')?;
        out.push_str(column)?;
    }
    Ok(())
}

/// Adds all occurrences of the field, from the front and from the back.
fn push_occurrences<C, S: ScalarValue>(
    alloc: Global,
    executor: &Executor<C, S>,
    out: &mut String,
) -> Result<(), AllocError> {
    out.push_str("occurrences")?;
    for selection in executor.look_ahead_occurrences() {
        out.push(' ')?;
        push_selection(alloc, &selection, out)?;
    }
    out.push_str(" |")?;
    for selection in executor.look_ahead_occurrences().rev() {
        out.push(' ')?;
        push_selection(alloc, &selection, out)?;
    }
    Ok(())
}

/// Adds the declared type of the field, where it starts, and the path of an error that is made there.
fn push_place<C, S: ScalarValue>(
    alloc: Global,
    executor: &Executor<C, S>,
    out: &mut String,
) -> Result<(), AllocError> {
    out.push_str("place ")?;
    push_type(executor.current_type(), LEVELS, out)?;
    let start = executor.location();
    let (line, column) = (start.line().wrapping_add(1), start.column().wrapping_add(1));
    write!(out, " at {line}:{column} in ")?;
    let error = executor.new_error(alloc, error_of_message(String::new(alloc)))?;
    push_path(error.path(), out)
}

/// Adds a path, with a full stop between its segments.
fn push_path(path: &[PathSegment], out: &mut String) -> Result<(), AllocError> {
    let mut mark = "";
    for segment in path {
        out.push_str(mark)?;
        match segment {
            PathSegment::Key(key) => out.push_str(key.as_str())?,
            PathSegment::Index(position) => write!(out, "{position}")?,
        }
        mark = ".";
    }
    Ok(())
}

/// Adds a type as it is written.
fn push_type<S: ScalarValue>(
    shown: &TypeType<S>,
    levels: usize,
    out: &mut String,
) -> Result<(), AllocError> {
    if levels == 0 {
        return out.push_str("..");
    }
    match shown {
        TypeType::Concrete(meta) => out.push_str(meta.name().unwrap_or("")),
        TypeType::List(inner, _) => {
            out.push('[')?;
            push_type(inner, levels - 1, out)?;
            out.push(']')
        }
        TypeType::NonNull(inner) => {
            push_type(inner, levels - 1, out)?;
            out.push('!')
        }
    }
}

/// Adds whether a fragment has this name.
fn push_fragment<C, S: ScalarValue>(
    executor: &Executor<C, S>,
    name: &str,
    out: &mut String,
) -> Result<(), AllocError> {
    let is = match executor.fragment_by_name(name) {
        Some(_) => "is there",
        None => "is not there",
    };
    write!(out, "fragment {name} {is}")
}

/// Adds the value of a variable.
fn push_variable<C, S: ScalarValue>(
    executor: &Executor<C, S>,
    name: &str,
    out: &mut String,
) -> Result<(), AllocError> {
    match executor.variables().get(name) {
        Some(value) => write!(out, "variable {name} is {value}"),
        None => write!(out, "variable {name} has no value"),
    }
}

/// Adds a selection, with what is below it.
fn push_selection<S: ScalarValue>(
    alloc: Global,
    selection: &LookAheadSelection<S>,
    out: &mut String,
) -> Result<(), AllocError> {
    push_words(selection, out)?;
    let children = selection.children(alloc)?;
    push_children(alloc, &children, LEVELS, out)
}

/// Adds children, if there are any, with what is below them.
fn push_children<S: ScalarValue>(
    alloc: Global,
    children: &LookAheadChildren<S>,
    levels: usize,
    out: &mut String,
) -> Result<(), AllocError> {
    if levels == 0 {
        return Ok(());
    }
    if children.is_empty() {
        return Ok(());
    }
    out.push_str(" {")?;
    for child in children.iter() {
        out.push(' ')?;
        push_words(child, out)?;
        let below = child.children(alloc)?;
        push_children(alloc, &below, levels - 1, out)?;
    }
    out.push_str(" }")
}

/// Adds the names of a selection, its arguments, and the type that it applies for.
fn push_words<S: ScalarValue>(
    selection: &LookAheadSelection<S>,
    out: &mut String,
) -> Result<(), AllocError> {
    if let Some(alias) = selection.field_alias() {
        out.push_str(alias)?;
        out.push_str(": ")?;
    }
    out.push_str(selection.field_original_name())?;
    push_arguments(selection, out)?;
    if let Some(name) = selection.applies_for() {
        out.push_str(" on ")?;
        out.push_str(name)?;
    }
    Ok(())
}

/// Adds the arguments that are written.
fn push_arguments<S: ScalarValue>(
    selection: &LookAheadSelection<S>,
    out: &mut String,
) -> Result<(), AllocError> {
    if !selection.has_arguments() {
        return Ok(());
    }
    let mut is_first = true;
    for argument in selection.arguments() {
        out.push_str(if is_first { "(" } else { ", " })?;
        push_argument(&argument, out)?;
        is_first = false;
    }
    out.push(')')
}

/// Adds an argument.
fn push_argument<S: ScalarValue>(
    argument: &LookAheadArgument<S>,
    out: &mut String,
) -> Result<(), AllocError> {
    out.push_str(argument.name())?;
    out.push_str(": ")?;
    push_value(argument.value(), LEVELS, out)
}

/// Adds a value.
fn push_value<S: ScalarValue>(
    value: LookAheadValue<S>,
    levels: usize,
    out: &mut String,
) -> Result<(), AllocError> {
    if levels == 0 {
        return out.push_str("..");
    }
    match value {
        LookAheadValue::Null => out.push_str("null"),
        LookAheadValue::Scalar(scalar) => push_scalar(scalar, out),
        LookAheadValue::Enum(name) => out.push_str(name),
        LookAheadValue::List(items) => {
            out.push('[')?;
            for item in items.iter() {
                push_value(item.item, levels - 1, out)?;
                out.push(' ')?;
            }
            out.push(']')
        }
        LookAheadValue::Object(fields) => {
            out.push('{')?;
            for (name, field) in fields.iter() {
                out.push_str(name.item)?;
                out.push(':')?;
                push_value(field.item, levels - 1, out)?;
                out.push(' ')?;
            }
            out.push('}')
        }
    }
}

/// Adds a scalar: a text without quotes.
fn push_scalar<S: ScalarValue>(scalar: &S, out: &mut String) -> Result<(), AllocError> {
    if let Some(value) = scalar.try_to_bool() {
        return write!(out, "{value}");
    }
    if let Some(value) = scalar.try_to_int() {
        return write!(out, "{value}");
    }
    match scalar.try_to_str() {
        Some(text) => out.push_str(text),
        None => out.push_str("?"),
    }
}
