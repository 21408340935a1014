//! Texts to be measured.

use crate::command::Size;
use std::alloc::{AllocError, Global};
use std::fmt::Write;

/// A text of the size: an operation with variables and two fragments. Its fields have aliases, directives and arguments
/// (Ints, strings with escapes, lists, objects, values of an enum, variables), and comments stand between them. No clause
/// says that it spells a document: the program's run counts what is made.
pub fn made_text(alloc: Global, size: Size) -> Result<String, AllocError> {
    let mut text = String::new(alloc);
    text.push_str(
        r#"# A made text.
query Made($first: Int = 10, $most: [Int!]! = [1, 2], $flag: Boolean = true, $size: Size = {unit: METER}) @cached(for: 60) {
  ...First
  ...Second @include(if: $flag)
"#,
    )?;
    let fields = size.fields - 2;
    for n in 0..fields {
        let level = n % size.depth;
        push_field(&mut text, n)?;
        push_end(&mut text, level, level + 1 < size.depth && n + 1 < fields)?;
    }
    text.push_str(
        r#"}

fragment First on Node {
  id
}

fragment Second on Node @cached {
  ... on Item @skip(if: $flag) { name }
}"#,
    )?;
    Ok(text)
}

/// Appends the field of this number, one of eight kinds.
fn push_field(text: &mut String, n: usize) -> Result<(), AllocError> {
    let id = n % 1000;
    match n % 8 {
        0 => write!(
            text,
            "  # Field {n}.\n  a{id}: friends(first: {id}, after: \"line\\n\\u00e9 \\\"end\\\"\")"
        ),
        1 => text.push_str("  name"),
        2 => write!(text, "  b{id}: height(unit: METER, ids: [1, -2, {id}])"),
        3 => text.push_str(
            "  items(where: {price: {least: 1, most: $most}, tags: [\"x\", \"y\"]})",
        ),
        4 => text.push_str("  id"),
        5 => write!(
            text,
            "  c{id}: picture(size: $size, of: null) @include(if: $flag)"
        ),
        6 => text.push_str("  note @skip(if: false)"),
        _ => write!(text, "  d{id}: total(of: [[1, 2], [3]], exact: true)"),
    }
}

/// Appends what follows a field at the level: a set is opened for the fields to come, or all sets below the operation's are
/// closed.
fn push_end(text: &mut String, level: usize, opens: bool) -> Result<(), AllocError> {
    if opens {
        return text.push_str(" {\n");
    }
    text.push_str("\n")?;
    for _set in 0..level {
        text.push_str("  }\n")?;
    }
    Ok(())
}
