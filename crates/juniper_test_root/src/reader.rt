//! Scripts from texts.
//!
//! Each line says `OWNER.FIELD => ANSWER`: the owner is the name of a node or of an object type. An answer is one of these:
//! - `null`, an Int as `42`, `true`, `false`, a text between `"`, which holds no other `"`;
//! - `@NAME:TYPE`, the node of that name and of that object type; `@TYPE` is the node of the same name as its type;
//! - a list of answers as `[1, null, [@r2:Droid]]`;
//! - alone, `error MESSAGE`, `argument NAME`, or `steps`: how many steps mutations have taken.

use crate::script::{Answer, Line, Node, Script, Tree};
use std::alloc::Global;

/// So many lists stand within one another at most.
const LEVELS: usize = 9;

/// The script of a text, with the root's object type; else the number of the first line that cannot be read, from 1.
pub fn read_script(
    alloc: Global,
    text: &'static str,
    root_type: &'static str,
) -> Result<Script, usize> {
    let mut lines = Vec::new(alloc);
    let mut number = 0usize;
    for line in text.lines() {
        number = number.wrapping_add(1);
        if !line.trim().is_empty() {
            let pushed = match read_line(alloc, line) {
                Some(line) => lines.push(line).is_ok(),
                None => false,
            };
            if !pushed {
                return Err(number);
            }
        }
    }
    Ok(Script {
        lines,
        root: node_named(root_type),
    })
}

/// A line; `None` where it cannot be read, or memory is refused.
fn read_line(alloc: Global, line: &'static str) -> Option<Line> {
    let (place, answer) = line.split_once(" => ")?;
    let (owner, field) = place.trim().split_once('.')?;
    Some(Line {
        owner,
        field,
        answer: read_answer(alloc, answer.trim())?,
    })
}

fn read_answer(alloc: Global, text: &'static str) -> Option<Answer> {
    if let Some(message) = text.strip_prefix("error ") {
        return Some(Answer::Error(message));
    }
    if let Some(name) = text.strip_prefix("argument ") {
        return Some(Answer::Argument(name));
    }
    if text == "steps" {
        return Some(Answer::Steps);
    }
    let mut cursor = Cursor { alloc, rest: text };
    let tree = cursor.read_tree(LEVELS)?;
    if cursor.rest.is_empty() {
        Some(Answer::Given(tree))
    } else {
        None
    }
}

/// The node of this name and object type, or of the name of its object type.
fn node_named(text: &'static str) -> Node {
    match text.split_once(':') {
        Some((name, object_type)) => Node { name, object_type },
        None => Node {
            name: text,
            object_type: text,
        },
    }
}

/// What is left of an answer.
#[derive(Drop)]
struct Cursor {
    alloc: Global,
    rest: &'static str,
}

impl Cursor {
    /// Whether this mark stands next; it is then read, and the blanks behind it.
    fn eats(&mut self, mark: char) -> bool {
        match self.rest.strip_prefix(mark) {
            Some(rest) => {
                self.rest = rest.trim_start();
                true
            }
            None => false,
        }
    }

    /// What stands before the next blank, comma or `]`.
    fn word(&mut self) -> &'static str {
        let end = match self.rest.find(|mark: char| " ,]".contains(mark)) {
            Some(end) => end,
            None => self.rest.len(),
        };
        match self.rest.split_at_checked(end) {
            Some((word, rest)) => {
                self.rest = rest.trim_start();
                word
            }
            None => "",
        }
    }

    /// A value with so many levels at most.
    fn read_tree(&mut self, levels: usize) -> Option<Tree> {
        if levels == 0 {
            return None;
        }
        if !self.eats('[') {
            return self.read_leaf();
        }
        let mut items = Vec::new(self.alloc);
        for _turn in 0..self.rest.len() {
            if self.eats(']') {
                return Some(Tree::List(items));
            }
            let item = self.read_tree(levels - 1)?;
            if items.push(item).is_err() {
                return None;
            }
            self.eats(',');
        }
        None
    }

    /// A value that is no list.
    fn read_leaf(&mut self) -> Option<Tree> {
        if let Some(text) = self.rest.strip_prefix('"') {
            let (text, rest) = text.split_once('"')?;
            self.rest = rest.trim_start();
            return Some(Tree::Text(text));
        }
        let word = self.word();
        if let Some(name) = word.strip_prefix('@') {
            return Some(Tree::Object(node_named(name)));
        }
        match word {
            "null" => Some(Tree::Null),
            "true" => Some(Tree::Boolean(true)),
            "false" => Some(Tree::Boolean(false)),
            _ => match word.parse::<i32>() {
                Ok(value) => Some(Tree::Int(value)),
                Err(_) => None,
            },
        }
    }
}
