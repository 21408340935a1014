//! Scripts: what a root answers, line by line.

ghost use Rattle.std.specs.Prelude.{◌≡◌, option_map};
ghost use Rattle.juniper_test_root.specs.Scripts.{answer_of, find_line, is_for};

use std::alloc::Global;
use std::cell::RefCell;

/// What stands for an object: a name, by which lines tell what it answers, and its object type.
#[derive(Clone, Copy, Debug, PartialEq, Eq, Drop)]
pub struct Node {
    /// Its name.
    pub name: &'static str,
    /// The name of its object type.
    pub object_type: &'static str,
}

/// A value that is answered.
#[derive(Debug, Drop)]
pub enum Tree {
    /// Null.
    Null,
    /// An Int.
    Int(i32),
    /// A text, or the name of an enum's value.
    Text(&'static str),
    /// A Boolean.
    Boolean(bool),
    /// An object.
    Object(Node),
    /// A list.
    List(Vec<Tree>),
}

/// What a field answers.
#[derive(Debug, Drop)]
pub enum Answer {
    /// This value.
    Given(Tree),
    /// The error of this message.
    Error(&'static str),
    /// The value of the argument of this name, if it is a scalar or an enum's value; else null.
    Argument(&'static str),
    /// How many steps mutations have taken.
    Steps,
}

/// A line of a script: the owner, a node or an object type, answers this to the field.
#[derive(Debug, Drop)]
pub struct Line {
    /// The name of the node or of the type.
    pub owner: &'static str,
    /// The name of the field.
    pub field: &'static str,
    /// The answer.
    pub answer: Answer,
}

/// What all nodes answer, and the root among them.
#[derive(Debug, Drop)]
pub struct Script {
    pub(crate) lines: Vec<Line>,
    pub(crate) root: Node,
}

/// The object type of a root.
#[derive(Clone, Copy, Debug, Drop)]
pub struct RootType {
    /// Its name.
    pub name: &'static str,
}

/// What a request brings along.
#[derive(Drop)]
pub struct Notes {
    /// What resolvers are shown at fields, a line for each call at a response key that is told of.
    pub sights: String,
    /// What they were shown so far, in lines of the same form.
    pub seen: RefCell<String>,
    /// How many steps mutations have taken, modulo 256.
    pub steps: u8,
}

impl Notes {
    /// These sights, with nothing seen and no step.
    pub fn new(alloc: Global, sights: String) -> Self {
        Notes {
            sights,
            seen: RefCell::new(String::new(alloc)),
            steps: 0,
        }
    }
}

impl Line {
    /// Whether it tells what this owner answers to this field.
    fn is_for(&self, owner: &str, field: &str) -> bool
        ensures { result ≡ is_for owner.now field.now self.now }
    {
        self.owner == owner && self.field == field
    }
}

/// The answer of the first line of this owner and field, if there is one.
#[tactic(auto, unfolding(crate::specs::Scripts::find_line))]
fn find_line<'s>(lines: &'s [Line], owner: &str, field: &str) -> Option<&'s Answer>
    ensures { option_map (λ a. a.now) result ≡ find_line owner.now field.now lines.now }
{
    for line in lines {
        if line.is_for(owner, field) {
            return Some(&line.answer);
        }
    }
    None
}

impl Script {
    /// What a node answers to a field: by the first line of the node, else by the first one of its object type.
    pub(crate) fn answer_of(&self, node: &Node, field: &str) -> Option<&Answer>
        ensures { option_map (λ a. a.now) result ≡ answer_of self.now.lines.items node.now field.now }
    {
        match find_line(&self.lines, node.name, field) {
            Some(answer) => Some(answer),
            None => find_line(&self.lines, node.object_type, field),
        }
    }
}
