//! Roots of texts.

use crate::reader::read_script;
use crate::registry::registry_of;
use crate::script::{Notes, RootType, Script};
use juniper::{EmptySubscription, RootError, RootNode};
use juniper_meta::MetaType;
use juniper_schema_text::{Declarations, Scalar, read_declarations};
use std::alloc::Global;
use std::collections::HashMap;
use std::fmt;

/// The root of a script, which answers the fields of nodes and takes the steps of mutations.
pub type ScriptRoot = RootNode<Script, Script, EmptySubscription<Notes>, Scalar>;

/// The name of the mutation type where there is none.
const NO_MUTATION: &str = "_EmptyMutation";

/// What of a request cannot be read.
#[derive(Clone, Copy, Debug, PartialEq, Eq)]
pub enum Unread {
    /// The schema.
    Schema,
    /// The schema is not executable.
    NotExecutable,
    /// The answers, at this line.
    Answers(usize),
    /// The values of the variables.
    Variables,
}

impl fmt::Display for Unread {
    fn fmt<W: fmt::Write>(&self, f: &mut fmt::Formatter<W>) -> fmt::Result {
        match self {
            Unread::Schema => write!(f, "the schema cannot be read"),
            Unread::NotExecutable => write!(f, "the schema is not executable"),
            Unread::Answers(number) => write!(f, "line {number} of the answers cannot be read"),
            Unread::Variables => write!(f, "the variables cannot be read"),
        }
    }
}

/// The scripts of both roots.
#[derive(Drop)]
struct Scripts {
    query: Script,
    mutation: Script,
}

/// The names of both root types.
#[derive(Clone, Copy)]
struct RootTypes {
    query: RootType,
    mutation: RootType,
}

/// The root whose schema and answers are these texts.
pub fn read_root(
    alloc: Global,
    schema: &'static str,
    answers: &'static str,
) -> Result<ScriptRoot, Unread> {
    let Some(declarations) = read_declarations(alloc, schema) else {
        return Err(Unread::Schema);
    };
    let Declarations {
        query,
        mutation,
        types,
    } = declarations;
    let root_types = RootTypes {
        query: RootType { name: query },
        mutation: RootType {
            name: mutation.unwrap_or(NO_MUTATION),
        },
    };
    root_over(alloc, types, answers, root_types)
}

/// The root over these types whose answers are a text.
fn root_over(
    alloc: Global,
    types: HashMap<String, MetaType<Scalar>>,
    answers: &'static str,
    root_types: RootTypes,
) -> Result<ScriptRoot, Unread> {
    match read_scripts(alloc, answers, root_types) {
        Ok(scripts) => made_root(alloc, types, scripts, root_types),
        Err(number) => Err(Unread::Answers(number)),
    }
}

/// The scripts of both roots, of one text; else the number of the first line that cannot be read.
fn read_scripts(
    alloc: Global,
    answers: &'static str,
    root_types: RootTypes,
) -> Result<Scripts, usize> {
    match read_script(alloc, answers, root_types.query.name) {
        Ok(query) => with_mutation(alloc, answers, query, root_types.mutation),
        Err(number) => Err(number),
    }
}

/// This script, and that of the root of mutations; else the number of the first line that cannot be read.
fn with_mutation(
    alloc: Global,
    answers: &'static str,
    query: Script,
    root_type: RootType,
) -> Result<Scripts, usize> {
    match read_script(alloc, answers, root_type.name) {
        Ok(mutation) => Ok(Scripts { query, mutation }),
        Err(number) => Err(number),
    }
}

/// The root over these types and scripts.
fn made_root(
    alloc: Global,
    types: HashMap<String, MetaType<Scalar>>,
    scripts: Scripts,
    root_types: RootTypes,
) -> Result<ScriptRoot, Unread> {
    let Some(registry) = registry_of(alloc, types) else {
        return Err(Unread::NotExecutable);
    };
    let Scripts { query, mutation } = scripts;
    let root = RootNode::new(
        alloc,
        query,
        mutation,
        EmptySubscription::new(),
        registry,
        root_types.query,
        root_types.mutation,
        (),
    );
    match root {
        Ok(root) => Ok(root),
        Err(RootError::NotExecutable) => Err(Unread::NotExecutable),
        Err(RootError::Memory) => Err(Unread::Schema),
    }
}
