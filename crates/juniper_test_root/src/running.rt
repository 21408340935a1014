//! Requests to a scripted root as they are executed.

use crate::comparing::{Outcome, Walk, execute_by_steps};
use crate::request::Request;
use crate::roots::{ScriptRoot, Unread, read_root};
use crate::script::Notes;
use crate::variables::variables_of;
use juniper::{Variables, execute_sync};
use juniper_schema_text::{Scalar, kept, placed};
use std::alloc::Global;

/// What of a request is read, which stays to the end of the program.
#[derive(Drop)]
pub(crate) struct Ready {
    root: &'static ScriptRoot,
    variables: &'static Variables<Scalar>,
    document: &'static str,
    operation_name: Option<&'static str>,
}

/// How a request is executed.
#[derive(Clone, Copy)]
pub(crate) enum Way {
    /// By `execute_sync`.
    Whole,
    /// By the same steps, one by one, with a walk.
    ByStep(Walk),
}

/// What came of a request, and the context behind it.
#[derive(Drop)]
pub(crate) struct Ran {
    pub(crate) outcome: Outcome<Scalar>,
    pub(crate) notes: Notes,
}

/// Reads a request's schema, answers and variables.
pub(crate) fn read_request(alloc: Global, request: &Request) -> Result<Ready, Unread> {
    match read_root(alloc, request.schema, request.answers) {
        Ok(root) => ready_over(alloc, request, root),
        Err(unread) => Err(unread),
    }
}

/// A request to a root, with its variables.
fn ready_over(alloc: Global, request: &Request, made: ScriptRoot) -> Result<Ready, Unread> {
    let Some(root) = stays(alloc, made) else {
        return Err(Unread::Schema);
    };
    let Some(variables) = kept(
        alloc,
        variables_of(alloc, request.variables).ok_or(Unread::Variables),
    ) else {
        return Err(Unread::Variables);
    };
    Ok(Ready {
        root,
        variables,
        document: request.document,
        operation_name: operation_name(request),
    })
}

/// A root that stays to the end of the program; `None` where memory is refused.
fn stays(alloc: Global, root: ScriptRoot) -> Option<&'static ScriptRoot> {
    let place = placed(alloc, root)?;
    Some(place)
}

/// The name of the operation, if one is given.
fn operation_name(request: &Request) -> Option<&'static str> {
    match request.operation_name {
        "" => None,
        name => Some(name),
    }
}

/// Executes a request, whose resolvers are to be shown these sights.
pub(crate) fn run(alloc: Global, ready: &Ready, way: Way, sights: String) -> Ran {
    let mut notes = Notes::new(alloc, sights);
    let outcome = match way {
        Way::Whole => run_whole(alloc, ready, &mut notes),
        Way::ByStep(walk) => run_by_step(alloc, ready, walk, &mut notes),
    };
    Ran { outcome, notes }
}

/// Executes a request by `execute_sync`.
fn run_whole(alloc: Global, ready: &Ready, notes: &mut Notes) -> Outcome<Scalar> {
    execute_sync(
        alloc,
        ready.document,
        ready.operation_name,
        ready.root,
        ready.variables,
        notes,
    )
}

/// Executes a request step by step.
fn run_by_step(alloc: Global, ready: &Ready, walk: Walk, notes: &mut Notes) -> Outcome<Scalar> {
    execute_by_steps(
        alloc,
        walk,
        ready.document,
        ready.operation_name,
        ready.root,
        ready.variables,
        notes,
    )
}
