//! A log, and the steps that write in it.

ghost use Rattle.std.specs.Prelude.{◌≡◌, [], ◌∷◌, ◌++◌, MatchResult, codes, string_bytes};
ghost use Rattle.juniper_values.specs.ResolvedView.{Answers};
ghost use Rattle.juniper_types.specs.Stepping.{Leaves};
ghost use Rattle.juniper_refusal_tests.specs.Logs.{after_step, query_reply, step_reply, torn, with_entry};

use juniper::{Context, ResolveError, Resolved, ScalarValue};
use std::alloc::{AllocError, Global};
use std::marker::Model;

/// An entry.
#[derive(Drop)]
pub struct Entry {
    text: String,
}

impl Model for Entry {
    ghost use Rattle.std.specs.Prelude.{string_bytes};
    ghost use Rattle.graphql_spec.specs.Shown.{Text};

    ghost Value = { Text };

    ghost view = { λ e. string_bytes e.text };
}

impl Entry {
    /// The entry of this text.
    pub fn new(text: String) -> Self
        ensures { result ≡ string_bytes text }
    {
        Entry { text }
    }

    /// Its text.
    pub fn text(&self) -> &str
        ensures { result.now ≡ self.now }
    {
        self.text.as_str()
    }
}

/// A log: its entries, in order.
#[derive(Drop)]
pub struct Log {
    entries: Vec<Entry>,
}

impl Model for Log {
    ghost use Rattle.juniper_refusal_tests.specs.Logs.{Entries};

    ghost Value = { Entries };

    ghost view = { λ l. record { entries = l.entries.items } };
}

impl Context for Log {}

impl Log {
    /// No entries.
    pub fn empty(alloc: Global) -> Self
        ensures { result ≡ record { entries = [] } }
    {
        Log {
            entries: Vec::new(alloc),
        }
    }

    /// The entries.
    pub fn entries(&self) -> &[Entry]
        ensures { result.now ≡ self.now.entries }
    {
        self.entries.as_slice()
    }

    /// Adds an entry behind the others. Where memory is refused nothing changes.
    pub fn add(&mut self, entry: Entry) -> Result<(), AllocError>
        ensures { MatchResult result (λ _. self.new ≡ record { entries = self.old.entries ++ entry ∷ [] }) (λ _. self.new ≡ self.old) }
    {
        self.entries.push(entry)?;
        Ok(())
    }

    /// Writes an entry of this text behind the others, with room for more text: it takes a block so large that many turns end for want of it.
    /// Where memory is refused nothing changes.
    pub fn write(&mut self, alloc: Global, text: &str) -> Result<(), AllocError>
        ensures { MatchResult result (λ _. self.new ≡ with_entry self.old text.now) (λ _. self.new ≡ self.old) }
    {
        let mut own = String::with_capacity(alloc, 3_000)?;
        own.push_str(text)?;
        self.add(Entry::new(own))
    }
}

/// The step of a root field of the mutation. Where memory is wanting none of the two entries may be there, or the first alone.
pub fn take_step<S: ScalarValue>(
    alloc: Global,
    field_name: &str,
    log: &mut Log,
) -> Result<Resolved<(), S>, ResolveError<S>>
    ensures answer { Answers S.shown result (step_reply field_name.now) }
    ensures context { Leaves (after_step log.old field_name.now) (torn log.old) result log.new }
{
    match field_name {
        "note" => note(alloc, log),
        "lost" => lost(alloc, log),
        _ => Ok(Resolved::Null),
    }
}

/// Two entries, one behind the other.
#[tactic(auto, using(crate::proofs::Torn::torn_none, crate::proofs::Torn::torn_first))]
fn note<S: ScalarValue>(alloc: Global, log: &mut Log) -> Result<Resolved<(), S>, ResolveError<S>>
    ensures answer { Answers S.shown result (step_reply (codes "note")) }
    ensures context { Leaves (after_step log.old (codes "note")) (torn log.old) result log.new }
{
    match log.write(
        alloc,
        "A step has begun, and this is the first of its two entries",
    ) {
        Err(_) => Err(ResolveError::Memory),
        Ok(()) => match log.write(
            alloc,
            "The step is done, and this is the second of its two entries",
        ) {
            Err(_) => Err(ResolveError::Memory),
            Ok(()) => Ok(Resolved::Scalar(S::from_int(1))),
        },
    }
}

/// The first entry, behind which memory is wanting.
#[tactic(auto, using(crate::proofs::Torn::torn_none, crate::proofs::Torn::torn_first))]
fn lost<S: ScalarValue>(alloc: Global, log: &mut Log) -> Result<Resolved<(), S>, ResolveError<S>>
    ensures answer { Answers S.shown result (step_reply (codes "lost")) }
    ensures context { Leaves (after_step log.old (codes "lost")) (torn log.old) result log.new }
{
    match log.write(
        alloc,
        "A step has begun, and this is the first of its two entries",
    ) {
        Ok(()) => Err(ResolveError::Memory),
        Err(_) => Err(ResolveError::Memory),
    }
}

/// What a field of the query answers. For `memory` there never is any.
pub fn resolve<S: ScalarValue>(
    alloc: Global,
    field_name: &str,
) -> Result<Resolved<(), S>, ResolveError<S>>
    ensures { Answers S.shown result (query_reply field_name.now) }
{
    match field_name {
        "id" => Ok(Resolved::Scalar(S::from_text(String::from_str(alloc, "q1")?)?)),
        "memory" => Err(ResolveError::Memory),
        _ => Ok(Resolved::Null),
    }
}
