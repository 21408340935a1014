//! What a request gives to its walk.

ghost use Rattle.std.specs.Prelude.{◌≡◌, ◌<◌, IfOk, length, map, string_bytes};
ghost use Rattle.graphql_spec.specs.Execution.{reply_of, type_of};
ghost use Rattle.juniper_syntax.specs.TypeView.{view_type};
ghost use Rattle.juniper_lookahead.specs.Expansion.{IsAcyclic};
ghost use Rattle.juniper_lookahead.specs.Sites.{IsWholeGroup, view_fields};
ghost use Rattle.juniper_conversions.specs.PathView.{path_place};
ghost use Rattle.juniper_values.specs.ResolvedView.{AllAnswer, Answers};
ghost use Rattle.juniper_walk.specs.Asking.{IsAskedOf, IsPathOf};
ghost use Rattle.juniper_walk.specs.FieldWords.{head_of};

use juniper_assemble::Completer;
use juniper_conversions::{FieldPath, ResolveError};
use juniper_lookahead::{Collector, Conditions, Enclosing, Occurrence};
use juniper_syntax::{Field, Fragments, ScalarValue, Span, Spanning, Type};
use juniper_values::Resolved;
use std::alloc::{AllocError, Global};

/// Where a field is asked for.
#[derive(Drop)]
pub struct Site<'r, 'd, 'a, S> {
    /// The fragments of the document by name.
    pub fragments: &'r Fragments<'d, 'a, S>,
    /// The response keys from the root to the field.
    pub path: &'r FieldPath<'a>,
    /// The selections that hold the field, perhaps within fragments, one slice after the other.
    pub enclosing: &'r [Enclosing<'d, 'a, S>],
    /// The field as it is written: all its occurrences, in order. There is one at least.
    pub occurrences: &'r [Occurrence<'d, 'a, S>],
}

/// What a field of a node answers.
#[derive(Drop)]
pub struct Asked<'t, N, S> {
    /// The type that the field declares.
    pub declared: &'t Type<String>,
    /// Its answer, or the error with which it fails.
    pub answer: Result<Resolved<N, S>, ResolveError<S>>,
}

/// What a field of nodes answers.
#[derive(Drop)]
pub struct AskedAll<'t, N, S> {
    /// The type that the field declares.
    pub declared: &'t Type<String>,
    /// Its answers, or the errors with which it fails, one for each node.
    pub answers: Vec<Result<Resolved<N, S>, ResolveError<S>>>,
}

/// What answers the fields of nodes; it stands for the schema, the variables and the resolver of a request.
pub trait Resolver<S: ScalarValue>: Completer<S> + Conditions {
    ghost use Rattle.graphql_spec.specs.Shown.{Name};
    ghost use Rattle.graphql_spec.specs.Documents.{Head};
    ghost use Rattle.juniper_lookahead.specs.Expansion.{VariableMap};

    /// What a field is for all nodes of an object type: what it declares, and its arguments.
    type Question: Drop;

    /// Whether this is asked for a field, as it is written, of the nodes of an object type.
    ghost asks: { Self → Name → Head → Self.Question → Type 0 };

    /// The values of variables (6.1.2).
    ghost values: { Self → VariableMap S };

    /// What is asked for a field of the nodes of an object type, by the schema and the values of variables alone; an error where memory is
    /// refused. It may hold so many bytes of what is written for all of its nodes; nothing rests on that.
    fn question(
        &self,
        alloc: Global,
        concrete: &str,
        field: &Spanning<Field<S>, Span>,
        room: usize,
    ) -> Result<Self::Question, AllocError>
        ensures { IfOk result (λ q. asks self.now concrete.now (head_of S.shown field.now) q) };

    /// The name of a node's object type.
    fn concrete_type_name<'n>(&'n self, node: &'n Self::Node) -> &'n str
        ensures { result.now ≡ (Self.world self.now).concrete node.now };

    /// What the first occurrence of a field of a node answers, `__typename` too (ResolveFieldValue, 6.4.2), with its declared type. The
    /// occurrences are all that the selections around them hold of one response key for the object type (6.3.2), and the question is theirs.
    fn resolve_field_value<'t, 'd, 'a>(
        &'t self,
        alloc: Global,
        question: &'t Self::Question,
        concrete: &str,
        node: &Self::Node,
        site: &Site<'_, 'd, 'a, S>,
    ) -> Asked<'t, Self::Node, S>
        requires acyclic { IsAcyclic S.shown site.now.fragments.now }
        requires question { IsAskedOf (asks self.now concrete.now)
            (view_fields S.shown (values self.now) site.now.fragments.now site.now.occurrences.now) question.now }
        requires path { IsPathOf (view_fields S.shown (values self.now) site.now.fragments.now site.now.occurrences.now) (path_place site.now.path.now) }
        requires whole { IsWholeGroup S.shown (Self.possible self.now) (values self.now) site.now.fragments.now concrete.now site.now.enclosing.now
            site.now.occurrences.now }
        ensures declared { view_type (λ n. string_bytes n) result.declared.now
            ≡ type_of (Self.world self.now) concrete.now (view_fields S.shown (values self.now) site.now.fragments.now site.now.occurrences.now) }
        ensures answer { Answers S.shown result.answer (reply_of (Self.world self.now) concrete.now node.now
            (view_fields S.shown (values self.now) site.now.fragments.now site.now.occurrences.now)) };

    /// For how many nodes of an object type a field is asked at once, at most; where it is one or zero, each node is asked for itself.
    fn nodes_at_once(&self, concrete: &str) -> usize;

    /// What the first occurrence of a field answers of each of these nodes, in order, as [`Resolver::resolve_field_value`] would. There is
    /// one node at least, and the path is that of the first. An error where memory is refused. (A `Vec`, since the borrow checker's part of a
    /// proof covers no slice of references to what holds references.)
    fn ask_all<'t, 'd, 'a>(
        &'t self,
        alloc: Global,
        question: &'t Self::Question,
        concrete: &str,
        nodes: &Vec<&Self::Node>,
        site: &Site<'_, 'd, 'a, S>,
    ) -> Result<AskedAll<'t, Self::Node, S>, AllocError>
        requires acyclic { IsAcyclic S.shown site.now.fragments.now }
        requires question { IsAskedOf (asks self.now concrete.now)
            (view_fields S.shown (values self.now) site.now.fragments.now site.now.occurrences.now) question.now }
        requires path { IsPathOf (view_fields S.shown (values self.now) site.now.fragments.now site.now.occurrences.now) (path_place site.now.path.now) }
        requires whole { IsWholeGroup S.shown (Self.possible self.now) (values self.now) site.now.fragments.now concrete.now site.now.enclosing.now
            site.now.occurrences.now }
        requires some { 0 < length nodes.now.items }
        ensures declared { IfOk result (λ asked. view_type (λ n. string_bytes n) asked.declared.now
            ≡ type_of (Self.world self.now) concrete.now (view_fields S.shown (values self.now) site.now.fragments.now site.now.occurrences.now)) }
        ensures answers { IfOk result (λ asked. AllAnswer S.shown (λ m. reply_of (Self.world self.now) concrete.now m
            (view_fields S.shown (values self.now) site.now.fragments.now site.now.occurrences.now)) (map (λ n. n.now) nodes.now.items)
            asked.answers.items) };
}

/// What one request gives to each of its fields.
#[derive(Drop)]
pub struct Walk<'r, 'd, 'a, S, R> {
    pub alloc: Global,
    /// What answers its fields, with what they are collected by.
    pub collector: Collector<'r, 'd, 'a, S, R>,
}
