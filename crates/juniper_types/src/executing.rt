//! What a resolver may ask of the field that it resolves (section 6.4.2 of the Specification).

ghost use Rattle.std.specs.Prelude.{◌≡◌, ◌<◌, IfOk, length, map, option_map};
ghost use Rattle.graphql_spec.specs.Constants.{Members};
ghost use Rattle.graphql_spec.specs.Shown.{Name};
ghost use Rattle.juniper_syntax.specs.Positions.{view_position};
ghost use Rattle.juniper_lookahead.specs.Expansion.{IsAcyclic, seen_ahead};
ghost use Rattle.juniper_lookahead.specs.OccurrencesView.{occurrences_left};
ghost use Rattle.juniper_lookahead.specs.SelectionView.{view_selection};
ghost use Rattle.juniper_lookahead.specs.Sites.{IsFirstOf};
ghost use Rattle.juniper_conversions.specs.ErrorView.{view_error, view_listed};
ghost use Rattle.juniper_conversions.specs.PathView.{path_place};
ghost use Rattle.juniper_types.specs.ExecutorView.{IsAskedFor, concrete_of, context_of, enclosing_of, fragment_at, fragments_of, occurrence_of, occurrences_of};
ghost use Rattle.juniper_types.specs.ExecutorView.{path_of, schema_of, start_of, type_of, variables_of, view_occurrence, view_occurrences};

use crate::executor::Executor;
use juniper_conversions::{ExecutionError, FieldError, FieldPath};
use juniper_lookahead::{Enclosing, LookAheadSelection, Occurrence, OccurrencesIter};
use juniper_schema::{SchemaType, TypeType};
use juniper_syntax::{
    Field, Fragment, Fragments, ScalarValue, SourcePosition, Span, Spanning, Variables,
};
use std::alloc::{AllocError, Global};

impl<'r, 's, 'd, 'a, CtxT, S: ScalarValue> Executor<'r, 's, 'd, 'a, CtxT, S> {
    /// What a resolver may ask of a field: the context of the request, the schema, the values of the variables, the
    /// fragments by name, the path down to the field, its declared type, the name of the object type that it is
    /// resolved at, the selections that it is among, one slice after the other, and the field as it is written: its
    /// occurrences, of which there is one at least. No spread leads back to its own fragment (5.5.2.2).
    pub fn at_field(
        context: &'r CtxT,
        schema: &'s SchemaType<S>,
        variables: &'r Variables<S>,
        fragments: &'r Fragments<'d, 'a, S>,
        path: &'r FieldPath<'a>,
        declared_type: &'r TypeType<'s, S>,
        concrete_type: &'r str,
        enclosing: &'r [Enclosing<'d, 'a, S>],
        occurrences: &'r [Occurrence<'d, 'a, S>],
    ) -> Self
        requires acyclic { IsAcyclic S.shown fragments.now }
        requires some { 0 < length occurrences.now }
        ensures context { context_of result ≡ context.now }
        ensures schema { schema_of result ≡ schema.now }
        ensures variables { variables_of result ≡ variables.now }
        ensures fragments { fragments_of result ≡ fragments.now }
        ensures path { path_of result ≡ path.now }
        ensures declared_type { type_of result ≡ declared_type.now }
        ensures concrete_type { concrete_of result ≡ concrete_type.now }
        ensures enclosing { enclosing_of result ≡ enclosing.now }
        ensures occurrences { occurrences_of result ≡ occurrences.now }
        ensures first { IsFirstOf (occurrence_of result) occurrences.now }
    {
        let first = first_of(occurrences);
        Executor {
            context,
            schema,
            variables,
            fragments,
            path,
            declared_type,
            concrete_type,
            enclosing,
            occurrences,
            first,
        }
    }

    /// The context of the request.
    pub fn context(&self) -> &'r CtxT
        ensures { result.now ≡ context_of self.now }
    {
        self.context
    }

    /// The schema.
    pub fn schema(&self) -> &'s SchemaType<S>
        ensures { result.now ≡ schema_of self.now }
    {
        self.schema
    }

    /// The values of the variables (6.1.2).
    pub fn variables(&self) -> &'r Variables<S>
        ensures { result.now ≡ variables_of self.now }
    {
        self.variables
    }

    /// Where the field starts in the text.
    pub fn location(&self) -> &'d SourcePosition
        ensures { view_position result.now ≡ start_of self.now }
    {
        &self.first.span.start
    }

    /// The type that the field is declared with.
    pub fn current_type(&self) -> &'r TypeType<'s, S>
        ensures { result.now ≡ type_of self.now }
    {
        self.declared_type
    }

    /// The fragment of this name (2.8); `None` where the document has none.
    pub fn fragment_by_name(&self, name: &str) -> Option<&'d Fragment<'a, S>>
        ensures { option_map (λ f. f.now) result ≡ fragment_at (fragments_of self.now) name.now }
    {
        self.fragments.get(name).copied()
    }

    /// The error of the execution that this error of the field is: where the field starts, at its place in the answer (6.4.4,
    /// 7.1.2); an error where memory is refused.
    pub fn new_error(
        &self,
        alloc: Global,
        error: FieldError<S>,
    ) -> Result<ExecutionError<S>, AllocError>
        ensures { IfOk result (λ made. view_listed S.shown made ≡ record
            { path = path_place (path_of self.now); start = start_of self.now; error = view_error S.shown error }) }
    {
        let parts = self.path.parts(alloc)?;
        ExecutionError::new(alloc, self.first.span.start, parts.as_slice(), error)
    }

    /// What look-ahead shows of the first occurrence of the field now resolved: its words, its arguments, and what is selected
    /// below it, for all types.
    #[tactic(auto, unfolding(juniper_lookahead::specs::Expansion::child_at, juniper_lookahead::specs::Expansion::occurrence_at, juniper_lookahead::specs::Expansion::seen_ahead, juniper_lookahead::specs::Expansion::unplaced_head))]
    pub fn look_ahead(&self) -> LookAheadSelection<'r, 'd, 'a, S>
        ensures { view_selection result ≡ seen_ahead (view_occurrence S.shown self.now) }
    {
        LookAheadSelection::new(&self.first.item, self.variables, self.fragments)
    }

    /// What look-ahead shows of all occurrences of the field now resolved, in order, from both ends. It takes no memory.
    pub fn look_ahead_occurrences(&self) -> OccurrencesIter<'r, 'd, 'a, S>
        ensures { occurrences_left result ≡ map seen_ahead (view_occurrences S.shown self.now) }
    {
        OccurrencesIter::new(self.occurrences, self.variables, self.fragments)
    }

    /// What a resolver of other contexts may ask of this field: this context, and all else as it is here.
    pub fn replaced_context<'c, D>(&'c self, context: &'c D) -> Executor<'c, 's, 'd, 'a, D, S>
        ensures context { context_of result ≡ context.now }
        ensures schema { schema_of result ≡ schema_of self.now }
        ensures variables { variables_of result ≡ variables_of self.now }
        ensures fragments { fragments_of result ≡ fragments_of self.now }
        ensures path { path_of result ≡ path_of self.now }
        ensures declared_type { type_of result ≡ type_of self.now }
        ensures concrete_type { concrete_of result ≡ concrete_of self.now }
        ensures enclosing { enclosing_of result ≡ enclosing_of self.now }
        ensures occurrences { occurrences_of result ≡ occurrences_of self.now }
        ensures occurrence { occurrence_of result ≡ occurrence_of self.now }
        ensures asked { (name : Name) (given : Members) → IsAskedFor S.shown self.now name given → IsAskedFor S.shown result name given }
    {
        Executor {
            context,
            schema: self.schema,
            variables: self.variables,
            fragments: self.fragments,
            path: self.path,
            declared_type: self.declared_type,
            concrete_type: self.concrete_type,
            enclosing: self.enclosing,
            occurrences: self.occurrences,
            first: self.first,
        }
    }
}

/// The first of a field's occurrences.
pub fn first_of<'d, 'a, S>(
    occurrences: &[Occurrence<'d, 'a, S>],
) -> &'d Spanning<Field<'a, S>, Span>
    requires { 0 < length occurrences.now }
    ensures { IsFirstOf result.now occurrences.now }
{
    let first = &occurrences[0];
    first.field
}
