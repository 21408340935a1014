//! What nodes reply to a field (ResolveFieldValue, section 6.4.2 of the Specification), one node or many that are asked at once.

ghost use Rattle.std.specs.Prelude.{◌≡◌, IfOk, map};
ghost use Rattle.graphql_spec.specs.Execution.{reply_to};
ghost use Rattle.graphql_spec.specs.Resolvers.{answered, leaf};
ghost use Rattle.graphql_spec.specs.Shown.{text};
ghost use Rattle.juniper_values.specs.ResolvedView.{AllAnswer, Answers};
ghost use Rattle.juniper_schema.specs.SchemaView.{view_schema};
ghost use Rattle.juniper_syntax.specs.InputView.{view_variables};
ghost use Rattle.juniper_values.specs.ArgumentView.{view_arguments};
ghost use Rattle.juniper_walk.specs.FieldWords.{head_of};
ghost use Rattle.juniper_execute.specs.Questions.{IsFieldAsked, meant_arguments};
ghost use Rattle.juniper_execute.specs.Replied.{AreReplied, AreSome};
ghost use Rattle.juniper_execute.specs.Serving.{service_reply, service_world};

use crate::coerce::coerce_arguments;
use crate::node_resolver::{NodeResolver, Nodes, Replies};
use crate::question::{Question, arguments_of};
use crate::service::Service;
use juniper_syntax::{Field as Written, ScalarValue, Span, Spanning};
use juniper_types::{Executor, Resolved};
use juniper_values::{Arguments, ResolveError};
use juniper_walk::Site;
use std::alloc::{AllocError, Global};

impl<'c, 's, R: NodeResolver<S>, S: ScalarValue> Service<'c, 's, R, S> {
    /// What nodes reply to a field, `__typename` too (6.4.2).
    pub(crate) fn reply(
        &self,
        alloc: Global,
        question: &Question<'s, S>,
        concrete: &str,
        nodes: &Nodes<'_, R::Node>,
        site: &Site<S>,
        first: &Spanning<Written<S>, Span>,
    ) -> Result<Replies<R::Node, S>, ResolveError<S>>
        requires asked { IsFieldAsked S.shown self.now.schema.now self.now.variables.now concrete.now question.now site.now first.now }
        requires some { AreSome nodes.now }
        ensures { AreReplied S.shown (λ m. reply_to (service_world R.meaning S.shown self.now) concrete.now m (head_of S.shown first.now)) nodes.now result }
    {
        if first.item.name.item == "__typename" {
            type_names(alloc, concrete, nodes)
        } else {
            self.resolve(alloc, question, concrete, nodes, site, first)
        }
    }

    /// What the resolver answers to a field of nodes.
    fn resolve(
        &self,
        alloc: Global,
        question: &Question<'s, S>,
        concrete: &str,
        nodes: &Nodes<'_, R::Node>,
        site: &Site<S>,
        first: &Spanning<Written<S>, Span>,
    ) -> Result<Replies<R::Node, S>, ResolveError<S>>
        requires asked { IsFieldAsked S.shown self.now.schema.now self.now.variables.now concrete.now question.now site.now first.now }
        requires some { AreSome nodes.now }
        ensures { AreReplied S.shown (service_reply R.meaning S.shown self.now concrete.now (head_of S.shown first.now)) nodes.now result }
    {
        match &question.arguments {
            Some(arguments) => {
                self.resolve_with(alloc, question, arguments, concrete, nodes, site, first)
            }
            None => {
                let declared = arguments_of(question.declaration);
                let arguments = coerce_arguments(alloc, declared, first, self.variables)?;
                self.resolve_with(alloc, question, &arguments, concrete, nodes, site, first)
            }
        }
    }

    /// The same with these arguments.
    fn resolve_with(
        &self,
        alloc: Global,
        question: &Question<'s, S>,
        arguments: &Arguments<S>,
        concrete: &str,
        nodes: &Nodes<'_, R::Node>,
        site: &Site<S>,
        first: &Spanning<Written<S>, Span>,
    ) -> Result<Replies<R::Node, S>, ResolveError<S>>
        requires asked { IsFieldAsked S.shown self.now.schema.now self.now.variables.now concrete.now question.now site.now first.now }
        requires some { AreSome nodes.now }
        requires arguments { view_arguments S.shown arguments.now ≡ meant_arguments (view_schema S.shown self.now.schema.now)
            (view_variables S.shown self.now.variables.now) concrete.now (head_of S.shown first.now) }
        ensures { AreReplied S.shown (service_reply R.meaning S.shown self.now concrete.now (head_of S.shown first.now)) nodes.now result }
    {
        let executor = Executor::at_field(
            self.context,
            self.schema,
            self.variables,
            site.fragments,
            site.path,
            &question.shown,
            concrete,
            site.enclosing,
            site.occurrences,
        );
        let name = first.item.name.item;
        self.resolver
            .resolve(alloc, nodes, name, arguments, &executor)
    }
}

/// What `__typename` answers: the name of the object type (4.1).
pub(crate) fn type_name<N: Drop, S: ScalarValue>(
    alloc: Global,
    concrete: &str,
) -> Result<Resolved<N, S>, ResolveError<S>>
    ensures { Answers S.shown result (answered (leaf (text concrete.now))) }
{
    let name = String::from_str(alloc, concrete)?;
    Ok(Resolved::Scalar(S::from_text(name)?))
}

/// The same of each of these nodes.
fn type_names<N: Drop, S: ScalarValue>(
    alloc: Global,
    concrete: &str,
    nodes: &Nodes<'_, N>,
) -> Result<Replies<N, S>, ResolveError<S>>
    ensures { AreReplied S.shown (λ m. answered (leaf (text concrete.now))) nodes.now result }
{
    match nodes {
        Nodes::One(_) => Ok(Replies::One(type_name(alloc, concrete)?)),
        Nodes::Many(nodes) => Ok(Replies::Many(all_type_names(alloc, concrete, nodes)?)),
    }
}

/// The same of each of many.
fn all_type_names<N: Drop, S: ScalarValue>(
    alloc: Global,
    concrete: &str,
    nodes: &[&N],
) -> Result<Vec<Result<Resolved<N, S>, ResolveError<S>>>, AllocError>
    ensures { IfOk result (λ made. AllAnswer S.shown (λ m. answered (leaf (text concrete.now))) (map (λ n. n.now) nodes.now) made.items) }
{
    let mut made = Vec::with_capacity(alloc, nodes.len())?;
    for _node in nodes {
        let answer = type_name(alloc, concrete);
        made.push(answer)?;
    }
    Ok(made)
}
