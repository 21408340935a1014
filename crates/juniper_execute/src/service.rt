//! What a request asks of its schema, its variables and its resolver (section 6.4 of the Specification).

ghost use Rattle.std.specs.Prelude.{◌≡◌, IsTrue, string_bytes};
ghost use Rattle.graphql_spec.specs.Executable.{is_executable};
ghost use Rattle.graphql_spec.specs.Fields.{is_possible};
ghost use Rattle.juniper_syntax.specs.InputView.{view_variables};
ghost use Rattle.juniper_syntax.specs.TypeView.{view_type};
ghost use Rattle.juniper_schema.specs.SchemaView.{view_schema};
ghost use Rattle.juniper_execute.specs.Questions.{IsQuestion};
ghost use Rattle.juniper_execute.specs.Meanings.{is_undeclared, world_at};

use crate::allowance::Allowance;
use crate::coerce::kept_arguments;
use crate::node_resolver::{NodeResolver, NodeTypes, Nodes, all_replies, only_reply};
use crate::question::{Question, arguments_of, declared_type, shown_type};
use juniper_assemble::Completer;
use juniper_lookahead::Conditions;
use juniper_meta::MetaType;
use juniper_schema::SchemaType;
use juniper_syntax::{Field as Written, ScalarValue, Span, Spanning, Type, Variables};
use juniper_types::first_of;
use juniper_walk::{Asked, AskedAll, Resolver, Site};
use std::alloc::{AllocError, Global};

/// What one request asks for each of its fields.
#[derive(Drop)]
pub(crate) struct Service<'c, 's, R: NodeTypes<S>, S: ScalarValue> {
    pub(crate) resolver: &'c R,
    pub(crate) context: &'c R::Context,
    pub(crate) variables: &'c Variables<S>,
    /// What it may make of arguments.
    pub(crate) allowance: &'c Allowance,
    pub(crate) schema: &'s SchemaType<S>,
    /// What resolvers are shown as the type of a field that is not declared, which no valid document has.
    pub(crate) query_type: &'s MetaType<S>,
    /// Its declared type.
    pub(crate) undeclared: &'s Type<String>,
    ghost executable: { IsTrue (is_executable (view_schema S.shown schema.now)) },
    ghost unnamed: { IsTrue (is_undeclared (view_type (λ n. string_bytes n) undeclared.now)) },
}

impl<'c, 's, R: NodeTypes<S>, S: ScalarValue> Conditions for Service<'c, 's, R, S> {
    ghost possible = { λ r. is_possible (view_schema S.shown r.schema.now) };

    fn is_possible(&self, concrete: &str, condition: &str) -> bool {
        self.schema.is_possible(concrete, condition)
    }
}

impl<'c, 's, R: NodeTypes<S>, S: ScalarValue> Completer<S> for Service<'c, 's, R, S> {
    type Node = R::Node;

    ghost world = { λ r. world_at (R.meaning r.resolver.now) (view_schema S.shown r.schema.now) (view_variables S.shown r.variables.now) r.context.now };

    #[tactic(auto, unfolding(graphql_spec::specs::Resolvers::world_of))]
    fn accepts(&self, type_name: &str, scalar: &S) -> bool {
        self.schema.may_hold(type_name, scalar)
    }

    #[tactic(auto, unfolding(graphql_spec::specs::Resolvers::world_of))]
    fn takes_node(&self, type_name: &str, node: &Self::Node) -> bool {
        let concrete = self.resolver.concrete_type_name(self.context, node);
        self.schema.is_possible(concrete, type_name)
    }
}

impl<'c, 's, R: NodeResolver<S>, S: ScalarValue> Resolver<S> for Service<'c, 's, R, S> {
    type Question = Question<'s, S>;

    ghost asks = { λ r. IsQuestion S.shown (view_schema S.shown r.schema.now) (view_variables S.shown r.variables.now) };

    ghost values = { λ r. r.variables.now };

    fn question(
        &self,
        alloc: Global,
        concrete: &str,
        field: &Spanning<Written<S>, Span>,
        room: usize,
    ) -> Result<Question<'s, S>, AllocError> {
        let schema = self.schema;
        let declaration = schema.field_of(concrete, field.item.name.item);
        let declared = declared_type(declaration, self.undeclared);
        let of_field = arguments_of(declaration);
        let shown = shown_type(alloc, schema, self.query_type, declared)?;
        let arguments = kept_arguments(
            alloc,
            of_field,
            field,
            self.variables,
            room,
            self.allowance,
        )?;
        Ok(Question {
            declaration,
            declared,
            shown,
            arguments,
        })
    }

    #[tactic(auto, unfolding(graphql_spec::specs::Resolvers::world_of))]
    fn concrete_type_name<'n>(&'n self, node: &'n Self::Node) -> &'n str {
        self.resolver.concrete_type_name(self.context, node)
    }

    fn resolve_field_value<'t, 'd, 'a>(
        &'t self,
        alloc: Global,
        question: &'t Question<'s, S>,
        concrete: &str,
        node: &Self::Node,
        site: &Site<'_, 'd, 'a, S>,
    ) -> Asked<'t, Self::Node, S> {
        let written = first_of(site.occurrences);
        let asked = Nodes::One(node);
        let replied = self.reply(alloc, question, concrete, &asked, site, written);
        let answer = only_reply(replied);
        Asked {
            declared: question.declared,
            answer,
        }
    }

    fn nodes_at_once(&self, concrete: &str) -> usize {
        self.resolver.nodes_at_once(concrete)
    }

    #[tactic(auto, unfolding(graphql_spec::specs::Resolvers::world_of))]
    fn ask_all<'t, 'd, 'a>(
        &'t self,
        alloc: Global,
        question: &'t Question<'s, S>,
        concrete: &str,
        nodes: &Vec<&Self::Node>,
        site: &Site<'_, 'd, 'a, S>,
    ) -> Result<AskedAll<'t, Self::Node, S>, AllocError> {
        let written = first_of(site.occurrences);
        let asked = Nodes::Many(nodes);
        let replied = self.reply(alloc, question, concrete, &asked, site, written);
        let answers = all_replies(replied)?;
        Ok(AskedAll {
            declared: question.declared,
            answers,
        })
    }
}
