//! What is done with a cache of texts (section 6.1 of the Specification).

ghost use Rattle.std.specs.Prelude.{◌≡◌, [], IfOk, OnErr, OnOk, Some, cond};
ghost use Rattle.std.specs.NonZero.{non_zero_usize_get};
ghost use Rattle.graphql_spec.specs.Documents as documents;
ghost use Rattle.graphql_spec.specs.Outcomes.{Reads};
ghost use Rattle.juniper.specs.Answering.{AnswersAs, request_of};
ghost use Rattle.juniper.specs.Promised.{IsFullOutcome};
ghost use Rattle.juniper.specs.RootView.{service_of};
ghost use Rattle.juniper_cache.specs.Answers.{IsAnswer};
ghost use Rattle.juniper_cache.specs.Texts.{AreLeft, has_kept, once_used};
ghost use Rattle.juniper_cache.specs.TextsView.{Admits, bounds_within, most_texts, served_root, texts_in};

use crate::text_cache::TextCache;
use juniper::{
    Bounds, ExecutionError, GraphQLError, GraphQLMutationValue, GraphQLType, GraphQLValue,
    Objection, RootNode, ScalarValue, Value, Variables, execute_document, execute_prepared,
    parse_document_source, prepare,
};
use lru::LruCache;
use std::alloc::{AllocError, Global};
use std::hash::RandomState;
use std::num::NonZeroUsize;

impl<'r, Q: GraphQLValue<S>, M: GraphQLType<S>, Sub: GraphQLType<S>, S: ScalarValue> TextCache<
    'r,
    Q,
    M,
    Sub,
    S,
> {
    /// A cache that keeps nothing yet, and at most so many texts, for a root. It takes texts within the bounds, so what it keeps has at
    /// most so many times their bytes. It finds texts by hashes with these keys: let them be random, so that nobody can choose texts whose
    /// hashes collide. An error where memory for its places is refused, of which it takes most at once.
    pub fn new(
        alloc: Global,
        root: &'r RootNode<Q, M, Sub, S>,
        bounds: Bounds,
        most: NonZeroUsize,
        keys: RandomState,
    ) -> Result<Self, AllocError>
        ensures root { IfOk result (λ c. served_root c ≡ root.now) }
        ensures bounds { IfOk result (λ c. bounds_within c ≡ bounds) }
        ensures most { IfOk result (λ c. most_texts c ≡ non_zero_usize_get most) }
        ensures texts { IfOk result (λ c. texts_in c ≡ []) }
    {
        let kept = LruCache::with_hasher(alloc, most, keys)?;
        Ok(TextCache { root, bounds, kept })
    }

    /// Whether a text is kept. To ask this is no use of it.
    pub fn is_kept(&self, text: &str) -> bool
        ensures { result ≡ has_kept (texts_in self.now) text.now }
    {
        self.kept.contains(text)
    }

    /// Uses a text if it is kept, and answers whether it is.
    fn promote(&mut self, text: &str) -> bool
        ensures root { served_root self.new ≡ served_root self.old }
        ensures bounds { bounds_within self.new ≡ bounds_within self.old }
        ensures most { most_texts self.new ≡ most_texts self.old }
        ensures found { result ≡ has_kept (texts_in self.old) text.now }
        ensures texts { texts_in self.new ≡ cond result (once_used (most_texts self.old) text.now (texts_in self.old)) (texts_in self.old) }
    {
        self.kept.promote(text)
    }

    /// Keeps a text, as the one that is used last. An error where memory is refused, and the same texts are kept.
    fn keep(&mut self, alloc: Global, text: &str) -> Result<(), AllocError>
        requires { Admits S.shown self.old text.now }
        ensures root { served_root self.new ≡ served_root self.old }
        ensures bounds { bounds_within self.new ≡ bounds_within self.old }
        ensures most { most_texts self.new ≡ most_texts self.old }
        ensures ok { OnOk result (texts_in self.new ≡ once_used (most_texts self.old) text.now (texts_in self.old)) }
        ensures err { OnErr result (texts_in self.new ≡ texts_in self.old) }
    {
        let held = String::from_str(alloc, text)?;
        self.kept.put(held, ())?;
        Ok(())
    }
}

impl<
    Q: GraphQLValue<S>,
    M: GraphQLMutationValue<S, Context = Q::Context, Node = Q::Node>,
    Sub: GraphQLType<S>,
    S: ScalarValue,
> TextCache<'_, Q, M, Sub, S> {
    /// Executes a request within the bounds, without validating a text that is kept. What is answered is what `juniper::execute_sync`
    /// answers to the request on the root, its errors as [`Objection::Refused`]; or another [`Objection`], as of `juniper::prepare`, where
    /// a bound is passed, and the context is as it was. A text that is executed is kept from then on, as the one that is used last. Where
    /// memory to keep it is refused the request is not executed; and what cannot be prepared is not kept.
    pub fn answer(
        &mut self,
        alloc: Global,
        text: &str,
        operation_name: Option<&str>,
        variables: &Variables<S>,
        context: &mut Q::Context,
    ) -> Result<(Value<S>, Vec<ExecutionError<S>>), Objection>
        ensures root { served_root self.new ≡ served_root self.old }
        ensures bounds { bounds_within self.new ≡ bounds_within self.old }
        ensures most { most_texts self.new ≡ most_texts self.old }
        ensures texts { AreLeft (Admits S.shown self.old text.now) (most_texts self.old) text.now (texts_in self.old) result (texts_in self.new) }
        ensures answer { IsAnswer (service_of Q.concrete Q.answer Q.root M.step M.torn S.shown (served_root self.old)) (bounds_within self.old) S.shown
            (request_of S.shown text.now operation_name.entry variables.now) context.old result context.new }
    {
        if text.len() > self.bounds.bytes {
            return Err(Objection::TooLong);
        }
        if !self.promote(text) {
            return self.answer_anew(alloc, text, operation_name, variables, context);
        }
        match self.answer_kept(alloc, text, operation_name, variables, context) {
            Err(error) => Err(Objection::Refused(error)),
            Ok(answered) => Ok(answered),
        }
    }

    /// Executes a request whose text is not kept, and keeps it.
    fn answer_anew(
        &mut self,
        alloc: Global,
        text: &str,
        operation_name: Option<&str>,
        variables: &Variables<S>,
        context: &mut Q::Context,
    ) -> Result<(Value<S>, Vec<ExecutionError<S>>), Objection>
        ensures root { served_root self.new ≡ served_root self.old }
        ensures bounds { bounds_within self.new ≡ bounds_within self.old }
        ensures most { most_texts self.new ≡ most_texts self.old }
        ensures texts { AreLeft (Admits S.shown self.old text.now) (most_texts self.old) text.now (texts_in self.old) result (texts_in self.new) }
        ensures answer { IsAnswer (service_of Q.concrete Q.answer Q.root M.step M.torn S.shown (served_root self.old)) (bounds_within self.old) S.shown
            (request_of S.shown text.now operation_name.entry variables.now) context.old result context.new }
    {
        let prepared = match prepare(alloc, self.root, text, &self.bounds) {
            Err(objection) => return Err(objection),
            Ok(prepared) => prepared,
        };
        match self.keep(alloc, text) {
            Err(_) => return Err(Objection::Refused(GraphQLError::OutOfMemory)),
            Ok(_) => {}
        }
        match execute_prepared(alloc, &prepared, operation_name, variables, context) {
            Err(error) => Err(Objection::Refused(error)),
            Ok(answered) => Ok(answered),
        }
    }

    /// Executes a request whose text is kept. It was read before, so that only memory can be wanting to read it.
    fn answer_kept(
        &self,
        alloc: Global,
        text: &str,
        operation_name: Option<&str>,
        variables: &Variables<S>,
        context: &mut Q::Context,
    ) -> Result<(Value<S>, Vec<ExecutionError<S>>), GraphQLError>
        requires { Admits S.shown self.now text.now }
        ensures read { IfOk result (λ _. (d : documents.Document) × Reads text.now (Some d)) }
        ensures answer { AnswersAs S.shown
            (λ r. IsFullOutcome (service_of Q.concrete Q.answer Q.root M.step M.torn S.shown (served_root self.now))
            (request_of S.shown text.now operation_name.entry variables.now) context.old r context.new) result }
    {
        let document = match parse_document_source(alloc, text) {
            Err(_) => return Err(GraphQLError::OutOfMemory),
            Ok(document) => document,
        };
        match execute_document(
            alloc,
            &document,
            operation_name,
            self.root,
            variables,
            context,
            None,
        ) {
            Err(within) => Err(within.into_error()),
            Ok(answered) => Ok(answered),
        }
    }
}
