//! Requests over HTTP, answered by an endpoint.

ghost use Rattle.std.specs.Prelude.{◌≡◌, [], ◌++◌, IsErr, OnErr, OnOk};
ghost use Rattle.http_server.specs.Response.{fields_of};
ghost use Rattle.juniper_request.specs.Requests.{request_in, view_body, view_request};
ghost use Rattle.serde_json.specs.View.{view};
ghost use Rattle.juniper_http.specs.Guards.{IsNoRequest, MayPutNothing};
ghost use Rattle.juniper_http.specs.Served.{Follows, Puts, PutsBody, PutsOne, Serves, ServesBehind, closing, service_over};

use crate::batch::put_each;
use crate::endpoint::Endpoint;
use crate::media::MediaType;
use crate::origins::AllowedOrigins;
use crate::plan::{Limits, Plan, plan_of};
use crate::refusal::Refusal;
use crate::respond::{answer_or_fail, refuse, show_page, tell_methods};
use bytes::Bytes;
use http::{HeaderValue, Request, header};
use http_server::{Response, Service};
use juniper_request::{GraphQLBatchRequest, GraphQLRequest, request_of};
use serde_json::Value;
use std::alloc::{AllocError, Global};

/// GraphQL over HTTP, over an endpoint.
#[derive(Drop)]
pub struct GraphQLService<'o, E> {
    /// Where memory comes from.
    pub alloc: Global,
    /// What answers requests.
    pub endpoint: E,
    /// The limits of requests.
    pub limits: Limits,
    /// Whether each answer is the last of its connection.
    pub closes: bool,
    /// The origins whose pages may read answers.
    pub origins: AllowedOrigins<'o>,
}

impl<E: Endpoint> Service for GraphQLService<'_, E> {
    ghost answers = { λ old request response new. Serves E.replies old request response new };

    fn call(
        &mut self,
        request: &Request<Bytes>,
        response: &mut Response,
    ) -> Result<(), AllocError> {
        self.say_closing(response)?;
        self.origins.say(request, response)?;
        self.serve(request, response)
    }
}

impl<'o, E: Endpoint> GraphQLService<'o, E> {
    /// A service over an endpoint that keeps connections, and says nothing of origins.
    pub fn new(alloc: Global, endpoint: E, limits: Limits) -> GraphQLService<'o, E>
        ensures { result ≡ service_over alloc endpoint limits }
    {
        GraphQLService {
            alloc,
            endpoint,
            limits,
            closes: false,
            origins: AllowedOrigins::Own,
        }
    }

    /// Serves a request behind the fields that a response has.
    fn serve(&mut self, request: &Request<Bytes>, response: &mut Response) -> Result<(), AllocError>
        requires status { response.old.status ≡ 200 }
        requires body { response.old.body.items ≡ [] }
        ensures ok { OnOk result (ServesBehind E.replies (fields_of response.old) self.old request.now response.new self.new) }
        ensures err { OnErr result (self.new ≡ self.old) }
    {
        let plan = plan_of(self.alloc, request, &self.limits)?;
        self.follow(plan, response)
    }

    /// Does what is planned for a request, and fills a response with what comes of it.
    pub(crate) fn follow(&mut self, plan: Plan, response: &mut Response) -> Result<(), AllocError>
        requires status { response.old.status ≡ 200 }
        requires body { response.old.body.items ≡ [] }
        ensures ok { OnOk result (Follows E.replies self.old.limits.max_answer_len (fields_of response.old) plan self.old.endpoint response.new
            self.new.endpoint) }
        ensures rest { self.new ≡ record self.old { endpoint = self.new.endpoint } }
        ensures err { OnErr result (self.new ≡ self.old) }
        ensures only { OnErr result (MayPutNothing plan) }
    {
        match plan {
            Plan::Page => show_page(response),
            Plan::Methods => tell_methods(response),
            Plan::Refuse(refusal) => refuse(self.alloc, response, refusal),
            Plan::Ask(media, parts, may_write) => {
                self.put(media, &parts.request(), may_write, response);
                Ok(())
            }
            Plan::Post(media, body) => self.put_body(media, &body, response),
        }
    }

    /// Says that the connection closes, where it does.
    pub(crate) fn say_closing(&self, response: &mut Response) -> Result<(), AllocError>
        ensures fields { OnOk result (fields_of response.new ≡ fields_of response.old ++ closing self.now.closes) }
        ensures status { response.new.status ≡ response.old.status }
        ensures body { response.new.body ≡ response.old.body }
    {
        if self.closes {
            response.add_header(header::CONNECTION, HeaderValue::from_static("close"))?;
        }
        Ok(())
    }

    /// Puts one request, and fills a response with the reply.
    fn put(
        &mut self,
        media: MediaType,
        request: &GraphQLRequest<'_>,
        may_write: bool,
        response: &mut Response,
    )
        requires { response.old.body.items ≡ [] }
        ensures said { Puts E.replies (fields_of response.old) media (view_request request.now) may_write self.old.endpoint response.new self.new.endpoint }
        ensures rest { self.new ≡ record self.old { endpoint = self.new.endpoint } }
    {
        let reply = self.endpoint.reply(self.alloc, request, may_write);
        answer_or_fail(response, media, reply);
    }

    /// Puts the requests of a `POST`, and fills a response with the replies.
    fn put_body(
        &mut self,
        media: MediaType,
        body: &GraphQLBatchRequest,
        response: &mut Response,
    ) -> Result<(), AllocError>
        requires { response.old.body.items ≡ [] }
        ensures ok { OnOk result (PutsBody E.replies self.old.limits.max_answer_len (fields_of response.old) media (view_body body.now) self.old.endpoint
            response.new self.new.endpoint) }
        ensures rest { self.new ≡ record self.old { endpoint = self.new.endpoint } }
        ensures err { OnErr result (self.new ≡ self.old) }
        ensures only { OnErr result (IsNoRequest (view_body body.now)) }
    {
        match body {
            GraphQLBatchRequest::Single(json) => self.put_json(media, json, response),
            GraphQLBatchRequest::Batch(members) => {
                let reply = put_each(
                    &mut self.endpoint,
                    self.alloc,
                    members,
                    self.limits.max_answer_len,
                );
                answer_or_fail(response, media, reply);
                Ok(())
            }
        }
    }

    /// Puts the request that JSON is, and fills a response with the reply.
    fn put_json(
        &mut self,
        media: MediaType,
        json: &Value,
        response: &mut Response,
    ) -> Result<(), AllocError>
        requires { response.old.body.items ≡ [] }
        ensures ok { OnOk result
            (PutsOne E.replies (fields_of response.old) media (request_in (view json.now)) self.old.endpoint response.new self.new.endpoint) }
        ensures rest { self.new ≡ record self.old { endpoint = self.new.endpoint } }
        ensures err { OnErr result (self.new ≡ self.old) }
        ensures only { OnErr result (IsErr (request_in (view json.now))) }
    {
        match request_of(json) {
            Ok(request) => {
                self.put(media, &request, true, response);
                Ok(())
            }
            Err(error) => refuse(self.alloc, response, Refusal::NotARequest(error)),
        }
    }
}
