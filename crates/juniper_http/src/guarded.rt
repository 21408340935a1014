//! Requests over HTTP, answered by an endpoint that looks at who asks.

ghost use Rattle.std.specs.Prelude.{◌≡◌, [], ℕ, List, OnErr, OnOk, Result, Some};
ghost use Rattle.http.specs.declared.request.Request.{Request};
ghost use Rattle.http_server.specs.Response.{fields_of};
ghost use Rattle.juniper_http.specs.Guards.{FollowsGuarded, FollowsVerdict, ServesGuarded, ServesGuardedBehind, asked_media};
ghost use Rattle.juniper_http.specs.Served.{service_over};
ghost use Rattle.juniper_http.specs.declared.denial.Denial.{Denial};

use crate::denial::Denial;
use crate::endpoint::Endpoint;
use crate::media::MediaType;
use crate::plan::{Limits, Plan, plan_of};
use crate::respond::{deny_or_fail, fail};
use crate::service::GraphQLService;
use bytes::Bytes;
use http::Request;
use http_server::{Response, Service};
use std::alloc::{AllocError, Global};

/// Looks at who asks, before anything of a request is put to the endpoint that it is.
pub trait Guarded {
    // From the first state, this is the verdict on the request, and it leaves the second state.
    ghost admits: { Self → Request (List ℕ) → Result (Unit {0}) Denial → Self → Type 0 };

    /// Admits whoever sends a request, or denies. It is asked once for each request over HTTP that asks something, also for a batch, and
    /// never for one that HTTP itself refuses, nor for the page or `OPTIONS`. What the request asks is no reason to deny it: its head is.
    fn admit(&mut self, alloc: Global, request: &Request<Bytes>) -> Result<(), Denial>
        ensures { admits self.old request.now result self.new };
}

/// GraphQL over HTTP, over an endpoint that looks at who asks: whoever is denied is answered so, and nothing is put to the endpoint.
#[derive(Drop)]
pub struct GuardedService<'o, E> {
    /// What answers whoever is admitted, and all that asks nothing.
    pub service: GraphQLService<'o, E>,
}

impl<E: Endpoint + Guarded> Service for GuardedService<'_, E> {
    ghost answers = { λ old request response new. ServesGuarded E.admits E.replies old request response new };

    fn call(
        &mut self,
        request: &Request<Bytes>,
        response: &mut Response,
    ) -> Result<(), AllocError> {
        self.service.say_closing(response)?;
        self.service.origins.say(request, response)?;
        self.serve(request, response)
    }
}

impl<'o, E: Endpoint + Guarded> GuardedService<'o, E> {
    /// A service over an endpoint that keeps connections, and says nothing of origins.
    pub fn new(alloc: Global, endpoint: E, limits: Limits) -> GuardedService<'o, E>
        ensures { result.service ≡ service_over alloc endpoint limits }
    {
        GuardedService {
            service: GraphQLService::new(alloc, endpoint, limits),
        }
    }

    /// Serves a request behind the fields that a response has.
    fn serve(&mut self, request: &Request<Bytes>, response: &mut Response) -> Result<(), AllocError>
        requires status { response.old.status ≡ 200 }
        requires body { response.old.body.items ≡ [] }
        ensures ok { OnOk result (ServesGuardedBehind E.admits E.replies (fields_of response.old) self.old request.now response.new self.new) }
        ensures err { OnErr result (self.new ≡ self.old) }
    {
        let plan = plan_of(self.service.alloc, request, &self.service.limits)?;
        match plan.asked_media() {
            None => self.service.follow(plan, response),
            Some(media) => {
                self.ask(request, plan, media, response);
                Ok(())
            }
        }
    }

    /// Follows a plan that asks something, if whoever asks is admitted; else says that it is denied.
    fn ask(
        &mut self,
        request: &Request<Bytes>,
        plan: Plan,
        media: MediaType,
        response: &mut Response,
    )
        requires status { response.old.status ≡ 200 }
        requires body { response.old.body.items ≡ [] }
        ensures said { FollowsGuarded E.admits E.replies self.old.service.limits.max_answer_len (fields_of response.old) request.now plan
            (Some media) self.old.service.endpoint response.new self.new.service.endpoint }
        ensures rest { self.new ≡ record self.old { service = record self.old.service { endpoint = self.new.service.endpoint } } }
    {
        let alloc = self.service.alloc;
        match self.service.endpoint.admit(alloc, request) {
            Ok(()) => {
                if self.service.follow(plan, response).is_err() {
                    fail(response);
                }
            }
            Err(denial) => deny_or_fail(response, media, denial),
        }
    }
}
