//! What is to be done for a request, by what is known of its head.

ghost use Rattle.std.specs.Prelude.{◌≡◌};
ghost use Rattle.juniper_http.specs.Decisions.{PostsToWrite, step_of};

use crate::media::MediaType;
use crate::refusal::Refusal;
use juniper_request::RequestError;

/// What a method asks for.
#[derive(Clone, Copy, Debug, PartialEq, Eq, Drop)]
pub enum Verb {
    /// `GET` and `HEAD`.
    Reads,
    /// `POST`.
    Posts,
    /// `OPTIONS`: which methods are answered.
    AsksMethods,
    /// Any other.
    Other,
}

/// What the fields of a request say of its body.
#[derive(Clone, Copy, Debug, PartialEq, Eq, Drop)]
pub enum Body {
    /// JSON in UTF-8.
    Json,
    /// The text of a document, in UTF-8.
    Document,
    /// It has a coding, such as gzip.
    Coded,
    /// Anything else, or nothing.
    Other,
}

/// What is known of a request's head.
#[derive(Clone, Copy, Debug)]
pub struct Facts {
    /// What its method asks for.
    pub verb: Verb,
    /// Whether there is an answer to what it asks for at its path.
    pub is_known_path: bool,
    /// Whether its target has a query.
    pub has_query: bool,
    /// Whether it says what it takes.
    pub has_accept: bool,
    /// The media type that it takes, where it says so.
    pub media: Option<MediaType>,
    /// Whether it takes a page before any answer.
    pub wants_page: bool,
    /// What its body is.
    pub body: Body,
    /// Whether its body is within the limit.
    pub fits: bool,
}

/// What is to be done next.
#[derive(Clone, Copy, Debug, PartialEq, Eq, Drop)]
pub enum Step {
    /// The page is shown.
    ShowPage,
    /// The methods that are answered are told.
    TellMethods,
    /// The request is refused.
    Refuse(Refusal),
    /// The query of the target is read; what it asks may not write.
    ReadQuery(MediaType),
    /// The body is read as JSON.
    ReadJson(MediaType),
    /// The body is read as the text of a document.
    ReadDocument(MediaType),
}

/// What is to be done for a request of which this is known.
pub fn decide(facts: &Facts) -> Step
    ensures table { result ≡ step_of facts.now }
    ensures posts { PostsToWrite facts.now.verb result }
{
    if !facts.is_known_path {
        return Step::Refuse(Refusal::NotFound);
    }
    let media = match (facts.has_accept, facts.media) {
        (false, _) => Some(MediaType::GraphqlResponse),
        (true, media) => media,
    };
    match facts.verb {
        Verb::Other => Step::Refuse(Refusal::Method),
        Verb::AsksMethods => Step::TellMethods,
        Verb::Reads if !facts.has_query && facts.has_accept && facts.wants_page => Step::ShowPage,
        Verb::Reads => match media {
            None => Step::Refuse(Refusal::NotAcceptable),
            Some(_) if !facts.has_query => Step::Refuse(Refusal::NotARequest(RequestError::Query)),
            Some(media) => Step::ReadQuery(media),
        },
        Verb::Posts => match media {
            None => Step::Refuse(Refusal::NotAcceptable),
            Some(_) if !facts.fits => Step::Refuse(Refusal::TooLarge),
            Some(media) => match facts.body {
                Body::Json => Step::ReadJson(media),
                Body::Document => Step::ReadDocument(media),
                Body::Coded => Step::Refuse(Refusal::Coding),
                Body::Other => Step::Refuse(Refusal::MediaType),
            },
        },
    }
}
