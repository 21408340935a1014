//! The resolvers of the tracker: what each field answers, and what each mutation leaves (sections 6.2.2 and 6.4.2 of the Specification).

ghost use Rattle.std.specs.Prelude.{◌≡◌, IfOk, eqb, option_map, string_bytes};
ghost use Rattle.juniper.specs.Server.{Answers, Leaves, Reads, Text, id_text, starts_with, view_arguments};
ghost use Rattle.juniper_tracker.specs.Replies as reply;
ghost use Rattle.juniper_tracker.specs.declared.resolvers.Node.TheVariants as at;

use crate::tracker::{Issue, State, Tracker, User, Word};
use juniper::words::{
    Answer, EnumType, InputType, MutationType, QueryType, argument, boolean, count,
    fails_with_code, found_or, found_or_code, given, input_field, nodes, nodes_at, nodes_where,
    null, object, object_or_null, text, text_or_null, unanswered, value,
};
use juniper::{Arguments, Executor, ID, InputValue, ResolveError, ScalarValue};
use std::alloc::{AllocError, Global};

/// An object, by its place in a table; a connection by its page.
#[derive(Clone, Copy, Debug, PartialEq, Eq, Drop)]
pub enum Node {
    Query,
    User(usize),
    Issue(usize),
    Connection(Page),
}

/// `type Query`.
#[derive(Drop)]
pub struct Query;

impl<S: ScalarValue> QueryType<S> for Query {
    type Context = Tracker;

    type Node = Node;

    ghost concrete = { reply.concrete_type };

    ghost answer = { reply.reply };

    ghost root = { λ _. at.Query };

    fn root_node(&self) -> &Node {
        &Node::Query
    }

    fn concrete_type_name(node: &Node) -> &'static str {
        match node {
            Node::Query => "Query",
            Node::User(_) => "User",
            Node::Issue(_) => "Issue",
            Node::Connection(_) => "IssueConnection",
        }
    }

    fn resolve_field(
        alloc: Global,
        node: &Node,
        field_name: &str,
        arguments: &Arguments<'_, S>,
        executor: &Executor<Tracker, S>,
    ) -> Answer<Node, S> {
        let tracker = executor.context();
        match *node {
            Node::Query => query_field(alloc, tracker, field_name, arguments),
            Node::User(place) => match tracker.users.get(place) {
                None => null(),
                Some(user) => user_field(alloc, user, field_name),
            },
            Node::Issue(place) => match tracker.issues.get(place) {
                None => null(),
                Some(issue) => issue_field(alloc, issue, field_name),
            },
            Node::Connection(page) => page.field(alloc, tracker, field_name),
        }
    }
}

/// A field of `User`.
fn user_field<S: ScalarValue>(alloc: Global, user: &User, name: &str) -> Answer<Node, S>
    ensures { Answers S.shown result (reply.user_field user.now name.now) }
{
    match name {
        "id" => text(alloc, user.id.text.as_str()),
        "login" => text(alloc, user.login.text.as_str()),
        "email" => match &user.email {
            None => fails_with_code(alloc, "The address is not public", "FORBIDDEN"),
            Some(email) => text(alloc, email.text.as_str()),
        },
        _ => unanswered(alloc),
    }
}

/// A field of `Issue`.
fn issue_field<S: ScalarValue>(alloc: Global, issue: &Issue, name: &str) -> Answer<Node, S>
    ensures { Answers S.shown result (reply.issue_field issue.now name.now) }
{
    match name {
        "id" => text(alloc, issue.id.text.as_str()),
        "author" => object(Node::User(issue.author)),
        "title" => text(alloc, issue.title.text.as_str()),
        "state" => value(alloc, issue.state),
        "color" => text(alloc, issue.color.text.as_str()),
        _ => unanswered(alloc),
    }
}

/// A field of `Query`.
fn query_field<S: ScalarValue>(
    alloc: Global,
    tracker: &Tracker,
    field_name: &str,
    arguments: &Arguments<'_, S>,
) -> Answer<Node, S>
    ensures { Answers S.shown result (reply.query_field tracker.now field_name.now (view_arguments S.shown arguments.now)) }
{
    match field_name {
        "issues" => {
            let filter = given(alloc, arguments, "filter")?;
            let first = argument(alloc, arguments, "first")?;
            let after = argument(alloc, arguments, "after")?;
            object(Node::Connection(Page::asked(alloc, tracker, filter, first, after)?))
        }
        "issue" => {
            let id: ID = given(alloc, arguments, "id")?;
            object_or_null(tracker.issue_of(id.as_str()).map(Node::Issue))
        }
        "node" => {
            let id: ID = given(alloc, arguments, "id")?;
            let issue = tracker.issue_of(id.as_str()).map(Node::Issue);
            let user = tracker.user_of(id.as_str()).map(Node::User);
            object_or_null(issue.or(user))
        }
        "search" => {
            let needle: String = given(alloc, arguments, "text")?;
            nodes(alloc, &found(alloc, tracker, needle.as_str())?)
        }
        _ => unanswered(alloc),
    }
}

/// Issues whose title begins so, and users whose login does.
fn found(alloc: Global, tracker: &Tracker, needle: &str) -> Result<Vec<Node>, AllocError>
    ensures { IfOk result (λ nodes. nodes.items ≡ reply.found tracker.now needle.now) }
{
    let titled = |issue: &Issue| begins(&issue.title, needle);
    let named = |user: &User| begins(&user.login, needle);
    let mut found = nodes_where(alloc, &tracker.issues, Node::Issue, titled)?;
    found.append(&mut nodes_where(alloc, &tracker.users, Node::User, named)?)?;
    Ok(found)
}

/// Whether a word begins so.
#[tactic(auto, using(std::proofs::lemmas::Str::Pattern::starts_text))]
fn begins(word: &Word, needle: &str) -> bool
    ensures { result ≡ starts_with eqb word.now needle.now }
{
    word.text.starts_with(needle)
}

/// `input IssueFilter { states: [State!]!, author: ID }`, as it is read.
#[derive(Drop)]
pub struct IssueFilter {
    states: Vec<State>,
    author: Option<ID>,
}

impl<S: ScalarValue> InputType<S> for IssueFilter {
    ghost Seen = { reply.Filter };

    ghost seen = { reply.seen_filter };

    ghost read = { reply.read_filter };

    fn read_input(alloc: Global, value: &InputValue<S>) -> Result<IssueFilter, ResolveError<S>> {
        Ok(IssueFilter {
            states: input_field(alloc, value, "states")?,
            author: input_field(alloc, value, "author")?,
        })
    }
}

/// A page of issues: of which states and which author they are, behind which they stand, and how many are shown.
#[derive(Clone, Copy, Debug, PartialEq, Eq, Drop)]
pub struct Page {
    takes_open: bool,
    takes_closed: bool,
    author: Option<usize>,
    after: Option<usize>,
    first: usize,
}

impl Page {
    /// The page that a filter, a number and a cursor ask for.
    fn asked<S: ScalarValue>(
        alloc: Global,
        tracker: &Tracker,
        filter: IssueFilter,
        first: Option<i32>,
        after: Option<ID>,
    ) -> Result<Page, ResolveError<S>>
        ensures { Reads S.shown result (reply.asked tracker.now (reply.seen_filter filter) first (option_map id_text after)) }
    {
        let IssueFilter { states, author } = filter;
        let author = author.map(|id| tracker.user_of(id.as_str()));
        let after = after.map(|id| tracker.issue_of(id.as_str()));
        let first = size(first.unwrap_or(10));
        Ok(Page {
            takes_open: is_among(&states, State::Open),
            takes_closed: is_among(&states, State::Closed),
            author: if_asked(alloc, author, "Unknown author")?,
            after: if_asked(alloc, after, "Unknown cursor")?,
            first: found_or_code(alloc, first, "`first` is from 0 to 100", "BAD_USER_INPUT")?,
        })
    }

    /// Whether an issue at a place is one of those that are asked for.
    fn lists(self, place: usize, issue: &Issue) -> bool
        ensures { result ≡ reply.lists self place issue.now }
    {
        let is_taken = match issue.state {
            State::Open => self.takes_open,
            State::Closed => self.takes_closed,
        };
        is_taken
            && self.after.is_none_or(|after| place > after)
            && self.author.is_none_or(|author| issue.author == author)
    }

    /// The places of all of them.
    fn places(self, alloc: Global, tracker: &Tracker) -> Result<Vec<usize>, AllocError>
        ensures { IfOk result (λ places. places.items ≡ reply.places tracker.now self) }
    {
        let issues = tracker.issues.iter().enumerate();
        let listed = issues.filter(|entry| self.lists(entry.0, entry.1));
        listed.map(|entry| entry.0).collect(alloc)
    }

    /// The places of those that are shown.
    fn shown(self, alloc: Global, tracker: &Tracker) -> Result<Vec<usize>, AllocError>
        ensures { IfOk result (λ places. places.items ≡ reply.shown tracker.now self) }
    {
        let mut places = self.places(alloc, tracker)?;
        places.truncate(self.first);
        Ok(places)
    }

    /// A field of `IssueConnection`.
    fn field<S: ScalarValue>(self, alloc: Global, tracker: &Tracker, name: &str) -> Answer<Node, S>
        ensures { Answers S.shown result (reply.connection_field tracker.now self name.now) }
    {
        match name {
            "nodes" => nodes(
                alloc,
                &nodes_at(alloc, &self.shown(alloc, tracker)?, Node::Issue)?,
            ),
            "totalCount" => {
                let mut whole = self;
                whole.after = None;
                count(alloc, whole.places(alloc, tracker)?.len())
            }
            "hasNextPage" => boolean(self.places(alloc, tracker)?.len() > self.first),
            "endCursor" => {
                let last = self.shown(alloc, tracker)?.last().copied();
                text_or_null(alloc, tracker.cursor(last))
            }
            _ => unanswered(alloc),
        }
    }
}

/// Whether a state is one of these.
fn is_among(states: &[State], state: State) -> bool
    ensures { result ≡ reply.is_among states.now state }
{
    let mut states = states.iter();
    states.any(|other| other.value_name() == state.value_name())
}

/// A place that is asked for, where one is; an error where it is unknown.
fn if_asked<S: ScalarValue>(
    alloc: Global,
    asked: Option<Option<usize>>,
    message: &str,
) -> Result<Option<usize>, ResolveError<S>>
    ensures { Reads S.shown result (reply.if_asked message.now asked) }
{
    match asked {
        None => Ok(None),
        Some(found) => Ok(Some(found_or_code(alloc, found, message, "NOT_FOUND")?)),
    }
}

/// A number of issues that a page may show.
fn size(first: i32) -> Option<usize>
    ensures { result ≡ reply.size first }
{
    match usize::try_from(first) {
        Ok(size) if size <= 100 => Some(size),
        _ => None,
    }
}

/// `scalar Color`, as it is read.
#[derive(Drop)]
pub struct Color {
    text: String,
}

impl<S: ScalarValue> InputType<S> for Color {
    ghost Seen = { Text };

    ghost seen = { λ c. string_bytes c.text };

    ghost read = { reply.read_color };

    fn read_input(alloc: Global, value: &InputValue<S>) -> Result<Color, ResolveError<S>> {
        let text = <String as InputType<S>>::read_input(alloc, value)?;
        let color = color_of(text.as_str());
        let color = found_or(alloc, color, "Expected `Color` as `#rrggbb`")?;
        let text = String::from_str(alloc, color)?;
        Ok(Color { text })
    }
}

/// A text that is `#` and six hexadecimal digits.
fn color_of(text: &str) -> Option<&str>
    ensures { option_map (λ t. t.now) result ≡ reply.color_of text.now }
{
    match text.as_bytes() {
        [b'#', digits @ ..] if digits.len() == 6 && are_digits(digits) => Some(text),
        _ => None,
    }
}

/// Whether all of these are hexadecimal digits.
fn are_digits(digits: &[u8]) -> bool
    ensures { result ≡ reply.are_digits digits.now }
{
    digits.iter().all(|digit| digit.is_ascii_hexdigit())
}

/// `input CreateIssueInput { title: String!, author: ID!, color: Color! }`, as it is read.
#[derive(Drop)]
pub struct NewIssue {
    title: String,
    author: ID,
    color: Color,
}

impl<S: ScalarValue> InputType<S> for NewIssue {
    ghost Seen = { reply.Draft };

    ghost seen = { reply.seen_issue };

    ghost read = { reply.read_issue };

    fn read_input(alloc: Global, value: &InputValue<S>) -> Result<NewIssue, ResolveError<S>> {
        Ok(NewIssue {
            title: input_field(alloc, value, "title")?,
            author: input_field(alloc, value, "author")?,
            color: input_field(alloc, value, "color")?,
        })
    }
}

/// `type Mutation`.
#[derive(Drop)]
pub struct Mutation;

impl<S: ScalarValue> MutationType<S> for Mutation {
    type Context = Tracker;

    type Node = Node;

    ghost step = { reply.step };

    ghost torn = { reply.torn };

    #[tactic(auto, using(crate::proofs::Torn::nothing_torn))]
    fn resolve_root(
        alloc: Global,
        field_name: &str,
        arguments: &Arguments<'_, S>,
        _executor: &Executor<(), S>,
        tracker: &mut Tracker,
    ) -> Answer<Node, S> {
        match field_name {
            "createIssue" => tracker.create_issue(alloc, given(alloc, arguments, "input")?),
            "setState" => {
                let id = given(alloc, arguments, "id")?;
                tracker.set_state(alloc, id, given(alloc, arguments, "state")?)
            }
            _ => unanswered(alloc),
        }
    }
}

impl Tracker {
    /// An issue behind the others, whose number is made of its place.
    #[tactic(auto, using(crate::proofs::Torn::nothing_torn))]
    fn create_issue<S: ScalarValue>(&mut self, alloc: Global, new: NewIssue) -> Answer<Node, S>
        ensures answer { Answers S.shown result (reply.create_issue self.old (reply.seen_issue new)).1 }
        ensures context { Leaves (reply.create_issue self.old (reply.seen_issue new)).0 (reply.torn self.old) result self.new }
    {
        let NewIssue {
            title,
            author,
            color,
        } = new;
        let author = self.user_of(author.as_str());
        let author = found_or_code(alloc, author, "Unknown author", "NOT_FOUND")?;
        let place = self.issues.len();
        let id = format!(in alloc; "new-{place}")?;
        self.issues.push(Issue {
            id: Word { text: id },
            title: Word { text: title },
            state: State::Open,
            color: Word { text: color.text },
            author,
        })?;
        object(Node::Issue(place))
    }

    /// The issue in this state.
    #[tactic(auto, using(crate::proofs::Torn::nothing_torn))]
    fn set_state<S: ScalarValue>(&mut self, alloc: Global, id: ID, state: State) -> Answer<Node, S>
        ensures answer { Answers S.shown result (reply.set_state self.old (id_text id) state).1 }
        ensures context { Leaves (reply.set_state self.old (id_text id) state).0 (reply.torn self.old) result self.new }
    {
        let place = self.issue_of(id.as_str());
        let place = found_or_code(alloc, place, "Unknown issue", "NOT_FOUND")?;
        if let Some(issue) = self.issues.get_mut(place) {
            issue.state = state;
        }
        object(Node::Issue(place))
    }
}
