//! The tracker, which requests bring along: users and issues, each known by its place in its table.

ghost use Rattle.std.specs.Prelude.{◌≡◌, option_map};
ghost use Rattle.juniper_tracker.specs.Tables as tables;

use juniper::Context;
use juniper::words::EnumType;
use std::marker::Model;

/// `enum State { OPEN CLOSED }`.
#[derive(Clone, Copy, Debug, PartialEq, Eq, Drop)]
pub enum State {
    Open,
    Closed,
}

impl EnumType for State {
    ghost values = { tables.states };

    ghost name_of = { tables.state_name };

    fn values() -> &'static [State] {
        &[State::Open, State::Closed]
    }

    fn value_name(&self) -> &'static str {
        match self {
            State::Open => "OPEN",
            State::Closed => "CLOSED",
        }
    }
}

/// A text that is kept.
#[derive(Drop)]
pub struct Word {
    pub text: String,
}

impl Model for Word {
    ghost use Rattle.std.specs.Prelude.{string_bytes};
    ghost use Rattle.juniper.specs.Server.{Text};

    ghost Value = { Text };

    ghost view = { λ w. string_bytes w.text };
}

/// A user; one without an address does not show it.
#[derive(Drop)]
pub struct User {
    pub id: Word,
    pub login: Word,
    pub email: Option<Word>,
}

/// An issue: its colour is `#rrggbb`, its author a place.
#[derive(Drop)]
pub struct Issue {
    pub id: Word,
    pub title: Word,
    pub state: State,
    pub color: Word,
    pub author: usize,
}

/// The tables.
#[derive(Drop)]
pub struct Tracker {
    pub users: Vec<User>,
    pub issues: Vec<Issue>,
}

impl Model for Tracker {
    ghost use Rattle.juniper_tracker.specs.Tables.{Tables};

    ghost Value = { Tables };

    ghost view = { λ t. record { users = t.users.items; issues = t.issues.items } };
}

impl Context for Tracker {}

impl Tracker {
    /// The place of the first user of this number.
    pub fn user_of(&self, id: &str) -> Option<usize>
        ensures { result ≡ tables.user_of self.now id.now }
    {
        let mut users = self.users.iter();
        users.position(|user| user.id.text.as_str() == id)
    }

    /// The place of the first issue of this number.
    pub fn issue_of(&self, id: &str) -> Option<usize>
        ensures { result ≡ tables.issue_of self.now id.now }
    {
        let mut issues = self.issues.iter();
        issues.position(|issue| issue.id.text.as_str() == id)
    }

    /// The number of the issue at a place, which is its cursor.
    pub fn cursor(&self, place: Option<usize>) -> Option<&str>
        ensures { option_map (λ t. t.now) result ≡ tables.cursor self.now place }
    {
        let issue = self.issues.get(place?)?;
        Some(issue.id.text.as_str())
    }
}
