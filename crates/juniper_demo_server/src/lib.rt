//! The demo server: its schema, its resolvers, and what it answers to the words of a request.
#![tactic(auto)]

mod demo;
mod mutation;
mod outcome;
mod resolvers;
mod schema;
mod types;
mod words;

pub use demo::{Demo, DemoContext, DemoNode, Episode};
pub use mutation::DemoMutation;
pub use outcome::{Answer, Outcome, show};
pub use schema::{DemoRoot, demo_root, made_root};
pub use types::{CELL, CHARACTER, DROID, EPISODES, HUMAN, QUERY};
pub use words::answer;
