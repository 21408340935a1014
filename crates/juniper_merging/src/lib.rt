//! Which written fields can be merged (section 5.3.2 of the Specification): how sets of fields conflict, each set looked at once, however
//! often fragments are spread.
#![tactic(auto)]

mod asking;
mod asks;
mod clash;
mod conflicts;
mod graph;
mod groups;
mod heads;
mod key_index;
mod known;
mod laws;
mod loud;
mod nodes;
mod numbered;
mod pairs;
mod sets;
mod uniting;

pub use graph::{Graph, Vertex};
pub use groups::{Groups, put_group, take_group};
pub use known::{Known, sets_merge};
pub use laws::{numbers_tell, sets_tell};
pub use sets::{FieldSet, Gathering};
