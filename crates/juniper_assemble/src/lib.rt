//! Values of answers, put together: joined with one another, taken apart from their nodes and filled in (sections 6.4.3 and 6.4.4 of
//! the Specification).
#![tactic(auto)]

mod apart;
mod filling;
mod joining;
mod skeleton;
mod spot;

pub use apart::{Completer, Fault, take_apart};
pub use filling::{fill, whole};
pub use joining::{join, settle};
pub use skeleton::Skeleton;
pub use spot::Spot;
