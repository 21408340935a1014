//! The fields that selections hold: for an object type (CollectFields, section 6.3.2 of the Specification), and for whatever types as
//! a resolver sees those below its field.
#![tactic(auto)]

mod argument;
mod arguments;
mod children;
mod children_below;
mod choosing;
mod collecting;
mod conditions;
mod directives;
mod equality;
mod fragments;
mod going_over;
pub mod laws;
pub mod look_ahead_list;
pub mod look_ahead_object;
mod looking;
mod occurrences;
mod occurrences_iter;
mod parts;
mod selection;
mod showing;
mod singles;
mod values;

pub use argument::LookAheadArgument;
pub use arguments::ArgumentsIter;
pub use children::LookAheadChildren;
pub use collecting::{Collected, Collector, collect_fields};
pub use conditions::Conditions;
pub use directives::admits;
pub use fragments::{FragmentMap, fragments_of};
pub use going_over::{ChildrenIntoIter, ChildrenIter, NamesIter};
pub use occurrences::{Enclosing, Occurrence, OccurrencesIter};
pub use selection::{Applies, LookAheadSelection};
pub use singles::{Single, collect_singles};
pub use values::{LookAheadList, LookAheadObject, LookAheadValue};
