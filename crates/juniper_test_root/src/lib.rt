//! A root whose schema and answers are texts, and requests to it: for tests.
#![tactic(auto)]

mod answering;
mod columns;
mod comparing;
mod reader;
mod refusals;
mod registry;
mod replies;
mod request;
mod root;
mod roots;
mod running;
mod script;
mod sights;
mod variables;

pub use answering::answered;
pub use columns::columns_asked_for;
pub use comparing::{Outcome, Walk, difference, execute_by_steps};
pub use reader::read_script;
pub use request::Request;
pub use roots::{ScriptRoot, Unread, read_root};
pub use script::{Answer, Line, Node, Notes, RootType, Script, Tree};
pub use variables::variables_of;
