//! Schemas as texts of the language for type systems (section 3 of the Specification).
#![tactic(auto)]

mod definitions;
mod fault;
mod faults;
pub mod laws;
mod members;
mod names;
mod parts;
mod sdl;

pub use fault::{Flaw, SdlError, SdlFault};
pub use faults::sdl_fault;
pub use sdl::as_sdl;
