//! Texts that are known to be valid (section 6.1 of the Specification; the cache is this project's own): what is asked often is validated
//! once.
//!
//! [`TextCache`] answers what `juniper::execute_sync` answers, within bounds, whatever it was asked before and whatever it keeps: the most
//! recently used texts.
#![tactic(auto)]

mod text_cache;
mod text_caching;

pub use text_cache::TextCache;
