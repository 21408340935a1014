//! Tests of calls for which memory is wanting: in turn after turn a little more is left, until the call answers. Each turn that is
//! refused answers want of memory and nothing else, and leaves what it was lent, or a context that may be left then. `rt test` runs them;
//! `rt try --test` has an allocator of its own, which refuses nothing here, so they fail there.
#![tactic(auto)]

#[cfg(test)]
mod arguments;
#[cfg(test)]
mod conversions;
#[cfg(test)]
mod demo;
#[cfg(test)]
mod failing;
#[cfg(test)]
mod inputs;
mod log;
mod log_types;
#[cfg(test)]
mod logging;
#[cfg(test)]
mod looking;
#[cfg(test)]
mod parsing;
#[cfg(test)]
mod registering;
#[cfg(test)]
mod turns;
