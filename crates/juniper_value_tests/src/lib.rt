//! Tests of what only code can say of the crates below the executor: calls at types of Rust, values that no text gives, and types of one's
//! own. What a text can say is a row of `juniper_rows`.
#![tactic(auto)]

pub mod cell;
#[cfg(test)]
mod cells;
#[cfg(test)]
mod declared;
#[cfg(test)]
mod executor_samples;
#[cfg(test)]
mod executors;
#[cfg(test)]
mod identifiers;
#[cfg(test)]
mod nullables;
#[cfg(test)]
mod objects;
#[cfg(test)]
mod other_scalars;
#[cfg(test)]
mod refusals;
#[cfg(test)]
mod registering;
#[cfg(test)]
mod resolvables;
#[cfg(test)]
mod type_texts;
#[cfg(test)]
mod words;
