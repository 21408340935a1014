//! Tests of what only code can say of the executor: its names, its errors, roots over resolvers that are held in several ways and over two types of
//! scalars, and values of variables that hold variables. What a text can say is a row of `juniper_rows`.
#![tactic(auto)]

#[cfg(test)]
mod by_hand;
#[cfg(test)]
mod demo;
#[cfg(test)]
mod errors;
#[cfg(test)]
mod held_variables;
#[cfg(test)]
mod names;
#[cfg(test)]
mod roots;
