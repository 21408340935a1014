//! Tokens: what a text is made of (section 2.1 of the Specification), and what its Ints and strings stand for (2.9).
#![tactic(auto)]

mod lexer;
mod number;
mod string;
mod token;

pub use lexer::lex;
pub use number::decode_int;
pub use string::decode_string;
pub use token::{Ending, Fault, Lexed, Lexeme, ScalarToken, Token};
