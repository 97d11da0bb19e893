//! The tokens of a text.
#![tactic(auto)]

mod class;
mod error;
mod kind;
pub mod laws;
mod lexeme;
mod lexer;
mod scan;
mod token;
mod words;

pub use error::TextError;
pub use kind::Kind;
pub use lexeme::Lexeme;
pub use lexer::{MOST_BYTES, lexemes_within, tokens, tokens_within};
pub use token::Token;
