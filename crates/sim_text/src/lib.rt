//! The tokens and the syntax tree of a text.
#![tactic(auto)]

mod text;

pub use sim_text_tokens::{
    Kind, Lexeme, MOST_BYTES, TextError, Token, lexemes_within, tokens, tokens_within,
};
pub use sim_text_tree as tree;
pub use text::{parse, parse_within};
