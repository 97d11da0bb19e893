//! Taking statements out of a text, so that what else is wrong in it shows.
#![tactic(auto)]

mod comments;
mod statements;

pub use comments::without_comments;
pub use statements::take_out;
