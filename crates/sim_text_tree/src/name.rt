//! Names (IEEE 1076-2008, 15.4).

use sim_text_tokens::Token;
use sqlite_items::Items;
use std::alloc::{AllocError, Global};
use std::marker::Model;
use std::str::from_utf8_unchecked;

/// A name: its letters, in lower case, digits and underscores, and the offset of its first byte.
#[derive(Drop)]
pub struct Name {
    text: Items<u8>,
    at: usize,
}

impl Model for Name {
    ghost use Rattle.std.specs.Prelude.{◌≡◌, true};
    ghost use Rattle.sim_text_tokens.specs.Token.{is_word};
    ghost use Rattle.sim_text_tree.specs.Name.{Name};

    ghost Value = { Name };

    ghost view = { λ n. record { text = n.text; at = n.at } };

    ghost invariant = { λ n. is_word n.text ≡ true };
}

impl Name {
    ghost use Rattle.std.specs.Prelude.{◌≡◌, true, IfOk};
    ghost use Rattle.sim_text_tokens.specs.declared.kind.Kind.TheVariants as kind;
    ghost use Rattle.sim_text_tokens.specs.Token.{is_word};

    /// The name of this word. The text of the word is moved into it.
    pub fn of(token: Token) -> Name
        requires { token.kind ≡ kind.Word }
        ensures { result ≡ record { text = token.text; at = token.start } }
    {
        let at = token.start();
        Name {
            text: token.into_text(),
            at,
        }
    }

    /// A copy of the name.
    pub fn try_copy(&self, alloc: Global) -> Result<Name, AllocError>
        ensures { IfOk result (λ n. n ≡ self.now) }
    {
        Ok(Name {
            text: Items::from_slice(alloc, self.text())?,
            at: self.at,
        })
    }

    /// Its letters, digits and underscores.
    pub fn text(&self) -> &[u8]
        ensures text { result.now ≡ self.now.text }
        ensures word { is_word result.now ≡ true }
    {
        self.text.as_slice()
    }

    /// The same text as a `str`.
    #[tactic(auto, using(crate::proofs::Names::word_is_utf8))]
    pub fn as_str(&self) -> &str
        ensures text { result.now ≡ self.now.text }
        ensures word { is_word result.now ≡ true }
    {
        let bytes = self.text();
        unsafe { from_utf8_unchecked(bytes) }
    }

    /// The offset of its first byte in the text, from 0.
    pub fn at(&self) -> usize
        ensures { result ≡ self.now.at }
    {
        self.at
    }
}
