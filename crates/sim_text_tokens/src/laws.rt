//! Laws of dividing a text into tokens.

ghost use Rattle.std.specs.Prelude.{◌≡◌, ◌≢◌, ◌⊎◌, ℕ, List, length};
ghost use Rattle.std.specs.List.{AllByRecursion};
ghost use Rattle.sim_text_tokens.specs.Token.{Token};
ghost use Rattle.sim_text_tokens.specs.declared.error.TextError.{TextError};
ghost use Rattle.sim_text_tokens.specs.Cutting.{AreTokens, IsLexicalFault, AreInOrder};

use crate::kind::Kind;

/// No text is divided in two ways.
pub fn the_tokens_of_a_text_are_unique()
    ensures { (text : List ℕ) (a b : List Token) → AreTokens text a → AreTokens text b → a ≡ b }
{}

/// No text has both tokens and a lexical fault.
pub fn a_text_with_a_lexical_fault_has_no_tokens()
    ensures { (text : List ℕ) (fault : TextError) (tokens : List Token) →
        IsLexicalFault text fault → AreTokens text tokens → ⊥ }
{}

/// No text has two lexical faults.
pub fn the_lexical_fault_of_a_text_is_unique()
    ensures { (text : List ℕ) (a b : TextError) → IsLexicalFault text a → IsLexicalFault text b → a ≡ b }
{}

/// Each text has tokens or a lexical fault.
pub fn a_text_has_tokens_or_a_lexical_fault()
    ensures { (text : List ℕ) →
        ((tokens : List Token) × AreTokens text tokens) ⊎ ((fault : TextError) × IsLexicalFault text fault) }
{}

/// The tokens follow one another inside the text, and none is empty.
pub fn tokens_are_in_order()
    ensures { (text : List ℕ) (tokens : List Token) → AreTokens text tokens → AreInOrder 0 tokens (length text) }
{}

/// No token has the kind that the parser sees after the last one.
pub fn no_token_is_the_end_of_the_text()
    ensures { (text : List ℕ) (tokens : List Token) → AreTokens text tokens →
        AllByRecursion (λ t. t.kind ≢ Kind.EndOfText) tokens }
{}
