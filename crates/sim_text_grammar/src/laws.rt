//! Laws of reading a file.

ghost use Rattle.std.specs.Prelude.{◌≡◌, ℕ, List, [], Ok, Err};
ghost use Rattle.sim_text_tokens.specs.Token.{Token};
ghost use Rattle.sim_text_grammar.specs.declared.error.ParseError.{ParseError};
ghost use Rattle.sim_text_grammar.specs.declared.error.ParseError.TheVariants.{TimeRange, TooDeep};
ghost use Rattle.sim_text_tree.specs.DesignFile.{DesignFile};
ghost use Rattle.sim_text_tree.specs.Grammar.{IsFile};
ghost use Rattle.sim_text_grammar.specs.Faults.{IsTooLarge, IsOpening};
ghost use Rattle.sim_text_grammar.specs.Units as spec;

/// A file that is read from tokens is spelled by them, within the limits.
pub fn parsing_is_sound()
    ensures { (tokens rest : List Token) (file : DesignFile) → spec.file tokens ≡ Ok (file, rest) → IsFile file tokens }
{}

/// A file that is spelled by tokens, within the limits, is read from them.
pub fn parsing_is_complete()
    ensures { (tokens : List Token) (file : DesignFile) → IsFile file tokens → spec.file tokens ≡ Ok (file, []) }
{}

/// The same tokens do not spell two files.
pub fn the_grammar_is_unambiguous()
    ensures { (tokens : List Token) (a b : DesignFile) → IsFile a tokens → IsFile b tokens → a ≡ b }
{}

/// Tokens that are refused spell no file.
pub fn refused_tokens_spell_no_file()
    ensures { (tokens : List Token) (file : DesignFile) (e : ParseError) → spec.file tokens ≡ Err e → IsFile file tokens → ⊥ }
{}

/// A `TimeRange` fault is at a number that, with its unit, is too large.
pub fn a_time_range_fault_is_at_a_number_too_large()
    ensures { (tokens : List Token) (n : ℕ) → spec.file tokens ≡ Err (TimeRange n) → IsTooLarge tokens n }
{}

/// A `TooDeep` fault is at a `(` or an `if`.
pub fn a_too_deep_fault_is_at_an_opening()
    ensures { (tokens : List Token) (n : ℕ) → spec.file tokens ≡ Err (TooDeep n) → IsOpening tokens n }
{}
