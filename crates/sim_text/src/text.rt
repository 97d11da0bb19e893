//! The syntax tree of a text.

ghost use Rattle.std.specs.Prelude.{◌≡◌, ◌<◌, ◌↔◌, length, Err, IfOk, IfErr, MatchResult};
ghost use Rattle.sim_text_tokens.specs.Cutting.{AreTokens};
ghost use Rattle.sim_text_tokens.specs.Lexemes.{tokens_at};
ghost use Rattle.sim_text_tokens.specs.Limits.{most_bytes};
ghost use Rattle.sim_text_tokens.specs.declared.error.TextError.TheVariants as fault;
ghost use Rattle.sim_text_tree.specs.DesignFile.{DesignFile};
ghost use Rattle.sim_text_tree.specs.Grammar.{IsFile};
ghost use Rattle.sim_text.specs.Faults.{place_of, fault_of, IsFaultOf};
ghost use Rattle.sim_text.specs.Texts.{IsText, IsTextWithin, IsFault, IsFaultWithin};

use sim_text_grammar::ParseError;
use sim_text_reader::{Cursor, file};
use sim_text_tokens::{Lexeme, MOST_BYTES, TextError, lexemes_within};
use sim_text_tree::DesignFile;
use std::alloc::Global;

/// The offset of the token at which `left` tokens remain; the end of the text after the last one.
fn place_of(source: &[u8], lexemes: &[Lexeme], left: usize) -> usize
    ensures { result ≡ place_of (tokens_at source.now lexemes.now) left (length source.now) }
{
    match lexemes.get(lexemes.len().saturating_sub(left)) {
        Some(lexeme) => lexeme.start(),
        None => source.len(),
    }
}

/// The fault that corresponds to a parse error, with its offset in the text.
fn fault_of(source: &[u8], lexemes: &[Lexeme], error: ParseError) -> TextError
    ensures { result ≡ fault_of (tokens_at source.now lexemes.now) (length source.now) error }
{
    match error {
        ParseError::OutOfMemory => TextError::Memory,
        ParseError::Syntax(left) => TextError::Syntax {
            at: place_of(source, lexemes, left),
        },
        ParseError::TooDeep(left) => TextError::TooDeep {
            at: place_of(source, lexemes, left),
        },
        ParseError::TimeRange(left) => TextError::TimeRange {
            at: place_of(source, lexemes, left),
        },
    }
}

/// The file that the tokens of a text spell.
fn file_of(alloc: Global, source: &[u8], lexemes: &[Lexeme]) -> Result<DesignFile, TextError>
    requires { AreTokens source.now (tokens_at source.now lexemes.now) }
    ensures found { IfOk result (λ file. IsFile file (tokens_at source.now lexemes.now)) }
    // No other file is spelled by these tokens.
    ensures only { IfOk result (λ file. (other : DesignFile) → IsFile other (tokens_at source.now lexemes.now) → other ≡ file) }
    ensures refused { IfErr result (λ e. IsFaultOf (tokens_at source.now lexemes.now) (length source.now) e) }
{
    match file(alloc, &mut Cursor::new(alloc, source, lexemes)) {
        Ok(found) => Ok(found),
        Err(error) => Err(fault_of(source, lexemes, error)),
    }
}

/// The design file of a text of at most `bytes` bytes (IEEE 1076-2008, 13.1).
///
/// `TooLong` takes precedence, then the leftmost `BadByte`, `OpenComment` or `BadLiteral` of the
/// text, then the fault of its tokens: `Syntax` at the first token that cannot continue any file,
/// or at the end of the text; `TooDeep` at a parenthesis or an `if` inside 64 others; `TimeRange`
/// at the number of a time above 2^62 - 1 fs.
pub fn parse_within(alloc: Global, source: &[u8], bytes: usize) -> Result<DesignFile, TextError>
    // Either the text is this file, or it is no file, for this reason.
    ensures read { MatchResult result (λ file. IsTextWithin bytes source.now file) (λ e. IsFaultWithin bytes source.now e) }
    // The text is no other file.
    ensures only { IfOk result (λ file. (other : DesignFile) → IsTextWithin bytes source.now other → other ≡ file) }
    ensures too_long { (result ≡ Err fault.TooLong) ↔ (bytes < length source.now) }
{
    let lexemes = lexemes_within(alloc, source, bytes)?;
    file_of(alloc, source, lexemes.as_slice())
}

/// The design file of a text of at most 1,048,576 bytes; refusals as those of `parse_within`.
pub fn parse(alloc: Global, source: &[u8]) -> Result<DesignFile, TextError>
    ensures read { MatchResult result (λ file. IsText source.now file) (λ e. IsFault source.now e) }
    ensures only { IfOk result (λ file. (other : DesignFile) → IsText source.now other → other ≡ file) }
    ensures too_long { (result ≡ Err fault.TooLong) ↔ (most_bytes < length source.now) }
{
    parse_within(alloc, source, MOST_BYTES)
}
