//! The name of the top, which is not from the text, in lower case like the names of a text.

ghost use Rattle.std.specs.Prelude.{◌≡◌, string_bytes, IsAscii, IfOk, IfSome, IfNone};
ghost use Rattle.sim_flat.specs.Tops as spec;

use caseless::default_case_fold_str;
use std::alloc::{AllocError, Global};

/// A name in lower case, like the names of a text; `None` if it contains a character beyond ASCII,
/// which no name of a text does.
#[tactic(auto, using(crate::proofs::AsciiFolding::folded_is_small, crate::proofs::AsciiFolding::not_both))]
pub fn folded(alloc: Global, name: &str) -> Result<Option<String>, AllocError>
    ensures small { IfOk result (λ small. IfSome small (λ text. string_bytes text ≡ spec.folded name.now)) }
    ensures ascii { IfOk result (λ small. IfSome small (λ text. IsAscii name.now)) }
    ensures none { IfOk result (λ small. IfNone small (IsAscii name.now → ⊥)) }
{
    if !name.is_ascii() {
        return Ok(None);
    }
    let text = default_case_fold_str(alloc, name)?;
    Ok(Some(text))
}
