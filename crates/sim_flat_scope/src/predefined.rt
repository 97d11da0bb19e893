//! The predefined names (IEEE 1076-2008, 16.3; IEEE 1164).

ghost use Rattle.std.specs.Prelude.{◌≡◌};
ghost use Rattle.sim_flat_scope.specs.Scopes as spec;

use crate::scope::Meaning;

/// The predefined meaning of a name, if it has one.
#[tactic(auto, unfolding(crate::specs::Scopes::predefined))]
pub fn predefined(name: &[u8]) -> Option<Meaning>
    ensures { result ≡ spec.predefined name.now }
{
    if name == b"std_logic".as_slice() {
        return Some(Meaning::LogicMark { resolved: true });
    }
    if name == b"std_ulogic".as_slice() {
        return Some(Meaning::LogicMark { resolved: false });
    }
    if name == b"boolean".as_slice() {
        return Some(Meaning::BooleanMark);
    }
    if name == b"true".as_slice() {
        return Some(Meaning::Truth(true));
    }
    if name == b"false".as_slice() {
        return Some(Meaning::Truth(false));
    }
    if name == b"rising_edge".as_slice() {
        return Some(Meaning::Edge { rising: true });
    }
    if name == b"falling_edge".as_slice() {
        return Some(Meaning::Edge { rising: false });
    }
    None
}
