//! The least of some numbers.

ghost use Rattle.std.specs.Prelude.{◌≡◌, Some};
ghost use Rattle.sim_flat_graph.specs.Least as spec;

/// The lesser of an optional number and another.
pub fn lesser(known: Option<usize>, n: usize) -> Option<usize>
    ensures { result ≡ Some (spec.lesser known n) }
{
    match known {
        None => Some(n),
        Some(m) => Some(m.min(n)),
    }
}
