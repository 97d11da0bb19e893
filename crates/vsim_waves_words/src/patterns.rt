//! Which nets are compared: those whose name fits a pattern of a list.

/// Whether a name fits a pattern, in which `*` stands for any text.
fn fits(pattern: &[u8], name: &[u8]) -> bool {
    let (mut at, mut seen) = (0usize, 0usize);
    // behind the last star, and as far as the name was taken by it
    let mut star = None;
    for _ in 0..u64::MAX {
        if seen >= name.len() && pattern.get(at) != Some(&b'*') {
            break;
        }
        if pattern.get(at) == Some(&b'*') {
            at = at.saturating_add(1);
            star = Some((at, seen));
        } else if pattern.get(at) == name.get(seen) {
            at = at.saturating_add(1);
            seen = seen.saturating_add(1);
        } else if let Some((behind, taken)) = star {
            at = behind;
            seen = taken.saturating_add(1);
            star = Some((behind, seen));
        } else {
            return false;
        }
    }
    at == pattern.len()
}

/// Whether a name fits a pattern of a list, which commas separate. No list takes every name.
pub fn is_selected(list: Option<&str>, name: &[u8]) -> bool {
    match list {
        None => true,
        Some(list) => list
            .as_bytes()
            .split(|byte| *byte == b',')
            .any(|it| fits(it, name)),
    }
}
