//! The reserved words and the delimiters.

ghost use Rattle.std.specs.Prelude.{◌≡◌, map, [], ◌∷◌};
ghost use Rattle.std.specs.Char.{to_ascii_lowercase};
ghost use Rattle.std.specs.Str.{bytes_eq};
ghost use Rattle.sim_text_tokens.specs.Pieces.{kind_in, delimiters, reserved_words};

use crate::kind::Kind;

// The reserved words of the subset (IEEE 1076-2008, 15.10), by their first letters, which are left
// out: `fter` of `A` is `after`. So few words are compared with a name.
const A: [(&[u8], Kind); 4] = [
    (b"fter", Kind::After),
    (b"ll", Kind::All),
    (b"nd", Kind::And),
    (b"rchitecture", Kind::Architecture),
];

const B: [(&[u8], Kind); 1] = [(b"egin", Kind::Begin)];

const C: [(&[u8], Kind); 1] = [(b"omponent", Kind::Component)];

const E: [(&[u8], Kind); 4] = [
    (b"lse", Kind::Else),
    (b"lsif", Kind::Elsif),
    (b"nd", Kind::End),
    (b"ntity", Kind::Entity),
];

const I: [(&[u8], Kind); 5] = [
    (b"f", Kind::If),
    (b"n", Kind::In),
    (b"nertial", Kind::Inertial),
    (b"nout", Kind::Inout),
    (b"s", Kind::Is),
];

const L: [(&[u8], Kind); 1] = [(b"ibrary", Kind::Library)];

const M: [(&[u8], Kind); 1] = [(b"ap", Kind::Map)];

const N: [(&[u8], Kind); 4] = [
    (b"and", Kind::Nand),
    (b"or", Kind::Nor),
    (b"ot", Kind::Not),
    (b"ull", Kind::Null),
];

const O: [(&[u8], Kind); 4] = [
    (b"f", Kind::Of),
    (b"pen", Kind::Open),
    (b"r", Kind::Or),
    (b"ut", Kind::Out),
];

const P: [(&[u8], Kind); 3] = [
    (b"ort", Kind::Port),
    (b"ostponed", Kind::Postponed),
    (b"rocess", Kind::Process),
];

const R: [(&[u8], Kind); 1] = [(b"eject", Kind::Reject)];

const S: [(&[u8], Kind); 1] = [(b"ignal", Kind::Signal)];

const T: [(&[u8], Kind); 2] = [(b"hen", Kind::Then), (b"ransport", Kind::Transport)];

const U: [(&[u8], Kind); 1] = [(b"se", Kind::Use)];

const V: [(&[u8], Kind); 1] = [(b"ariable", Kind::Variable)];

const W: [(&[u8], Kind); 1] = [(b"hen", Kind::When)];

const X: [(&[u8], Kind); 2] = [(b"nor", Kind::Xnor), (b"or", Kind::Xor)];

/// Whether a word is this one, which is in lower case.
fn is_same(lower: &[u8], word: &[u8]) -> bool
    ensures { result ≡ bytes_eq lower.now (map to_ascii_lowercase word.now) }
{
    let mut others = lower;
    let mut bytes = word;
    while let ([other, later @ ..], [byte, rest @ ..]) = (others, bytes) {
        if *other != byte.to_ascii_lowercase() {
            return false;
        }
        others = later;
        bytes = rest;
    }
    others.len() == bytes.len()
}

/// The kind of a word in the table, whose words are in lower case, or `None`.
fn find(mut table: &[(&[u8], Kind)], word: &[u8]) -> Option<Kind>
    ensures { result ≡ kind_in (map (λ e. (e.0.now, e.1)) table.entry.now) (map to_ascii_lowercase word.now) }
{
    while let [entry, rest @ ..] = table {
        if is_same(entry.0, word) {
            return Some(entry.1);
        }
        table = rest;
    }
    None
}

/// The kind of the reserved word with this first letter, in lower case, and these others.
#[tactic(auto, unfolding(crate::specs::Pieces::reserved_words))]
fn reserved_from(first: u8, rest: &[u8]) -> Option<Kind>
    ensures { result ≡ kind_in reserved_words (first ∷ map to_ascii_lowercase rest.now) }
{
    match first {
        b'a' => find(&A, rest),
        b'b' => find(&B, rest),
        b'c' => find(&C, rest),
        b'e' => find(&E, rest),
        b'i' => find(&I, rest),
        b'l' => find(&L, rest),
        b'm' => find(&M, rest),
        b'n' => find(&N, rest),
        b'o' => find(&O, rest),
        b'p' => find(&P, rest),
        b'r' => find(&R, rest),
        b's' => find(&S, rest),
        b't' => find(&T, rest),
        b'u' => find(&U, rest),
        b'v' => find(&V, rest),
        b'w' => find(&W, rest),
        b'x' => find(&X, rest),
        _ => None,
    }
}

/// The kind of the reserved word with these letters, which may be in upper case.
#[tactic(auto, unfolding(crate::specs::Pieces::reserved_words))]
pub fn reserved_word(word: &[u8]) -> Option<Kind>
    ensures { result ≡ kind_in reserved_words (map to_ascii_lowercase word.now) }
{
    match word {
        [first, rest @ ..] => reserved_from(first.to_ascii_lowercase(), rest),
        [] => None,
    }
}

/// The kind of the delimiter that is this byte alone.
#[tactic(auto, unfolding(crate::specs::Pieces::delimiters))]
pub fn single_delimiter(a: u8) -> Option<Kind>
    ensures { result ≡ kind_in delimiters (a ∷ []) }
{
    match a {
        b'(' => Some(Kind::LeftParen),
        b')' => Some(Kind::RightParen),
        b';' => Some(Kind::Semicolon),
        b':' => Some(Kind::Colon),
        b',' => Some(Kind::Comma),
        b'.' => Some(Kind::Dot),
        b'=' => Some(Kind::Equal),
        _ => None,
    }
}

/// The kind of the delimiter that is these two bytes.
#[tactic(auto, unfolding(crate::specs::Pieces::delimiters))]
pub fn double_delimiter(a: u8, b: u8) -> Option<Kind>
    ensures { result ≡ kind_in delimiters (a ∷ b ∷ []) }
{
    match (a, b) {
        (b'<', b'=') => Some(Kind::SignalAssign),
        (b':', b'=') => Some(Kind::VariableAssign),
        (b'=', b'>') => Some(Kind::Arrow),
        (b'/', b'=') => Some(Kind::Unequal),
        (b'?', b'?') => Some(Kind::Condition),
        _ => None,
    }
}
