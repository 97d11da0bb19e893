//! The reason why a text is not written whole.

use thiserror::Error;

/// A write failed, or wrote nothing.
#[derive(Clone, Copy, Debug, PartialEq, Eq, Error)]
#[error("Write")]
pub struct WriteError;
