//! Gates, which are called before each execution.

/// Is called before each execution, by the worker that is about to carry it out.
pub trait Gate {
    /// Whether the gate watches. If it does not, a run need not call it.
    fn watches(&self) -> bool {
        true
    }

    /// Called before the process with this number is executed. No lock is held, and the execution
    /// waits until this returns.
    fn before(&self, process: usize);
}

/// Lets every execution pass, and does not watch.
#[derive(Drop)]
pub struct Open;

impl Gate for Open {
    fn watches(&self) -> bool {
        false
    }

    fn before(&self, _process: usize) {}
}
