//! Notification when workers begin and end.

/// Called when a worker of a search begins and ends. It does not affect the result of the search.
///
/// All workers share one gate, so its methods may run at the same time.
pub trait Gate {
    /// Called when the worker of this number is about to try its first phase.
    fn arrive(&self, worker: u8);

    /// Called when the worker has tried its last phase. It gave up `unfinished` of its phases
    /// early.
    fn leave(&self, worker: u8, unfinished: u16);
}

/// A gate that does nothing.
#[derive(Clone, Copy, PartialEq, Eq, Debug)]
pub struct Open;

impl Gate for Open {
    fn arrive(&self, _worker: u8) {}

    fn leave(&self, _worker: u8, _unfinished: u16) {}
}
