//! A hook that tests use to pause a call at four points outside the lock.

/// When the hook is called: a snapshot was handed out, a split began, its children are ready, or the answer is fixed.
#[derive(Clone, Copy, Debug, PartialEq, Eq)]
pub enum GatePoint {
    Taken,
    Begun,
    Ready,
    Answered,
}

/// A hook, which may block its caller. `lane` is the session's number, or 0 while the splits left at the end are
/// settled.
pub trait Gate {
    fn reach(&self, point: GatePoint, lane: u8);
}

/// The hook for use outside tests: it returns at once.
#[derive(Clone, Copy, Debug, PartialEq, Eq)]
pub struct OpenGate;

impl Gate for OpenGate {
    fn reach(&self, _point: GatePoint, _lane: u8) {}
}

fn sent_and_shared<T: Send + Sync>() {}

fn may_be_sent_and_shared() {
    sent_and_shared::<OpenGate>();
}
