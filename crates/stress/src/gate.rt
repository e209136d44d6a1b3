// What a session passes before each of its calls.

/// What each session's thread passes before each of its calls. The program's lets everyone through; a test's may wait until others
/// are there too, and so see that the sessions run side by side.
pub trait Gate {
    /// Called before each call, with the number of the session that makes it.
    fn before(&self, session: u64);
}

/// A gate that nobody waits at.
#[derive(Clone, Copy, Debug, Drop)]
pub struct OpenGate;

impl Gate for OpenGate {
    fn before(&self, _session: u64) {}
}
