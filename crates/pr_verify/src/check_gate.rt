//! What is called round the check of each host.

/// What `verify_each` calls round the check of each scripted host, in the thread that makes the check. A gate may wait,
/// and so have threads meet.
pub trait CheckGate: Sync {
    /// Before the check of this host.
    fn before(&self, host: u8);

    /// After the check of this host, whatever it answered.
    fn after(&self, host: u8);
}

/// A gate that does nothing.
#[derive(Clone, Copy, Debug)]
pub struct NoCheckGate;

impl CheckGate for NoCheckGate {
    fn before(&self, _host: u8) {}

    fn after(&self, _host: u8) {}
}
