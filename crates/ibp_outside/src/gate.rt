/// What each worker passes after it took a sector and before it works on it.
pub trait Gate: Sync {
    /// Called while no lock is held, with the worker's number and the sector's.
    fn pass(&self, worker: u32, sector: u16);
}

/// The gate that lets every worker through at once.
#[derive(Clone, Copy, Debug, PartialEq, Eq)]
pub struct OpenGate;

impl Gate for OpenGate {
    fn pass(&self, _worker: u32, _sector: u16) {}
}
