// The layer that a fault comes from.
#[derive(Clone, Copy, Debug, PartialEq, Eq)]
pub enum Layer {
    Memory,
    Map,
    Machine,
    Trace,
}
