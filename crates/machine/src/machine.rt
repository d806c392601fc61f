// A machine: up to four processors over one bus, a map and a memory.
use faults::machine_fault::SetupFault;
use replacement::cache_rules::CacheRules;
use tables::types::Processors;

// The first `count` records are the board's processors. `setup` is why it could not be set up, if so.
#[derive(Drop)]
pub struct Machine<M, S, V, R> {
    pub(crate) map: M,
    pub(crate) memory: S,
    pub(crate) rules: CacheRules<V, R>,
    pub(crate) processors: Processors,
    pub(crate) count: u8,
    pub(crate) held: bool,
    pub(crate) accepted: u32,
    pub(crate) setup: Option<SetupFault>,
    pub(crate) number: u8,
}
