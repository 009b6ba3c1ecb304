use byte_block::{Memory, Value};
use support::Sequence;

/// The state of a run: the registers by the numbers of their names, the memory, how many backward
/// jumps were taken, the number of the label of the block that was entered last, which the phis of
/// the next one read, and the choices that were taken so far, in order.
#[derive(Drop)]
pub struct Machine {
    pub registers: Sequence<Value>,
    pub memory: Memory,
    pub turn: u64,
    pub block: usize,
    pub taken: Sequence<u64>,
}
