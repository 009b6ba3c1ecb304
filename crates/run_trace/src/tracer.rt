//! A run that is being traced.

use crate::steps::Step;
use choice_interp::Room;
use ir_tree::BlockIndex;
use points::Machine;
use support::Sequence;

/// A run that is traced: its machine, room for steps, the indices of the function's labels, and the
/// steps so far.
#[derive(Drop)]
pub struct Tracer {
    pub machine: Machine,
    pub room: Room,
    pub index: BlockIndex,
    pub steps: Sequence<Step>,
}
