//! What all steps of an encoding share.

use bv_terms::TermId;
use ir_tree::Function;
use points::Layout;
use std::alloc::Global;
use support::Sequence;
use unroll::BlockCopy;

/// What the whole encoding of a run knows: the function, the copies of its blocks, the words of the
/// tape, and what the memory of the input looks like.
#[derive(Clone, Copy)]
pub struct Setting<'a> {
    pub alloc: Global,
    pub f: &'a Function,
    pub copies: &'a Sequence<BlockCopy>,
    pub tape: &'a [TermId],
    pub layout: &'a Layout,
}
