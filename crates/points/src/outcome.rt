use byte_block::{Memory, Value};

/// How a run ends.
#[derive(Drop)]
pub enum Outcome {
    /// It returns a value, or nothing, and leaves these given blocks.
    Return(Option<Value>, Memory),
    /// Its behaviour is undefined.
    Ub,
    /// It would take more backward jumps than the bound allows.
    Beyond,
}
