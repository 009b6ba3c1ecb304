//! A mark on a variable.

/// The sign of a literal, and the stamp under which it was marked. Stamp 0 is that of no mark.
#[derive(Clone, Copy)]
pub struct Mark {
    pub stamp: u32,
    pub positive: bool,
}
