use ir_tree::Name;

/// A function with a body: its name, and its first and last token as indices in the list of tokens.
#[derive(Debug, Drop, PartialEq, Eq)]
pub struct Define {
    /// Its name.
    pub name: Name,
    /// The number of tokens before its word `define`.
    pub first: usize,
    /// The number of tokens before the mark that closes its body.
    pub last: usize,
}
