// A function as it is written.
use ir_words::{WrittenBlock, WrittenBody, WrittenName, WrittenParameter, WrittenReturnType};
use support::Sequence;
use text_places::Place;

/// `brace` is the position of the body's opening mark, `label` the entry's label, if it has one.
#[derive(Drop)]
pub struct WrittenFunction {
    pub returns_no_undef: bool,
    pub returns: WrittenReturnType,
    pub name: WrittenName,
    pub parameters: Sequence<WrittenParameter>,
    pub brace: Place,
    pub label: Option<WrittenName>,
    pub entry: WrittenBody,
    pub others: Sequence<WrittenBlock>,
}
