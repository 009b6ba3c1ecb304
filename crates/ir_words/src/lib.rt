//! What one token denotes in a function, and the parts of a function as they are written.
//!
//! A token is the word of an instruction, a flag, a type, a literal or a value. It promises that each
//! function returns what `specs/Words.antt`, `specs/Spelling.antt` and `specs/Numbers.antt` say (LLVM
//! Language Reference), and that a token that isn't allowed has the reason of `specs/Reasons.antt`. It
//! uses `ir_lexer` for the tokens and `ir_tree` for types and reasons; `ir_grammar` says which tokens
//! follow one another.
#![tactic(auto)]

mod boxed;
mod numbers;
mod reasons;
mod values;
mod word;
mod written;

pub use boxed::Boxed;
pub use numbers::{alignment, array_length, literal, some_digits};
pub use reasons::{reason_at, type_reason_at, width_reason_at};
pub use values::{is_pointer, is_void, truth_value, type_in, width_in, word_value};
pub use word::{
    ExactWord, Flag, HeaderPart, LineStart, LineWord, Opcode, ParameterPart, TerminatorWord,
    WrapWord, exact_op, is_mark, is_spelled, is_word, line_word_of, predicate_of, prefix_of,
    terminator_of, wrapping_op,
};
pub use written::{
    GepFlags, WrittenAccess, WrittenArrays, WrittenBlock, WrittenBlocks, WrittenBody, WrittenCase,
    WrittenEntry, WrittenGep, WrittenIndex, WrittenInst, WrittenIntType, WrittenLine, WrittenLines,
    WrittenLiteral, WrittenName, WrittenObject, WrittenOperand, WrittenParameter,
    WrittenParameters, WrittenPhi, WrittenReturn, WrittenReturnType, WrittenTerminator,
    WrittenType, WrittenTyped, WrittenValue,
};
