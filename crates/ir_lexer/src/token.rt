ghost use Rattle.std.specs.Prelude.{◌≡◌};

use std::marker::Model;
use text_places::Place;

/// The class of a token (LLVM Language Reference, "Identifiers").
///
/// Name bytes are letters, digits, `-`, `$`, `.` and `_`. A quoted string is `"`, any bytes but
/// `"`, and `"`. A name is digits, or name bytes that don't begin with a digit, or a quoted string.
#[derive(Clone, Copy, Debug, PartialEq, Eq)]
pub enum Kind {
    /// A letter, `_` or `.`, and then name bytes.
    Word,
    /// Decimal digits, after an optional minus.
    Number,
    /// `%` and a name.
    Local,
    /// `@` and a name.
    Global,
    /// `$` and a name.
    Comdat,
    /// `!` and a word or a number.
    Metadata,
    /// `#` and a word or a number.
    Hash,
    /// `^` and a number.
    Caret,
    /// Name bytes, or a quoted string, and `:`.
    Label,
    /// An optional sign, digits, `.`, digits, and optionally `e`, a sign and digits.
    Float,
    /// `0x`, an optional letter of `K L M H R`, and hexadecimal digits.
    Hexadecimal,
    /// A quoted string, after an optional `c`.
    String,
    /// A mark of one byte, or `...`.
    Mark,
}

/// A token: its class, its bytes as a part of the text, and where they begin. Contracts see it as
/// a `Lexeme`.
#[derive(Drop)]
pub struct Token<'a> {
    kind: Kind,
    text: &'a [u8],
    at: usize,
    place: Place,
}

impl<'a> Model for Token<'a> {
    ghost use Rattle.ir_lexer.specs.Lexeme.{Lexeme};

    ghost Value = { Lexeme };

    ghost view = { λ t. record { kind = t.kind; text = t.text.now; at = t.at; place = t.place } };
}

impl<'a> Token<'a> {
    /// The token of a class and these bytes, which begin at this offset and position in the text.
    pub fn new(kind: Kind, text: &'a [u8], at: usize, place: Place) -> Self
        ensures kind { result.kind ≡ kind }
        ensures text { result.text ≡ text.now }
        ensures at { result.at ≡ at }
        ensures place { result.place ≡ place }
    {
        Token {
            kind,
            text,
            at,
            place,
        }
    }

    /// Its class.
    pub fn kind(&self) -> Kind
        ensures { result ≡ self.now.kind }
    {
        self.kind
    }

    /// Its bytes.
    pub fn text(&self) -> &'a [u8]
        ensures { result.now ≡ self.now.text }
    {
        self.text
    }

    /// Where it begins: the number of bytes of the text before it.
    pub fn at(&self) -> usize
        ensures { result ≡ self.now.at }
    {
        self.at
    }

    /// The line and column where it begins.
    pub fn place(&self) -> Place
        ensures { result ≡ self.now.place }
    {
        self.place
    }
}
