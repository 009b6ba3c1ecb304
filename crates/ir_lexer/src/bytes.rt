// Classes of bytes.
ghost use Rattle.std.specs.Prelude.{◌≡◌, get_or};
ghost use Rattle.ir_lexer.specs.Bytes.{is_digit, begins_word, is_name_byte, begins_name, is_hexadecimal_digit, is_float_kind, is_sign, is_blank, is_mark_byte, is_lone_mark, begins_plain_word, begins_number};
ghost use Rattle.ir_lexer.specs.declared.bytes.TheConstants.{CLASSES};

// The class of each byte as a letter, a small one for each byte of a name: `w` only begins words and
// labels, `c` also strings, `p` is the point, `n` a digit, `m` the minus and `s` the dollar. A line
// stands for the blanks, a comma for the marks that begin no longer token, a point for the others.
static CLASSES: [u8; 256] = *b"\
    .........__.._..................\
    _...s...,,,.,mp.nnnnnnnnnn,.,,,.\
    .wwwwwwwwwwwwwwwwwwwwwwwwww,.,.w\
    .wwcwwwwwwwwwwwwwwwwwwwwwww,,,..\
    ................................\
    ................................\
    ................................\
    ................................";

// The class of a byte in the table.
fn class_of(b: u8) -> u8
    ensures { result ≡ get_or CLASSES b 0 }
{
    CLASSES[b as usize]
}

/// A space, a tab, a line feed or a carriage return, which separate tokens.
pub fn is_blank(b: u8) -> bool
    ensures { result ≡ is_blank b }
{
    class_of(b) == b'_'
}

/// A decimal digit.
pub fn is_digit(b: u8) -> bool
    ensures { result ≡ is_digit b }
{
    48 <= b && b <= 57
}

/// A letter, `_` or `.`, with which a word begins.
pub fn begins_word(b: u8) -> bool
    ensures { result ≡ begins_word b }
{
    65 <= b && b <= 90 || 97 <= b && b <= 122 || b == b'_' || b == b'.'
}

/// A byte of a name or a word after its first: what begins one, a digit, `-` or `$`.
pub fn is_name_byte(b: u8) -> bool
    ensures { result ≡ is_name_byte b }
{
    b'a' <= class_of(b)
}

/// What may follow the sign of a name: what begins a word, `-` or `$`.
pub fn begins_name(b: u8) -> bool
    ensures { result ≡ begins_name b }
{
    let class = class_of(b);
    b'a' <= class && class != b'n'
}

/// A hexadecimal digit, with a small letter or a capital.
pub fn is_hexadecimal_digit(b: u8) -> bool
    ensures { result ≡ is_hexadecimal_digit b }
{
    is_digit(b) || 65 <= b && b <= 70 || 97 <= b && b <= 102
}

/// A letter that gives the format of a hexadecimal float after `0x`.
pub fn is_float_kind(b: u8) -> bool
    ensures { result ≡ is_float_kind b }
{
    b == b'K' || b == b'L' || b == b'M' || b == b'H' || b == b'R'
}

/// A plus or a minus.
pub fn is_sign(b: u8) -> bool
    ensures { result ≡ is_sign b }
{
    b == b'+' || b == b'-'
}

/// A byte that is a mark by itself.
pub fn is_mark_byte(b: u8) -> bool
    ensures { result ≡ is_mark_byte b }
{
    b == b'('
        || b == b')'
        || b == b'['
        || b == b']'
        || b == b'{'
        || b == b'}'
        || b == b'<'
        || b == b'>'
        || b == b','
        || b == b'='
        || b == b'*'
        || b == b':'
        || b == b'!'
        || b == b'|'
}

/// A byte that is a mark by itself and begins no longer token.
pub fn is_lone_mark(b: u8) -> bool
    ensures { result ≡ is_lone_mark b }
{
    class_of(b) == b','
}

/// A letter or `_` with which only words and labels begin: not `c`, which also begins strings.
pub fn begins_plain_word(b: u8) -> bool
    ensures { result ≡ begins_plain_word b }
{
    class_of(b) == b'w'
}

/// A digit or a minus.
pub fn begins_number(b: u8) -> bool
    ensures { result ≡ begins_number b }
{
    let class = class_of(b);
    class == b'n' || class == b'm'
}
