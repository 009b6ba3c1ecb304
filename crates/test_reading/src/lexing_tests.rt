//! Tokens and their positions.

use crate::expecting::expect;
use crate::token_lists::tokens_of;
use ir_lexer::{LexFault, lex};
use std::alloc::Global;
use std::test::Fail;
use text_places::Place;

/// The class and the spelling of each token of a text, each after `; `.
fn lexed(alloc: Global, text: &str) -> Result<Vec<u8>, Fail> {
    let tokens = tokens_of(alloc, text.as_bytes())?;
    let mut all = Vec::new(alloc);
    for token in tokens.as_slice() {
        let kind = format!(in alloc; "; {:?} ", token.kind())?;
        all.extend_from_slice(kind.as_bytes())?;
        all.extend_from_slice(token.text())?;
    }
    Ok(all)
}

/// Texts, each after a line with its tokens, as a lexer of regular expressions in another language
/// gives them. `---` separates two rows.
const TOKENS: &str = "\
; Local %r1; Mark =; Word add; Word i8; Number -5; Mark ,; Global @a.b; Mark ...
%r1 = add i8 -5, @a.b ; rest
...
---
; Local %5; Word a; Local %-x; Comdat $a; Comdat $1; Word b; Global @\"x y\"; Local %\"\\22\"
%5a %-x $a $1b @\"x y\" %\"\\22\"
---
; Label $a:; Label -5:; Label ...:; Label \"a\":; Label 1.5:; Label a:; Label b:
$a: -5: ...: \"a\": 1.5: a:b:
---
; Float 1.5e+7; Float 1.5; Word e7; Float -0.25; Float +3.0; Number 1; Word .; Number 5
1.5e+7 1.5e7 -0.25 +3.0 1. 5
---
; Hexadecimal 0xK12; Hexadecimal 0x1F; Number 0; Word xg; Number 0; Word xKR; Number 0; Word x
0xK12 0x1F 0xg 0xKR 0x
---
; Metadata !llvm.loop; Metadata !5; Metadata !-1; Mark !; Mark {; Mark !; String \"s\"; Hash #12; \
    Hash #-1; Hash #nounwind; Caret ^3; Caret ^-3
!llvm.loop !5 !-1 !{ !\"s\" #12 #-1 #nounwind ^3 ^-3
---
; String c\"a\\00\"; Word c; String \"b\"; String c\"q\"; Mark :
c\"a\\00\" c \"b\" c\"q\":
---
; Word ....; Word ...a; Mark (; Mark ); Mark [; Mark ]; Mark {; Mark }; Mark <; Mark >; Mark ,; \
    Mark =; Mark *; Mark :; Mark !; Mark |
.... ...a ( ) [ ] { } < > , = * : ! |
---
; Number 1; Number -1; Number -1; Label 1-1-1:
1-1-1 1-1-1:
---
; Word a; Word b
a\r
;c\r
\tb
---

;
---
; Word declare; Word void; Global @f; Mark (; Word ptr; Mark ); String \"k\"; Mark =; String \"v\"
declare void @f(ptr) \"k\"=\"v\"
---
; Float 1.5e+7; Mark :; Comdat $\"q\"; Mark :; Local %\"l\"; Mark :
1.5e+7: $\"q\": %\"l\":";

fn is_lexed(alloc: Global, row: &str) -> Result<(), Fail> {
    let (want, text) = row.split_once("\n").ok_or("tokens and a text")?;
    let found = lexed(alloc, text)?;
    expect(found.as_slice() == want.as_bytes(), row)
}

#[test]
fn tokens_of_each_class(rt: HostRuntime) -> Result<(), Fail> {
    for row in TOKENS.split("\n---\n") {
        is_lexed(rt.alloc(), row)?;
    }
    is_lexed(rt.alloc(), "\n")?;
    let bytes = lex(rt.alloc(), b" \"\xff\x00\"")?;
    expect(bytes.len() == 1, "bytes that are no text")
}

#[test]
fn places_without_a_token(rt: HostRuntime) -> Result<(), Fail> {
    let alloc = rt.alloc();
    for &(text, at, line, column) in &[
        ("a ?", 2, 1, 3),
        ("% a", 0, 1, 1),
        ("\n \"abc", 2, 2, 2),
        ("x\r\n  %\"abc", 5, 2, 3),
        ("@\"", 0, 1, 1),
        ("$\"a", 0, 1, 1),
        ("+5", 0, 1, 1),
        ("ok # ", 3, 1, 4),
        ("c\"x", 1, 1, 2),
        ("^a", 0, 1, 1),
        ("a\n\n   ~", 6, 3, 4),
        ("-", 0, 1, 1),
        ("$", 0, 1, 1),
        ("$a $", 3, 1, 4),
        ("-\n-", 0, 1, 1),
    ] {
        let place = Place { line, column };
        let fault = lex(alloc, text.as_bytes()).err();
        expect(fault == Some(LexFault::NoToken { at, place }), text)?;
    }
    assert!(rt; lex(alloc, b"a\x00").is_err());
    expect(lex(alloc, b"\xc3").is_err(), "places without a token")
}
