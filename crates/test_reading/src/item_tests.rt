//! Items of a module, and names.

use crate::expecting::expect;
use crate::token_lists::tokens_of;
use ir_items::{ItemFault, Why, cut, name_before_colon, name_behind_sign, name_of};
use ir_lexer::lex;
use ir_tree::Name;
use std::alloc::Global;
use std::test::Fail;
use support::NoMemory;

// The first stop of a text, if there is one.
fn fault(alloc: Global, text: &str) -> Option<ItemFault> {
    match lex(alloc, text.as_bytes()) {
        Ok(tokens) => cut(alloc, &tokens).err(),
        Err(_) => None,
    }
}

// The positions and reasons are from a cut in another language.
#[test]
fn first_stops(rt: HostRuntime) -> Result<(), Fail> {
    for &(text, at, why) in &[
        ("ret", 0, Why::NoItem),
        ("}", 0, Why::NoItem),
        ("declare void @f())\n", 5, Why::Bracket),
        ("declare void @f(]", 4, Why::Bracket),
        ("define i8 @f()\n%a = {}", 5, Why::NoBody),
        ("define i8 @f(", 4, Why::TextEnds),
        ("define i8 @f() {", 6, Why::TextEnds),
        ("declare (", 2, Why::TextEnds),
        (
            "define i8 @f() {}\ndefine i8 @\"f\"() {}",
            9,
            Why::NameTwice,
        ),
        ("target datalayout = \"e-p:64:64-E\"", 3, Why::DataLayout),
        ("target datalayout = \"e-p:32\"", 3, Why::DataLayout),
    ] {
        let stop = Some(ItemFault::Stop { at, why });
        expect(fault(rt.alloc(), text) == stop, text)?;
    }
    Ok(())
}

#[test]
fn defines_among_items(rt: HostRuntime) -> Result<(), Fail> {
    let alloc = rt.alloc();
    for text in [
        "",
        "target datalayout = \"e-p:064-i64:64\"",
        "source_filename = \"a\nb\" define",
    ] {
        assert_eq!(rt; cut(alloc, &lex(alloc, text.as_bytes())?)?.len(), 0);
    }
    let text =
        "define i8 @f() {}\n@g = global [1 x i8]\n$c = comdat any\ndefine i8 @h(i8 (i8)* %a) #0 { x }";
    let defines = cut(alloc, &lex(alloc, text.as_bytes())?)?;
    assert_eq!(rt; defines.len(), 2);
    let (f, h) = (defines.get(0), defines.get(1));
    assert!(rt; f.first == 0 && f.last == 6);
    assert!(rt; h.first == 19 && h.last == 33);
    Ok(())
}

/// The name of a text's one token: `#` and a number, or `%` and other bytes; none without a name.
fn named(alloc: Global, text: &str) -> Result<Vec<u8>, Fail> {
    let tokens = tokens_of(alloc, text.as_bytes())?;
    let mut found = Vec::new(alloc);
    for token in tokens.as_slice() {
        if let Some(name) = name_of(alloc, token)? {
            push_name(&mut found, &name)?;
        }
    }
    Ok(found)
}

fn push_name(all: &mut Vec<u8>, name: &Name) -> Result<(), NoMemory> {
    let (sign, bytes) = match name {
        Name::Number(digits) => (b'#', digits.as_slice()),
        Name::Word(bytes) => (b'%', bytes.as_slice()),
    };
    all.push(sign)?;
    all.extend_from_slice(bytes)?;
    Ok(())
}

#[test]
fn tokens_spell_names(rt: HostRuntime) -> Result<(), Fail> {
    let rows = [
        ("%x", "%x"),
        ("@a.b", "%a.b"),
        ("$c", "%c"),
        ("%05", "#5"),
        ("%00", "#0"),
        ("%\"5\"", "%5"),
        ("%\"a\\41\\\\\"", "%aA\\"),
        ("x:", "%x"),
        ("07:", "#7"),
        ("ret", ""),
        ("7", ""),
    ];
    for &(text, want) in &rows {
        let found = named(rt.alloc(), text)?;
        expect(found.as_slice() == want.as_bytes(), text)?;
    }
    Ok(())
}

#[test]
fn a_name_is_without_its_mark(rt: HostRuntime) -> Result<(), Fail> {
    let mut found = Vec::new(rt.alloc());
    push_name(&mut found, &name_behind_sign(rt.alloc(), b"%ab")?)?;
    push_name(&mut found, &name_before_colon(rt.alloc(), b"12:")?)?;
    expect(
        found.as_slice() == b"%ab#12".as_slice(),
        "a name is without its mark",
    )
}
