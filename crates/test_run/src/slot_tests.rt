//! How many slots functions need, by `register_slots`.

use ir_reader::read;
use register_slots::with_slots;
use std::alloc::Global;
use std::test::Fail;

/// A function, and the most slots that its values may take.
struct Row {
    name: &'static str,
    text: &'static str,
    most: usize,
}

const ROWS: [Row; 4] = [
    Row {
        name: "each sum is read by the next alone",
        text: "define i8 @f(i8 %x) {\n  %a = add i8 %x, 1\n  %b = add i8 %a, 1\n  \
               %c = add i8 %b, 1\n  %d = add i8 %c, 1\n  ret i8 %d\n}\n",
        most: 2,
    },
    Row {
        name: "values of one diamond are not needed in the next",
        text: "define i8 @f(i1 %c, i8 %x) {\nentry:\n  br i1 %c, label %a, label %b\n\
               a:\n  %u = add i8 %x, 1\n  br label %m\nb:\n  %v = add i8 %x, 2\n  br label %m\n\
               m:\n  %w = phi i8 [ %u, %a ], [ %v, %b ]\n  br i1 %c, label %d, label %e\n\
               d:\n  %y = mul i8 %w, 3\n  br label %n\ne:\n  %z = mul i8 %w, 5\n  br label %n\n\
               n:\n  %r = phi i8 [ %y, %d ], [ %z, %e ]\n  ret i8 %r\n}\n",
        most: 4,
    },
    Row {
        name: "a bound is needed all through a loop",
        text: "define i8 @f(i8 %n) {\nentry:\n  br label %l\n\
               l:\n  %i = phi i8 [ 0, %entry ], [ %j, %l ]\n  %s = phi i8 [ 0, %entry ], [ %t, %l ]\n  \
               %t = add i8 %s, %i\n  %j = add i8 %i, 1\n  %c = icmp ult i8 %j, %n\n  \
               br i1 %c, label %l, label %d\nd:\n  ret i8 %t\n}\n",
        most: 5,
    },
    Row {
        name: "a label takes no slot",
        text: "define void @f() {\nentry:\n  br label %a\na:\n  br label %b\nb:\n  ret void\n}\n",
        most: 0,
    },
];

/// How many slots the function of a module takes, if its names can share slots.
fn slots_of(alloc: Global, text: &str) -> Result<Option<usize>, Fail> {
    let Ok(module) = read(alloc, text.as_bytes()) else {
        return Ok(None);
    };
    for entry in module.entries.as_slice() {
        if let Ok(f) = &entry.function {
            let slotted = with_slots(alloc, f)?;
            return Ok(slotted.map(|f| f.names.len()));
        }
    }
    Ok(None)
}

fn is_within(alloc: Global, row: &Row) -> Result<(), Fail> {
    let slots = slots_of(alloc, row.text)?.ok_or(row.name)?;
    if slots <= row.most {
        Ok(())
    } else {
        Err(Fail::new(format_args!("{}: {slots}", row.name)))
    }
}

#[test]
fn values_share_slots(rt: HostRuntime) -> Result<(), Fail> {
    for row in &ROWS {
        is_within(rt.alloc(), row)?;
    }
    Ok(())
}
