//! Instructions on memory: sizes, limits and sites, and what is read of them.
use crate::expecting::expect;
use crate::made_functions::function_of;
use ir_tree::{
    Block, Function, GepIndex, Inst, IrType, MemoryType, Operand, Site, SiteList, Terminator,
    TypedOperand, indexed_size, is_within_limits, sites_of, store_size, type_align,
};
use std::alloc::Global;
use std::test::Fail;
use support::Sequence;
use tv_num::Width;

fn byte() -> IrType {
    IrType::Int(Width::of(8))
}

/// Nested arrays, the outermost first.
fn arrays(alloc: Global, lengths: &[u64], element: IrType) -> Result<MemoryType, Fail> {
    let mut all = Sequence::from_vec(Vec::new(alloc));
    for length in lengths {
        all.push(*length)?;
    }
    Ok(MemoryType {
        lengths: all,
        element,
    })
}

/// A function of one instruction.
fn with_inst(alloc: Global, inst: Inst) -> Result<Function, Fail> {
    let mut insts = Sequence::from_vec(Vec::new(alloc));
    insts.push(inst)?;
    let mut function = function_of(alloc, "define void @f() { ret void }")?;
    function.blocks = Sequence::from_vec(Vec::new(alloc));
    function.blocks.push(Block {
        label: 0,
        phis: Sequence::from_vec(Vec::new(alloc)),
        insts,
        terminator: Terminator::Unreachable,
    })?;
    Ok(function)
}

fn sites_with(alloc: Global, inst: Inst) -> Result<SiteList, Fail> {
    let f = with_inst(alloc, inst)?;
    Ok(sites_of(alloc, &f)?)
}

/// Whether these are the sites of a function of one instruction.
fn has_sites(alloc: Global, inst: Inst, expected: &[Site]) -> Result<bool, Fail> {
    let list = sites_with(alloc, inst)?;
    Ok(list.all.as_slice() == expected)
}

/// An integer takes whole bytes, a pointer eight; an index counts what its array holds.
#[test]
fn types_have_sizes(rt: HostRuntime) -> Result<(), Fail> {
    assert!(rt; store_size(IrType::Int(Width::of(1))) == 1);
    assert!(rt; store_size(IrType::Int(Width::of(9))) == 2);
    assert!(rt; store_size(IrType::Int(Width::of(17))) == 3);
    assert!(rt; store_size(IrType::Int(Width::of(64))) == 8);
    assert!(rt; store_size(IrType::Ptr) == 8);
    assert!(rt; type_align(IrType::Int(Width::of(1))) == 1);
    assert!(rt; type_align(IrType::Int(Width::of(9))) == 2);
    assert!(rt; type_align(IrType::Int(Width::of(17))) == 4);
    assert!(rt; type_align(IrType::Int(Width::of(33))) == 8);
    assert!(rt; type_align(IrType::Ptr) == 8);
    let of_type = arrays(rt.alloc(), &[3, 4], IrType::Int(Width::of(16)))?;
    assert!(rt; indexed_size(&of_type, 0) == 24);
    assert!(rt; indexed_size(&of_type, 1) == 8);
    assert!(rt; indexed_size(&of_type, 2) == 2);
    assert!(rt; indexed_size(&of_type, 3) == 2);
    let padded = arrays(rt.alloc(), &[3], IrType::Int(Width::of(48)))?;
    assert!(rt; indexed_size(&padded, 0) == 24);
    assert!(rt; indexed_size(&padded, 1) == 8);
    let large = arrays(rt.alloc(), &[1 << 40, 1 << 40], byte())?;
    expect(indexed_size(&large, 0) == 0, "types have sizes")
}

/// Lengths of arrays of bytes, the alignment, and whether an alloca of them is within the limits.
const ALLOCAS: &[(&[u64], u64, bool)] = &[
    (&[], 1, true),
    (&[64], 4096, true),
    (&[65], 1, false),
    (&[8, 8], 1, true),
    (&[8, 9], 1, false),
    (&[0, 1 << 40], 1, true),
    (&[1, 1, 1, 1, 1, 1, 1, 1], 1, true),
    (&[1, 1, 1, 1, 1, 1, 1, 1, 1], 1, false),
    (&[1], 0, false),
    (&[1], 3, false),
    (&[1], 8192, false),
];

#[test]
fn allocas_have_limits(rt: HostRuntime) -> Result<(), Fail> {
    for (lengths, align, fits) in ALLOCAS {
        let inst = Inst::Alloca {
            into: 1,
            number: 0,
            of_type: arrays(rt.alloc(), lengths, byte())?,
            align: *align,
        };
        let f = with_inst(rt.alloc(), inst)?;
        assert!(rt; is_within_limits(&f) == *fits);
    }
    Ok(())
}

/// Lengths of arrays of bytes, and whether a getelementptr of them is within the limits.
const ADDRESSES: &[(&[u64], bool)] = &[
    (&[1_048_576], true),
    (&[1_048_577], false),
    (&[1024, 1024], true),
    (&[1024, 1025], false),
    (&[0, 1_048_577], false),
    (&[1 << 32, 1 << 32], false),
];

fn address(alloc: Global, lengths: &[u64], indices: &[GepIndex]) -> Result<Inst, Fail> {
    let mut all = Sequence::from_vec(Vec::new(alloc));
    for index in indices {
        all.push(*index)?;
    }
    Ok(Inst::GetElementPtr {
        into: 1,
        inbounds: true,
        nuw: false,
        of_type: arrays(alloc, lengths, byte())?,
        base: Operand::Local(2),
        indices: all,
    })
}

fn address_fits(alloc: Global, lengths: &[u64]) -> Result<bool, Fail> {
    let inst = address(alloc, lengths, &[])?;
    let f = with_inst(alloc, inst)?;
    Ok(is_within_limits(&f))
}

#[test]
fn addresses_have_limits(rt: HostRuntime) -> Result<(), Fail> {
    for (lengths, fits) in ADDRESSES {
        let found = address_fits(rt.alloc(), lengths)?;
        assert!(rt; found == *fits);
    }
    Ok(())
}

/// Two arrays take a first index and two further ones; the fourth goes into none.
#[test]
fn an_index_enters_an_array(rt: HostRuntime) -> Result<(), Fail> {
    let width = Width::of(64);
    let index = GepIndex {
        width,
        operand: Operand::Local(3),
    };
    let written = Site::Written { fits: true };
    let of_type = IrType::Int(width);
    let used = Site::Uses { of_type, name: 3 };
    let expected = [
        written,
        written,
        Site::Defines {
            of_type: None,
            name: 0,
        },
        Site::Defines {
            of_type: Some(IrType::Ptr),
            name: 1,
        },
        written,
        written,
        Site::Uses {
            of_type: IrType::Ptr,
            name: 2,
        },
        written,
        used,
        written,
        written,
        used,
        written,
        written,
        used,
        written,
        written,
        used,
        Site::Written { fits: false },
    ];
    let inst = address(rt.alloc(), &[3, 4], &[index, index, index, index])?;
    let is_listed = has_sites(rt.alloc(), inst, expected.as_slice())?;
    expect(is_listed, "an index enters an array")
}

/// A store defines no name.
#[test]
fn a_store_has_no_result(rt: HostRuntime) -> Result<(), Fail> {
    let of_type = byte();
    let written = Site::Written { fits: true };
    let expected = [
        written,
        written,
        Site::Defines {
            of_type: None,
            name: 0,
        },
        written,
        Site::Uses { of_type, name: 1 },
        written,
        written,
    ];
    let inst = Inst::Store {
        value: TypedOperand {
            of_type,
            operand: Operand::Local(1),
        },
        pointer: Operand::Null,
        align: 1,
    };
    let is_listed = has_sites(rt.alloc(), inst, expected.as_slice())?;
    expect(is_listed, "a store has no result")
}

const ONE_OF_EACH: &str = "define void @f(ptr nonnull %p) {
a:
  %x = add i8 1, 2
  br label %b
b:
  %y = phi i8 [ 0, %a ]
  %q = alloca [ 3 x [ 2 x i16 ] ]
  %z = load i64, ptr %p
  store i8 %y, ptr %q, align 8
  %r = getelementptr inbounds i8, ptr %p, i16 -1
  ret void
}";

/// The instructions of the second block.
fn instructions_of(f: &Function) -> &[Inst] {
    match f.blocks.as_slice() {
        [_, block] => block.insts.as_slice(),
        _ => &[],
    }
}

fn is_filled_alloca(inst: &Inst) -> bool {
    match inst {
        Inst::Alloca {
            number,
            of_type,
            align,
            ..
        } => *number == 3 && *align == 2 && of_type.lengths.as_slice() == [3, 2].as_slice(),
        _ => false,
    }
}

fn is_filled_address(inst: &Inst) -> bool {
    match inst {
        Inst::GetElementPtr {
            inbounds: true,
            nuw: false,
            indices,
            ..
        } => { matches!(indices.as_slice(), [index] if index.operand == Operand::Number(65_535)) }
        _ => false,
    }
}

fn are_filled_in(f: &Function) -> bool {
    match instructions_of(f) {
        [
            alloca,
            Inst::Load { align: loaded, .. },
            Inst::Store { align: stored, .. },
            address,
        ] => {
            is_filled_alloca(alloca) && *loaded == 8 && *stored == 8 && is_filled_address(address)
        }
        _ => false,
    }
}

/// The number of an alloca counts phis and the ends of blocks. An alignment that isn't written is the
/// size of the type, or of the innermost element.
#[test]
fn numbers_and_alignments_are_filled_in(rt: HostRuntime) -> Result<(), Fail> {
    let f = function_of(rt.alloc(), ONE_OF_EACH)?;
    let is_non_null = matches!(f.parameters.as_slice(), [parameter] if parameter.non_null);
    expect(
        is_non_null && are_filled_in(&f),
        "numbers and alignments are filled in",
    )
}
