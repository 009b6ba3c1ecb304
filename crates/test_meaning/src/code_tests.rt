//! The order of points by their codes, on three small shapes: which code comes after which.

ghost use Rattle.std.specs.Prelude.{◌≡◌, ◌∷◌, [], replicate, IfOk};
ghost use Rattle.points.specs.Code.{IsOfShape};
ghost use Rattle.points.specs.Codes.{IsCode};

use crate::expecting::expect;
use ir_tree::{IrType, Parameter};
use points::{Layout, Point, Shape, code_of, next, point_of};
use std::alloc::{AllocError, Global};
use std::test::Fail;
use support::{NoMemory, Sequence};
use tv_num::Width;

fn repeated(alloc: Global, parameter: Parameter, count: usize) -> Result<Vec<Parameter>, AllocError>
    ensures { IfOk result (λ parameters. parameters.items ≡ replicate count parameter) }
{
    vec![in alloc; parameter; count]
}

/// `count` equal parameters, one given block of at most `bytes` bytes, and `words` words of one
/// bit.
fn shape_with(
    alloc: Global,
    parameter: Parameter,
    count: usize,
    bytes: u64,
    words: u64,
) -> Result<Shape, NoMemory>
    ensures parameters { IfOk result (λ s. s.parameters ≡ replicate count parameter) }
    ensures blocks { IfOk result (λ s. s.layout.blocks ≡ 1) }
    ensures bytes { IfOk result (λ s. s.layout.bytes ≡ bytes) }
    ensures words { IfOk result (λ s. s.words ≡ words) }
    ensures width { IfOk result (λ s. s.word_width.bits ≡ 1) }
{
    Ok(Shape {
        parameters: Sequence::from_vec(repeated(alloc, parameter, count)?),
        layout: Layout { blocks: 1, bytes },
        words,
        word_width: Width::of(1),
    })
}

/// A parameter of one bit, one given block of at most one byte, and one word of one bit.
fn one_of_each(alloc: Global) -> Result<Shape, NoMemory>
    ensures no_byte { IfOk result (λ s. IsCode s (0 ∷ 0 ∷ 0 ∷ 0 ∷ 0 ∷ 0 ∷ 0 ∷ 0 ∷ 0 ∷ 1 ∷ [])) }
    ensures last_number { IfOk result (λ s. IsCode s (0 ∷ 0 ∷ 1 ∷ 0 ∷ 0 ∷ 255 ∷ 0 ∷ 0 ∷ 0 ∷ 1 ∷ [])) }
    ensures sixth_part { IfOk result (λ s. IsCode s (0 ∷ 0 ∷ 1 ∷ 1 ∷ 0 ∷ 0 ∷ 0 ∷ 5 ∷ 6 ∷ 1 ∷ [])) }
    ensures last_of_null { IfOk result
        (λ s. IsCode s (0 ∷ 0 ∷ 1 ∷ 1 ∷ 0 ∷ 0 ∷ 0 ∷ 18446744073709551615 ∷ 7 ∷ 1 ∷ [])) }
    ensures last_part { IfOk result
        (λ s. IsCode s (0 ∷ 0 ∷ 1 ∷ 1 ∷ 0 ∷ 0 ∷ 1 ∷ 18446744073709551615 ∷ 7 ∷ 1 ∷ [])) }
    ensures within_mask { IfOk result (λ s. IsCode s (0 ∷ 1 ∷ 1 ∷ 2 ∷ 6 ∷ 1 ∷ 0 ∷ 0 ∷ 0 ∷ 1 ∷ [])) }
    ensures last_of_mask { IfOk result (λ s. IsCode s (0 ∷ 1 ∷ 1 ∷ 2 ∷ 5 ∷ 250 ∷ 0 ∷ 0 ∷ 0 ∷ 1 ∷ [])) }
    ensures poison_byte { IfOk result (λ s. IsCode s (0 ∷ 1 ∷ 1 ∷ 2 ∷ 255 ∷ 0 ∷ 0 ∷ 0 ∷ 0 ∷ 1 ∷ [])) }
    ensures last { IfOk result (λ s. IsCode s (1 ∷ 0 ∷ 1 ∷ 2 ∷ 255 ∷ 0 ∷ 0 ∷ 0 ∷ 0 ∷ 1 ∷ [])) }
{
    let bit = Parameter {
        of_type: IrType::Int(Width::of(1)),
        no_undef: false,
        non_null: false,
        name: 0,
    };
    let shape = shape_with(alloc, bit, 1, 1, 1)?;
    Ok(shape)
}

/// Whether a point has the wanted code, if one is wanted.
fn has_code(
    alloc: Global,
    point: &Point,
    shape: &Shape,
    wanted: Option<&[u64]>,
) -> Result<bool, NoMemory>
    requires { IsOfShape shape.now point.now }
{
    let code = code_of(alloc, point, shape)?;
    match wanted {
        Some(wanted) => Ok(code.as_slice() == wanted),
        None => Ok(false),
    }
}

/// Whether the point after the one with this code has the wanted code, or there is none, where none
/// is wanted.
fn is_followed_by(
    alloc: Global,
    shape: &Shape,
    code: &[u64],
    wanted: Option<&[u64]>,
) -> Result<bool, NoMemory>
    requires { IsCode shape.now code.now }
{
    let mut point = point_of(alloc, code, shape)?;
    if next(&mut point, shape) {
        has_code(alloc, &point, shape, wanted)
    } else {
        Ok(wanted.is_none())
    }
}

/// Whether sizes follow bytes, and the parts of a pointer follow the numbers of a byte.
fn parts_follow_numbers(alloc: Global, shape: &Shape) -> Result<bool, NoMemory>
    requires no_byte { IsCode shape.now (0 ∷ 0 ∷ 0 ∷ 0 ∷ 0 ∷ 0 ∷ 0 ∷ 0 ∷ 0 ∷ 1 ∷ []) }
    requires last_number { IsCode shape.now (0 ∷ 0 ∷ 1 ∷ 0 ∷ 0 ∷ 255 ∷ 0 ∷ 0 ∷ 0 ∷ 1 ∷ []) }
    requires sixth_part { IsCode shape.now (0 ∷ 0 ∷ 1 ∷ 1 ∷ 0 ∷ 0 ∷ 0 ∷ 5 ∷ 6 ∷ 1 ∷ []) }
{
    Ok(
        is_followed_by(
            alloc,
            shape,
            &[0, 0, 0, 0, 0, 0, 0, 0, 0, 1],
            Some(&[0, 0, 1, 0, 0, 0, 0, 0, 0, 0]),
        )? && is_followed_by(
            alloc,
            shape,
            &[0, 0, 1, 0, 0, 255, 0, 0, 0, 1],
            Some(&[0, 0, 1, 1, 0, 0, 0, 0, 0, 0]),
        )? && is_followed_by(
            alloc,
            shape,
            &[0, 0, 1, 1, 0, 0, 0, 5, 6, 1],
            Some(&[0, 0, 1, 1, 0, 0, 0, 5, 7, 0]),
        )?,
    )
}

/// Whether the blocks of a pointer follow its offsets, and masks follow pointers.
fn masks_follow_parts(alloc: Global, shape: &Shape) -> Result<bool, NoMemory>
    requires last_of_null { IsCode shape.now
        (0 ∷ 0 ∷ 1 ∷ 1 ∷ 0 ∷ 0 ∷ 0 ∷ 18446744073709551615 ∷ 7 ∷ 1 ∷ []) }
    requires last_part { IsCode shape.now
        (0 ∷ 0 ∷ 1 ∷ 1 ∷ 0 ∷ 0 ∷ 1 ∷ 18446744073709551615 ∷ 7 ∷ 1 ∷ []) }
    requires within_mask { IsCode shape.now (0 ∷ 1 ∷ 1 ∷ 2 ∷ 6 ∷ 1 ∷ 0 ∷ 0 ∷ 0 ∷ 1 ∷ []) }
{
    Ok(
        is_followed_by(
            alloc,
            shape,
            &[0, 0, 1, 1, 0, 0, 0, u64::MAX, 7, 1],
            Some(&[0, 0, 1, 1, 0, 0, 1, 0, 0, 0]),
        )? && is_followed_by(
            alloc,
            shape,
            &[0, 0, 1, 1, 0, 0, 1, u64::MAX, 7, 1],
            Some(&[0, 0, 1, 2, 1, 0, 0, 0, 0, 0]),
        )? && is_followed_by(
            alloc,
            shape,
            &[0, 1, 1, 2, 6, 1, 0, 0, 0, 1],
            Some(&[0, 1, 1, 2, 6, 8, 0, 0, 0, 0]),
        )?,
    )
}

/// Whether masks end at poison, and an argument follows the last byte of all.
fn arguments_follow_bytes(alloc: Global, shape: &Shape) -> Result<bool, NoMemory>
    requires last_of_mask { IsCode shape.now (0 ∷ 1 ∷ 1 ∷ 2 ∷ 5 ∷ 250 ∷ 0 ∷ 0 ∷ 0 ∷ 1 ∷ []) }
    requires poison_byte { IsCode shape.now (0 ∷ 1 ∷ 1 ∷ 2 ∷ 255 ∷ 0 ∷ 0 ∷ 0 ∷ 0 ∷ 1 ∷ []) }
    requires last { IsCode shape.now (1 ∷ 0 ∷ 1 ∷ 2 ∷ 255 ∷ 0 ∷ 0 ∷ 0 ∷ 0 ∷ 1 ∷ []) }
{
    Ok(
        is_followed_by(
            alloc,
            shape,
            &[0, 1, 1, 2, 5, 250, 0, 0, 0, 1],
            Some(&[0, 1, 1, 2, 6, 0, 0, 0, 0, 0]),
        )? && is_followed_by(
            alloc,
            shape,
            &[0, 1, 1, 2, 255, 0, 0, 0, 0, 1],
            Some(&[1, 0, 0, 0, 0, 0, 0, 0, 0, 0]),
        )? && is_followed_by(alloc, shape, &[1, 0, 1, 2, 255, 0, 0, 0, 0, 1], None)?,
    )
}

#[test]
fn bytes_come_before_sizes_and_sizes_before_arguments(rt: HostRuntime) -> Result<(), Fail> {
    let alloc = rt.alloc();
    let shape = one_of_each(alloc)?;
    expect(parts_follow_numbers(alloc, &shape)?, "parts follow numbers")?;
    expect(masks_follow_parts(alloc, &shape)?, "masks follow parts")?;
    expect(
        arguments_follow_bytes(alloc, &shape)?,
        "bytes come before sizes and sizes before arguments",
    )
}

/// Two parameters of one bit, one given block that has no byte, and two words of one bit.
fn without_bytes(alloc: Global) -> Result<Shape, NoMemory>
    ensures { IfOk result (λ s. IsCode s (0 ∷ 0 ∷ 0 ∷ 0 ∷ 0 ∷ 0 ∷ 0 ∷ [])) }
{
    let bit = Parameter {
        of_type: IrType::Int(Width::of(1)),
        no_undef: false,
        non_null: false,
        name: 0,
    };
    let shape = shape_with(alloc, bit, 2, 0, 2)?;
    Ok(shape)
}

/// How many points there are from this one on, if at most a hundred.
fn points_from(point: &mut Point, shape: &Shape) -> Option<u64>
    requires { IsOfShape shape.now point.old }
    ensures { IsOfShape shape.now point.new }
{
    for step in 0..100 {
        if !next(point, shape) {
            return Some(step + 1);
        }
    }
    None
}

#[test]
fn a_walk_meets_each_point_of_a_shape(rt: HostRuntime) -> Result<(), Fail> {
    let alloc = rt.alloc();
    let shape = without_bytes(alloc)?;
    let mut point = point_of(alloc, &[0, 0, 0, 0, 0, 0, 0], &shape)?;
    assert!(rt; points_from(&mut point, &shape) == Some(3 * 3 * 2 * 2));
    expect(
        !next(&mut point, &shape),
        "a walk meets each point of a shape",
    )
}

/// A pointer, one given block that has no byte, and no word.
fn one_pointer(alloc: Global) -> Result<Shape, NoMemory>
    ensures last_of_null { IfOk result (λ s. IsCode s (0 ∷ 0 ∷ 18446744073709551615 ∷ 0 ∷ [])) }
    ensures last_given { IfOk result (λ s. IsCode s (0 ∷ 1 ∷ 18446744073709551615 ∷ 0 ∷ [])) }
    ensures poison { IfOk result (λ s. IsCode s (1 ∷ 0 ∷ 0 ∷ 0 ∷ [])) }
{
    let pointer = Parameter {
        of_type: IrType::Ptr,
        no_undef: false,
        non_null: false,
        name: 0,
    };
    let shape = shape_with(alloc, pointer, 1, 0, 0)?;
    Ok(shape)
}

/// Whether blocks follow offsets, and poison follows both.
fn blocks_follow_offsets(alloc: Global, shape: &Shape) -> Result<bool, NoMemory>
    requires last_of_null { IsCode shape.now (0 ∷ 0 ∷ 18446744073709551615 ∷ 0 ∷ []) }
    requires last_given { IsCode shape.now (0 ∷ 1 ∷ 18446744073709551615 ∷ 0 ∷ []) }
    requires poison { IsCode shape.now (1 ∷ 0 ∷ 0 ∷ 0 ∷ []) }
{
    Ok(
        is_followed_by(alloc, shape, &[0, 0, u64::MAX, 0], Some(&[0, 1, 0, 0]))?
            && is_followed_by(alloc, shape, &[0, 1, u64::MAX, 0], Some(&[1, 0, 0, 0]))?
            && is_followed_by(alloc, shape, &[1, 0, 0, 0], None)?,
    )
}

#[test]
fn offsets_move_before_blocks(rt: HostRuntime) -> Result<(), Fail> {
    let shape = one_pointer(rt.alloc())?;
    expect(
        blocks_follow_offsets(rt.alloc(), &shape)?,
        "offsets move before blocks",
    )
}
