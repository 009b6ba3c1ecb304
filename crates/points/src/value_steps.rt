ghost use Rattle.std.specs.Prelude.{◌≡◌, ◌^◌, ◌≤◌, ◌<◌, IsTrue, IsFalse, length, MatchOption};
ghost use Rattle.points.specs.Code.{ValueFits, ArgsFit};
ghost use Rattle.points.specs.Next.{IsNextValue, IsLastValue, IsNextArgs, IsLastArgs, least_value, least_from};

use crate::byte_steps::next_pointer;
use crate::point::Layout;
use byte_block::{BlockName, Ptr, Value};
use ir_tree::{IrType, Parameter};
use support::Sequence;

/// The least value of a type.
fn least_value(of_type: IrType) -> Value
    ensures { result ≡ least_value of_type }
{
    match of_type {
        IrType::Int(_) => Value::Num(0),
        IrType::Ptr => Value::Ptr(Ptr {
            block: BlockName::Null,
            offset: 0,
        }),
    }
}

/// The next value of a type, poison being the last.
fn next_value(value: Value, of_type: IrType, layout: &Layout) -> Option<Value>
    requires { ValueFits layout.now of_type value }
    ensures { MatchOption result (IsLastValue layout.now of_type value) (λ next. IsNextValue layout.now of_type value next) }
{
    match of_type {
        IrType::Int(width) => match value {
            Value::Num(n) => {
                if (n as u128) + 1 < width.end() {
                    Some(Value::Num(n + 1))
                } else {
                    Some(Value::Poison)
                }
            }
            Value::Poison => None,
            Value::Ptr(_) => None,
        },
        IrType::Ptr => match value {
            Value::Ptr(pointer) => match next_pointer(pointer, layout) {
                Some(next) => Some(Value::Ptr(next)),
                None => Some(Value::Poison),
            },
            Value::Poison => None,
            Value::Num(_) => None,
        },
    }
}

/// Writes the least values from an index on.
fn least_from(args: &mut Sequence<Value>, parameters: &[Parameter], from: usize)
    requires count { length args.old ≡ length parameters.now }
    requires from { from ≤ length args.old }
    ensures { args.new ≡ least_from parameters.now from args.old }
{
    for i in from..parameters.len() {
        args.set(i, least_value(parameters[i].of_type));
    }
}

/// Replaces the arguments by the next list. It answers false exactly at the last one, which then
/// stays.
pub fn next_values(args: &mut Sequence<Value>, parameters: &[Parameter], layout: &Layout) -> bool
    requires { ArgsFit layout.now parameters.now args.old }
    ensures next { IsTrue result → IsNextArgs layout.now parameters.now args.old args.new }
    ensures last { IsFalse result → IsLastArgs layout.now parameters.now args.old × (args.new ≡ args.old) }
{
    for i in (0..parameters.len()).rev() {
        if let Some(value) = next_value(*args.get(i), parameters[i].of_type, layout) {
            args.set(i, value);
            least_from(args, parameters, i + 1);
            return true;
        }
    }
    false
}
