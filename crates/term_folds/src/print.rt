//! Terms written for a reader.

ghost use Rattle.std.specs.Prelude.{◌≡◌, List, length};
ghost use Rattle.bv_terms.specs.Trees.{IsWithin};

use bv_terms::{BinaryOp, Term, TermFold};
use std::alloc::Global;
use support::NoMemory;

/// The text of each term: the name of its operation before its parts, as in Lisp; a variable is its
/// number and a constant its value, each with its width. A text is as long as the written-out tree.
#[derive(Drop)]
pub struct Print {
    pub alloc: Global,
}

/// The name of an operation.
fn name(op: BinaryOp) -> &'static str {
    match op {
        BinaryOp::And => "and",
        BinaryOp::Or => "or",
        BinaryOp::Xor => "xor",
        BinaryOp::Add => "add",
        BinaryOp::Sub => "sub",
        BinaryOp::Mul => "mul",
        BinaryOp::Udiv => "udiv",
        BinaryOp::Urem => "urem",
        BinaryOp::Shl => "shl",
        BinaryOp::Lshr => "lshr",
        BinaryOp::Ashr => "ashr",
        BinaryOp::Eq => "eq",
        BinaryOp::Ult => "ult",
        BinaryOp::Slt => "slt",
    }
}

/// An operation and its one part.
fn one(alloc: Global, name: &str, a: &str) -> Result<String, NoMemory> {
    Ok(format!(in alloc; "({name} {a})")?)
}

/// An operation and its two parts.
fn two(alloc: Global, name: &str, a: &str, b: &str) -> Result<String, NoMemory> {
    Ok(format!(in alloc; "({name} {a} {b})")?)
}

/// An operation, a number that belongs to it, and its one part.
fn numbered(alloc: Global, name: &str, number: u32, a: &str) -> Result<String, NoMemory> {
    Ok(format!(in alloc; "({name} {number} {a})")?)
}

/// The text of a term over those of the earlier ones.
fn text(alloc: Global, term: &Term, done: &[String]) -> Result<String, NoMemory>
    requires { IsWithin (length done.now) term.now }
{
    match *term {
        Term::Constant { value, width } => Ok(format!(in alloc; "{value}:{width}")?),
        Term::Variable { number, width } => Ok(format!(in alloc; "v{number}:{width}")?),
        Term::Not { a, .. } => one(alloc, "not", done[a.index].as_str()),
        Term::Binary(op, a, b, _) => {
            two(
                alloc,
                name(op),
                done[a.index].as_str(),
                done[b.index].as_str(),
            )
        }
        Term::Ite { c, a, b, .. } => {
            let condition = done[c.index].as_str();
            let first = done[a.index].as_str();
            let second = done[b.index].as_str();
            Ok(format!(in alloc; "(ite {condition} {first} {second})")?)
        }
        Term::Extract { a, from, width } => {
            let whole = done[a.index].as_str();
            Ok(format!(in alloc; "(extract {from} {width} {whole})")?)
        }
        Term::Concat { high, low, .. } => two(
            alloc,
            "concat",
            done[high.index].as_str(),
            done[low.index].as_str(),
        ),
        Term::Zext { a, width } => numbered(alloc, "zext", width, done[a.index].as_str()),
        Term::Sext { a, width, .. } => numbered(alloc, "sext", width, done[a.index].as_str()),
    }
}

impl TermFold for Print {
    type Out = String;

    type Fault = NoMemory;

    ghost stands = { λ _ _ _. Unit {0} };

    ghost follows = { λ _ _. Unit {0} };

    ghost gives = { λ _ _. Unit {0} };

    fn node(&mut self, term: &Term, done: &[String]) -> Result<String, NoMemory> {
        text(self.alloc, term, done)
    }

    ghost stays = { λ _. tt };

    ghost goes_on = { λ _ _ _ _ _. tt };

    ghost keeps = { λ _ _ _ _ _ _. tt };
}
