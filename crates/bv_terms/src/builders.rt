//! A builder for each operation.

ghost use Rattle.std.specs.Prelude.{◌≡◌, [], ◌∷◌, ◌<◌, ◌≤◌, ◌+◌, ◌-◌, ◌*◌, ◌/◌, ◌%◌, ◌^◌, IfOk, Some, slice_get, length, cond};
ghost use Rattle.bv_terms.specs.Tree.{binary_value, binary_width, extended_signed, width_of};
ghost use Rattle.bv_terms.specs.declared.term.Term.TheVariants as variant;
ghost use Rattle.bv_terms.specs.Trees.{Extends, Gains, IsWidth, Keeps, Makes, bit_at, tree_in, term_at};

use crate::term::{BinaryOp, Term, TermId};
use crate::terms::Terms;
use support::NoMemory;

/// Each builder answers the term, which is stored unless it is there, and leaves the earlier ones
/// as they were, even out of memory. Only [`Terms::variable`] adds a variable.
impl Terms {
    /// A number, which is below 2 to the power of the width.
    pub fn constant(&mut self, value: u128, width: u32) -> Result<TermId, NoMemory>
        requires wide { IsWidth width }
        requires fits { value < 2 ^ width }
        ensures stored { IfOk result (λ id. slice_get self.new id.index ≡ Some (variant.Constant value width)) }
        ensures made { IfOk result (λ id. Makes self.new id width (λ _. value)) }
        ensures kept { Keeps self.old self.new }
    {
        self.apply(Term::Constant { value, width })
    }

    /// A variable, which is its number and its width together.
    pub fn variable(&mut self, number: u64, width: u32) -> Result<TermId, NoMemory>
        requires { IsWidth width }
        ensures stored { IfOk result (λ id. slice_get self.new id.index ≡ Some (variant.Variable number width)) }
        ensures made { IfOk result (λ id. Makes self.new id width (λ v. v number width % 2 ^ width)) }
        ensures kept { Extends self.old self.new }
        ensures gains { Gains self.old self.new (record { number = number; width = width } ∷ []) }
    {
        self.store(Term::Variable { number, width })
    }

    /// Each bit inverted.
    pub fn not(&mut self, a: TermId) -> Result<TermId, NoMemory>
        requires { a.index < length self.old }
        ensures stored { IfOk result (λ id. slice_get self.new id.index ≡ Some (variant.Not a (width_of (tree_in self.old a)))) }
        ensures made { IfOk result (λ id. Makes self.new id (width_of (tree_in self.old a)) (λ v. 2 ^ width_of (tree_in self.old a) - 1 - term_at v self.old a)) }
        ensures kept { Keeps self.old self.new }
    {
        let width = self.width(a);
        self.apply(Term::Not { a, width })
    }

    /// The value of the operation on the two.
    pub fn binary(&mut self, op: BinaryOp, a: TermId, b: TermId) -> Result<TermId, NoMemory>
        requires a { a.index < length self.old }
        requires b { b.index < length self.old }
        requires alike { width_of (tree_in self.old a) ≡ width_of (tree_in self.old b) }
        ensures stored { IfOk result (λ id. slice_get self.new id.index ≡ Some (variant.Binary op a b (width_of (tree_in self.old a)))) }
        ensures made { IfOk result (λ id. Makes self.new id (binary_width op (width_of (tree_in self.old a)))
            (λ v. binary_value op (width_of (tree_in self.old a)) (term_at v self.old a) (term_at v self.old b))) }
        ensures kept { Keeps self.old self.new }
    {
        let width = self.width(a);
        self.apply(Term::Binary(op, a, b, width))
    }

    /// The first of two where the condition, of width 1, is 1, and else the second.
    pub fn ite(&mut self, c: TermId, a: TermId, b: TermId) -> Result<TermId, NoMemory>
        requires c { c.index < length self.old }
        requires a { a.index < length self.old }
        requires b { b.index < length self.old }
        requires bit { width_of (tree_in self.old c) ≡ 1 }
        requires alike { width_of (tree_in self.old a) ≡ width_of (tree_in self.old b) }
        ensures stored { IfOk result (λ id. slice_get self.new id.index ≡ Some (variant.Ite c a b (width_of (tree_in self.old a)))) }
        ensures made { IfOk result (λ id. Makes self.new id (width_of (tree_in self.old a)) (λ v. cond (bit_at v self.old c) (term_at v self.old a) (term_at v self.old b))) }
        ensures kept { Keeps self.old self.new }
    {
        let width = self.width(a);
        self.apply(Term::Ite { c, a, b, width })
    }

    /// `width` bits of `a` from bit `from` on, counted from the least significant one.
    pub fn extract(&mut self, a: TermId, from: u32, width: u32) -> Result<TermId, NoMemory>
        requires a { a.index < length self.old }
        requires least { 1 ≤ width }
        requires most { from + width ≤ width_of (tree_in self.old a) }
        ensures stored { IfOk result (λ id. slice_get self.new id.index ≡ Some (variant.Extract a from width)) }
        ensures made { IfOk result (λ id. Makes self.new id width (λ v. term_at v self.old a / 2 ^ from % 2 ^ width)) }
        ensures kept { Keeps self.old self.new }
    {
        let _whole = self.width(a);
        self.apply(Term::Extract { a, from, width })
    }

    /// The bits of `high` and then those of `low`, at most 128 in all.
    pub fn concat(&mut self, high: TermId, low: TermId) -> Result<TermId, NoMemory>
        requires high { high.index < length self.old }
        requires low { low.index < length self.old }
        requires most { width_of (tree_in self.old high) + width_of (tree_in self.old low) ≤ 128 }
        ensures stored { IfOk result (λ id. slice_get self.new id.index ≡ Some (variant.Concat high low (width_of (tree_in self.old low)) (width_of (tree_in self.old high) + width_of (tree_in self.old low)))) }
        ensures made { IfOk result (λ id. Makes self.new id (width_of (tree_in self.old high) + width_of (tree_in self.old low))
            (λ v. term_at v self.old high * 2 ^ width_of (tree_in self.old low) + term_at v self.old low)) }
        ensures kept { Keeps self.old self.new }
    {
        let above = self.width(high);
        let below = self.width(low);
        let width = above + below;
        self.apply(Term::Concat {
            high,
            low,
            below,
            width,
        })
    }

    /// The same number at a width that is as great or greater.
    pub fn zext(&mut self, a: TermId, width: u32) -> Result<TermId, NoMemory>
        requires a { a.index < length self.old }
        requires least { width_of (tree_in self.old a) ≤ width }
        requires most { width ≤ 128 }
        ensures stored { IfOk result (λ id. slice_get self.new id.index ≡ Some (variant.Zext a width)) }
        ensures made { IfOk result (λ id. Makes self.new id width (λ v. term_at v self.old a)) }
        ensures kept { Keeps self.old self.new }
    {
        let _from = self.width(a);
        self.apply(Term::Zext { a, width })
    }

    /// The same number in two's complement at a width that is as great or greater.
    pub fn sext(&mut self, a: TermId, width: u32) -> Result<TermId, NoMemory>
        requires a { a.index < length self.old }
        requires least { width_of (tree_in self.old a) ≤ width }
        requires most { width ≤ 128 }
        ensures stored { IfOk result (λ id. slice_get self.new id.index ≡ Some (variant.Sext a (width_of (tree_in self.old a)) width)) }
        ensures made { IfOk result (λ id. Makes self.new id width (λ v. extended_signed (width_of (tree_in self.old a)) width (term_at v self.old a))) }
        ensures kept { Keeps self.old self.new }
    {
        let from = self.width(a);
        self.apply(Term::Sext { a, from, width })
    }
}
