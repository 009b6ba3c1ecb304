//! Gates, each over earlier ones.

ghost use Rattle.std.specs.Prelude.{◌≡◌, ◌≢◌, ◌<◌, ◌&&◌, ◌||◌, ◌∷◌, [], ◌++◌, ◌↔◌, ◌⊎◌, Bool, List, None, ℕ, Some, slice_get, IfOk, IfSome, IsOk, IsTrue, OnErr, OnOk, cond, false, length, not, take, true};

use indexmap::IndexSet;
use std::alloc::Global;
use std::marker::Model;
use support::NoMemory;

/// A gate of a circuit by its index, counted from 0, or the negation of that gate.
#[derive(Clone, Copy, PartialEq, Eq, Hash, Debug)]
pub struct GateId {
    pub index: usize,
    pub negated: bool,
}

impl GateId {
    ghost use Rattle.gates.specs.Values.{exclusive, gate_at};

    /// The gate, or its negation if `negate` is true.
    fn negated_if(self, negate: bool) -> GateId
        ensures index { result.index ≡ self.index }
        ensures negated { result.negated ≡ exclusive negate self.negated }
        ensures says { (v : ℕ → Bool) (gates : List Gate) → gate_at v gates result ≡ exclusive negate (gate_at v gates self) }
    {
        GateId {
            index: self.index,
            negated: self.negated != negate,
        }
    }
}

/// A gate over earlier ones. An input carries its own index.
///
/// A sign that can be on the result isn't on an operand, so that gates that differ only in signs
/// are one: both operands of `Xor` are plain, and so are the test and the first arm of
/// `Choose`.
#[derive(Clone, Copy, PartialEq, Eq, Hash, Debug)]
pub enum Gate {
    /// Always 0.
    Zero,
    /// An input of the circuit.
    Input(usize),
    /// 1 where both are; `a` comes before `b`.
    And {
        a: GateId,
        b: GateId,
    },
    /// 1 where exactly one of the gates at these indices is; `a` comes before `b`.
    Xor {
        a: usize,
        b: usize,
    },
    /// `first` where `test` is 1, and else `second`; no two of them are the same gate or opposite.
    Choose {
        test: usize,
        first: usize,
        second: GateId,
    },
}

/// Gates, each once and after those that it names. Contracts see the list of gates.
#[derive(Drop)]
pub struct Circuit {
    gates: IndexSet<Gate>,
}

impl Model for Circuit {
    ghost use Rattle.std.specs.Prelude.{List};
    ghost use Rattle.gates.specs.declared.circuit.Gate.{Gate};
    ghost use Rattle.gates.specs.Values.{AreFit};

    ghost Value = { List Gate };

    ghost view = { λ c. c.gates.keys };

    ghost invariant = { λ c. AreFit 0 c.gates.keys };
}

impl Circuit {
    ghost use Rattle.gates.specs.declared.circuit.Gate.TheVariants.{Input, Zero};
    ghost use Rattle.gates.specs.Values.{AreFit, Grows, IsFit, IsInput, Keeps, Makes, exclusive, gate_at, gate_value, inputs_of, values_of};

    /// No gates.
    pub fn new(alloc: Global) -> Self
        ensures { result ≡ [] }
    {
        Circuit {
            gates: IndexSet::new(alloc),
        }
    }

    /// The gates, in order.
    pub fn as_slice(&self) -> &[Gate]
        ensures value { result.now ≡ self.now }
        ensures fit { AreFit 0 self.now }
    {
        self.gates.as_slice()
    }

    /// How many gates there are.
    pub fn len(&self) -> usize
        ensures { result ≡ length self.now }
    {
        self.gates.len()
    }

    /// Whether there is no gate.
    pub fn is_empty(&self) -> bool
        ensures { IsTrue result ↔ (self.now ≡ []) }
    {
        self.gates.is_empty()
    }

    /// The index of the gate, which is stored unless it is there.
    fn store(&mut self, gate: Gate) -> Result<GateId, NoMemory>
        requires { IsFit (length self.old) gate }
        ensures stored { IfOk result (λ id. slice_get self.new id.index ≡ Some gate) }
        ensures plain { IfOk result (λ id. id.negated ≡ false) }
        ensures fit { AreFit 0 self.new }
        ensures grown { (self.new ≡ self.old) ⊎ (self.new ≡ self.old ++ gate ∷ []) }
        ensures err { OnErr result (self.new ≡ self.old) }
    {
        let (index, _) = self.gates.insert_full(gate)?;
        Ok(GateId {
            index,
            negated: false,
        })
    }

    /// The gate, by its value.
    fn add(&mut self, gate: Gate) -> Result<GateId, NoMemory>
        requires fit { IsFit (length self.old) gate }
        requires inner { inputs_of (gate ∷ []) ≡ [] }
        ensures made { IfOk result (λ id. Makes self.new id (λ v. gate_value v (values_of v self.old) gate)) }
        ensures kept { Keeps self.old self.new }
    {
        let id = self.store(gate)?;
        Ok(id)
    }

    /// One more input. An assignment of the inputs gives each input a value by its index.
    pub fn input(&mut self) -> Result<GateId, NoMemory>
        ensures input { IfOk result (IsInput self.new) }
        ensures last { IfOk result (λ id. id.index ≡ length self.old) }
        ensures made { IfOk result (λ id. Makes self.new id (λ v. v (length self.old))) }
        ensures inputs { IfOk result (λ id. inputs_of self.new ≡ inputs_of self.old ++ id.index ∷ []) }
        ensures added { OnOk result (self.new ≡ self.old ++ Input (length self.old) ∷ []) }
        ensures err { OnErr result (self.new ≡ self.old) }
        ensures kept { Grows self.old self.new }
    {
        let place = self.len();
        let id = self.store(Gate::Input(place))?;
        Ok(id)
    }

    /// Takes away all gates but the first `count`.
    pub fn truncate(&mut self, count: usize)
        ensures { self.new ≡ take count self.old }
    {
        self.gates.truncate(count);
    }

    /// A gate that always has this value.
    pub fn constant(&mut self, value: bool) -> Result<GateId, NoMemory>
        ensures made { IfOk result (λ id. Makes self.new id (λ _. value)) }
        ensures kept { Keeps self.old self.new }
    {
        let zero = self.add(Gate::Zero)?;
        if value { self.not(zero) } else { Ok(zero) }
    }

    /// The gate that is 1 where the other is 0. No gate is added, so it takes no memory.
    pub fn not(&mut self, a: GateId) -> Result<GateId, NoMemory>
        requires { a.index < length self.old }
        ensures ok { IsOk result }
        ensures made { IfOk result (λ id. Makes self.new id (λ v. not (gate_at v self.old a))) }
        ensures same { self.new ≡ self.old }
        ensures kept { Keeps self.old self.new }
    {
        Ok(GateId {
            index: a.index,
            negated: !a.negated,
        })
    }

    /// Whether the gate at the index of `a` is the constant.
    fn is_constant(&self, a: GateId) -> bool
        requires { a.index < length self.now }
        ensures { IsTrue result → (v : ℕ → Bool) → gate_at v self.now a ≡ a.negated }
    {
        matches!(self.as_slice()[a.index], Gate::Zero)
    }

    /// Whether the gate at the index of `b` is an and gate, one operand of which is `a`. It is then
    /// 0 wherever `a` is.
    fn is_over(&self, b: GateId, a: GateId) -> bool
        requires { b.index < length self.now }
        ensures { IsTrue result → (v : ℕ → Bool) → gate_at v self.now a ≡ false → gate_at v self.now b ≡ b.negated }
    {
        match self.as_slice()[b.index] {
            Gate::And {
                a: first,
                b: second,
            } => first == a || second == a,
            Gate::Zero | Gate::Input(_) | Gate::Xor { .. } | Gate::Choose { .. } => false,
        }
    }

    /// The value of `a` wherever `c` is 1, if `a` is `c`, its negation, or the constant.
    fn value_where(&self, c: GateId, a: GateId) -> Option<bool>
        requires { a.index < length self.now }
        ensures some { IfSome result (λ value. (v : ℕ → Bool) → gate_at v self.now c ≡ true → gate_at v self.now a ≡ value) }
        ensures none { (result ≡ None) → c.index ≢ a.index }
    {
        if c.index == a.index {
            Some(c.negated == a.negated)
        } else if self.is_constant(a) {
            Some(a.negated)
        } else {
            None
        }
    }

    /// A gate that is 1 where both are.
    pub fn and(&mut self, a: GateId, b: GateId) -> Result<GateId, NoMemory>
        requires a { a.index < length self.old }
        requires b { b.index < length self.old }
        ensures made { IfOk result (λ id. Makes self.new id (λ v. gate_at v self.old a && gate_at v self.old b)) }
        ensures kept { Keeps self.old self.new }
    {
        if a.index == b.index {
            self.and_same(a, b)
        } else if self.is_constant(a) {
            if a.negated { Ok(b) } else { Ok(a) }
        } else if self.is_constant(b) {
            if b.negated { Ok(a) } else { Ok(b) }
        } else {
            self.and_apart(a, b)
        }
    }

    /// The and of a gate with itself or with its negation.
    fn and_same(&mut self, a: GateId, b: GateId) -> Result<GateId, NoMemory>
        requires a { a.index < length self.old }
        requires same { a.index ≡ b.index }
        ensures made { IfOk result (λ id. Makes self.new id (λ v. gate_at v self.old a && gate_at v self.old b)) }
        ensures kept { Keeps self.old self.new }
    {
        if a.negated == b.negated {
            Ok(a)
        } else {
            self.constant(false)
        }
    }

    /// The and of two gates at different indices, looking one level down.
    fn and_apart(&mut self, a: GateId, b: GateId) -> Result<GateId, NoMemory>
        requires a { a.index < length self.old }
        requires b { b.index < length self.old }
        requires apart { a.index ≢ b.index }
        ensures made { IfOk result (λ id. Makes self.new id (λ v. gate_at v self.old a && gate_at v self.old b)) }
        ensures kept { Keeps self.old self.new }
    {
        if let Some(id) = self.absorbed(a, b)? {
            return Ok(id);
        }
        if let Some(id) = self.absorbed(b, a)? {
            return Ok(id);
        }
        if a.index < b.index {
            self.add(Gate::And { a, b })
        } else {
            self.add(Gate::And { a: b, b: a })
        }
    }

    /// The and of two gates, where the second is an and over the first or its negation, or is the
    /// negation of one over the first's negation: `a & (a & x)` is the second, `a & (!a & x)` is 0 and
    /// `a & !(!a & x)` is `a`. This is the absorption of Brummayer and Biere, "Local two-level
    /// and-inverter graph minimization without blowup" (2006).
    fn absorbed(&mut self, a: GateId, b: GateId) -> Result<Option<GateId>, NoMemory>
        requires a { a.index < length self.old }
        requires b { b.index < length self.old }
        ensures made { IfOk result (λ r. IfSome r (λ id. Makes self.new id (λ v. gate_at v self.old a && gate_at v self.old b))) }
        ensures kept { Keeps self.old self.new }
    {
        let not_a = self.not(a)?;
        if !b.negated && self.is_over(b, a) {
            Ok(Some(b))
        } else if !self.is_over(b, not_a) {
            Ok(None)
        } else if b.negated {
            Ok(Some(a))
        } else {
            let zero = self.constant(false)?;
            Ok(Some(zero))
        }
    }

    /// A gate that is 1 where either is.
    pub fn or(&mut self, a: GateId, b: GateId) -> Result<GateId, NoMemory>
        requires a { a.index < length self.old }
        requires b { b.index < length self.old }
        ensures made { IfOk result (λ id. Makes self.new id (λ v. gate_at v self.old a || gate_at v self.old b)) }
        ensures kept { Keeps self.old self.new }
    {
        let not_a = self.not(a)?;
        let not_b = self.not(b)?;
        let neither = self.and(not_a, not_b)?;
        self.not(neither)
    }

    /// A gate that is 1 where exactly one is.
    pub fn xor(&mut self, a: GateId, b: GateId) -> Result<GateId, NoMemory>
        requires a { a.index < length self.old }
        requires b { b.index < length self.old }
        ensures made { IfOk result (λ id. Makes self.new id (λ v. exclusive (gate_at v self.old a) (gate_at v self.old b))) }
        ensures kept { Keeps self.old self.new }
    {
        if a.index == b.index {
            self.constant(a.negated != b.negated)
        } else if self.is_constant(a) {
            Ok(b.negated_if(a.negated))
        } else if self.is_constant(b) {
            Ok(a.negated_if(b.negated))
        } else if a.index < b.index {
            self.xor_in_order(a, b)
        } else {
            self.xor_in_order(b, a)
        }
    }

    /// The exclusive or of two gates, the first at the smaller index. Both signs go to the result.
    fn xor_in_order(&mut self, a: GateId, b: GateId) -> Result<GateId, NoMemory>
        requires order { a.index < b.index }
        requires b { b.index < length self.old }
        ensures made { IfOk result (λ id. Makes self.new id (λ v. exclusive (gate_at v self.old a) (gate_at v self.old b))) }
        ensures kept { Keeps self.old self.new }
    {
        let plain = self.add(Gate::Xor {
            a: a.index,
            b: b.index,
        })?;
        Ok(plain.negated_if(a.negated != b.negated))
    }

    /// A gate that has the value of `a` where `c` is 1, and else that of `b`.
    pub fn choose(&mut self, c: GateId, a: GateId, b: GateId) -> Result<GateId, NoMemory>
        requires c { c.index < length self.old }
        requires a { a.index < length self.old }
        requires b { b.index < length self.old }
        ensures made { IfOk result (λ id. Makes self.new id (λ v. cond (gate_at v self.old c) (gate_at v self.old a) (gate_at v self.old b))) }
        ensures kept { Keeps self.old self.new }
    {
        if self.is_constant(c) {
            return Ok(if c.negated { a } else { b });
        }
        if a.index == b.index {
            return self.choose_same(c, a, b);
        }
        let not_c = c.negated_if(true);
        if let Some(value) = self.value_where(c, a) {
            return if value {
                self.or(c, b)
            } else {
                self.and(not_c, b)
            };
        }
        if let Some(value) = self.value_where(not_c, b) {
            return if value {
                self.or(not_c, a)
            } else {
                self.and(c, a)
            };
        }
        if c.negated {
            self.choose_plain(not_c, b, a)
        } else {
            self.choose_plain(c, a, b)
        }
    }

    /// A choice between a gate and itself or its negation: that gate, or an exclusive or.
    fn choose_same(&mut self, c: GateId, a: GateId, b: GateId) -> Result<GateId, NoMemory>
        requires c { c.index < length self.old }
        requires a { a.index < length self.old }
        requires same { a.index ≡ b.index }
        ensures made { IfOk result (λ id. Makes self.new id (λ v. cond (gate_at v self.old c) (gate_at v self.old a) (gate_at v self.old b))) }
        ensures kept { Keeps self.old self.new }
    {
        if a.negated == b.negated {
            Ok(a)
        } else {
            self.xor(c, b)
        }
    }

    /// A choice by a plain test, all three gates at different indices. The sign of the first arm
    /// goes to the second and to the result.
    fn choose_plain(&mut self, c: GateId, a: GateId, b: GateId) -> Result<GateId, NoMemory>
        requires c { c.index < length self.old }
        requires a { a.index < length self.old }
        requires b { b.index < length self.old }
        requires plain { c.negated ≡ false }
        requires c_a { c.index ≢ a.index }
        requires c_b { c.index ≢ b.index }
        requires a_b { a.index ≢ b.index }
        ensures made { IfOk result (λ id. Makes self.new id (λ v. cond (gate_at v self.old c) (gate_at v self.old a) (gate_at v self.old b))) }
        ensures kept { Keeps self.old self.new }
    {
        let plain = self.add(Gate::Choose {
            test: c.index,
            first: a.index,
            second: b.negated_if(a.negated),
        })?;
        Ok(plain.negated_if(a.negated))
    }
}
