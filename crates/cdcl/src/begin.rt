//! A search before its first decision.

use crate::clauses::Clauses;
use crate::forgetting::FIRST_MOST;
use crate::luby::Luby;
use crate::occurrences::Occurrences;
use crate::order::Order;
use crate::search::Solver;
use crate::steps::Chains;
use crate::tables::{put, short, zeros};
use crate::trail::Trail;
use crate::watches::Watches;
use clause_lits::{Clause, Cnf, Lit};
use std::alloc::Global;
use support::NoMemory;

/// A search has fewer variables.
const MOST_VARIABLES: u64 = 1 << 30;

/// The number of a literal.
pub fn code_of(literal: Lit) -> u32 {
    let variable = short(literal.variable as usize);
    let sign = if literal.positive { 0 } else { 1 };
    variable.wrapping_mul(2).wrapping_add(sign)
}

/// The numbers of a clause's literals.
fn codes_of(alloc: Global, clause: &Clause) -> Result<Vec<u32>, NoMemory> {
    let mut codes = Vec::new(alloc);
    for literal in clause.literals() {
        codes.push(code_of(*literal))?;
    }
    Ok(codes)
}

/// The first scores of variables: those of `first` are the greatest, in their order, and then come all
/// others.
fn firsts_of(alloc: Global, variables: usize, first: &[Lit]) -> Result<Vec<u32>, NoMemory> {
    let mut firsts = zeros(alloc, variables)?;
    for index in 0..variables {
        let score = short(variables.wrapping_sub(index));
        put(&mut firsts, short(index), score);
    }
    let mut score = short(variables.saturating_add(first.len()));
    for literal in first {
        put(&mut firsts, short(literal.variable as usize), score);
        score = score.wrapping_sub(1);
    }
    Ok(firsts)
}

impl Solver {
    /// No clauses yet, over this many variables and 0.
    fn empty(alloc: Global, variables: usize, firsts: Vec<u32>) -> Result<Solver, NoMemory> {
        Ok(Solver {
            alloc,
            clauses: Clauses::new(alloc)?,
            watches: Watches::new(alloc, variables.saturating_mul(2))?,
            trail: Trail::new(alloc, variables)?,
            order: Order::new(alloc, firsts)?,
            phases: vec![in alloc; 1; variables]?,
            seen: vec![in alloc; 0; variables]?,
            marked: Vec::new(alloc),
            head: 0,
            conflict: 0,
            given: 0,
            occurrences: Occurrences::new(alloc, variables.saturating_mul(2))?,
            queue: Vec::new(alloc),
            marks: vec![in alloc; 0; variables.saturating_mul(2)]?,
            removed: vec![in alloc; 0; variables]?,
            eliminated: Vec::new(alloc),
            cleared: 0,
            work: 0,
            looks: 0,
            rated: Vec::new(alloc),
            most_rated: FIRST_MOST,
            stamps: zeros(alloc, variables.saturating_add(1))?,
            stamp: 0,
            equalities: Vec::new(alloc),
            is_swept: false,
            is_reduced: false,
            luby: Luby::new(),
            chains: Chains::new(alloc),
            taken: Vec::new(alloc),
        })
    }

    /// A solver of clauses, or `None` where there are too many variables. Before a conflict the variables
    /// `first` are decided before the others, in their order.
    pub fn of(alloc: Global, cnf: &Cnf, first: &[Lit]) -> Result<Option<Solver>, NoMemory> {
        if cnf.variables >= MOST_VARIABLES {
            return Ok(None);
        }
        let variables = (cnf.variables as usize).saturating_add(1);
        let firsts = firsts_of(alloc, variables, first)?;
        let mut solver = Solver::empty(alloc, variables, firsts)?;
        for clause in cnf.clauses.as_slice() {
            let literals = codes_of(alloc, clause)?;
            solver.give(&literals)?;
        }
        solver.begin()?;
        Ok(Some(solver))
    }

    /// A solver of the same given clauses, which has learned nothing. It keeps the last values.
    pub fn renewed(&self) -> Result<Solver, NoMemory> {
        let firsts = self.order.firsts(self.alloc)?;
        let mut solver = Solver::empty(self.alloc, self.removed.len(), firsts)?;
        for number in 1..self.given.wrapping_add(1) {
            let literals = self.literals_of(number)?;
            solver.give(&literals)?;
        }
        solver.begin()?;
        solver.phases = Vec::from_slice(self.alloc, &self.phases)?;
        Ok(solver)
    }

    /// All clauses are given: each variable may be decided.
    fn begin(&mut self) -> Result<(), NoMemory> {
        self.given = self.clauses.count();
        for variable in 1..self.removed.len() {
            self.order.insert(short(variable))?;
        }
        Ok(())
    }

    /// Adds a given clause: it is watched, or its one literal is true.
    fn give(&mut self, literals: &[u32]) -> Result<(), NoMemory> {
        let number = self.clauses.add(literals)?;
        match literals {
            [] => self.conflict = number,
            [only] => self.force(*only, number)?,
            _ => self.watch(number)?,
        }
        Ok(())
    }

    /// Makes the one literal of a clause true.
    pub fn force(&mut self, literal: u32, number: u32) -> Result<(), NoMemory> {
        if self.trail.is_false(literal) {
            self.conflict = number;
        } else if self.trail.is_open(literal) {
            self.trail.assign(literal, number)?;
        }
        Ok(())
    }
}
