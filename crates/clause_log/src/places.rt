//! Where the marks of variables are.

ghost use Rattle.std.specs.Prelude.{ℕ, ◌≡◌, ◌<◌, ◌+◌, IfOk, length, slice_index};
ghost use Rattle.std.specs.List.Sorted.{IsStrictlyIncreasing};

use clause_lits::Clause;
use std::alloc::{AllocError, Global};

/// Variables in order, each once.
#[derive(Drop)]
pub struct Variables {
    pub numbers: Vec<u64>,
    pub ghost rising: { IsStrictlyIncreasing numbers.items },
}

/// The index of the mark of each variable.
#[derive(Drop)]
pub enum Places {
    /// It is the variable itself, up to the greatest one.
    Direct { greatest: u64 },
    /// It is the variable's index in a list of all that occur.
    Listed { variables: Variables },
}

impl Variables {
    ghost use Rattle.clause_log.specs.Placing.{index_of};

    /// The variables of these clauses.
    fn of(alloc: Global, clauses: &[Clause]) -> Result<Variables, AllocError> {
        let mut numbers = Vec::new(alloc);
        for clause in clauses {
            push_variables(clause, &mut numbers)?;
        }
        Ok(Variables::sorted(numbers))
    }

    /// These variables, in order and each once.
    fn sorted(mut numbers: Vec<u64>) -> Variables {
        numbers.sort_unstable();
        numbers.dedup();
        Variables { numbers }
    }

    /// The index of a variable, found by binary search, or `None` if the list lacks it.
    #[inline(never)]
    fn find(&self, variable: u64) -> Option<usize>
        ensures { result ≡ index_of self.now.numbers.items variable }
    {
        self.numbers.binary_search(&variable).ok()
    }
}

/// Adds the variables of a clause to a list.
fn push_variables(clause: &Clause, numbers: &mut Vec<u64>) -> Result<(), AllocError> {
    for literal in clause.literals() {
        numbers.push(literal.variable)?;
    }
    Ok(())
}

impl Places {
    ghost use Rattle.clause_log.specs.Placing.{place_of};

    /// Places for the variables of these clauses. They take no more room than the literals of the
    /// clauses, however great the variables are.
    pub fn of(alloc: Global, clauses: &[Clause]) -> Result<Places, AllocError> {
        let (greatest, count) = extent(clauses);
        if greatest <= count {
            Ok(Places::Direct { greatest })
        } else {
            let variables = Variables::of(alloc, clauses)?;
            Ok(Places::Listed { variables })
        }
    }

    /// How many places there are.
    pub fn room(&self) -> usize {
        match self {
            Places::Direct { greatest } => (*greatest as usize).saturating_add(1),
            Places::Listed { variables } => variables.numbers.len(),
        }
    }

    /// The place of a variable, or `None` if it has none.
    pub fn find(&self, variable: u64) -> Option<usize>
        ensures { result ≡ place_of self.now variable }
    {
        match self {
            Places::Direct { .. } => Some(variable as usize),
            Places::Listed { variables } => variables.find(variable),
        }
    }
}

/// The greatest variable of the clauses, or 0 if they have none, and how many literals they have.
fn extent(clauses: &[Clause]) -> (u64, u64) {
    let mut greatest = 0;
    let mut count: u64 = 0;
    for clause in clauses {
        let literals = clause.literals();
        if let Some(last) = literals.last() {
            greatest = last.variable.max(greatest);
        }
        count = count.saturating_add(literals.len() as u64);
    }
    (greatest, count)
}
