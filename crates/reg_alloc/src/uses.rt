//! The order in which a code shows its variables, and how often it uses them.

use flat_lang::FStmt;
use rup_base::NoMemory;
use std::alloc::Global;

/// How much more a use in a loop counts than one beside it.
const LOOP_FACTOR: u64 = 8;

/// The variables in order of first sight, and how often each is used, by its number.
#[derive(Drop)]
pub struct Uses {
    pub order: Vec<u32>,
    pub counts: Vec<u64>,
}

impl Uses {
    /// No uses of so many variables, of which those in the list come first.
    pub fn new(alloc: Global, vars: u32, order: Vec<u32>) -> Result<Uses, NoMemory> {
        let mut counts = Vec::new(alloc);
        for _ in 0..vars {
            counts.push(0)?;
        }
        Ok(Uses { order, counts })
    }

    /// A variable is used so many times. One past the last is passed over.
    fn count(&mut self, x: u32, times: u64) -> Result<(), NoMemory> {
        let v = x as usize;
        if v < self.counts.len() {
            if self.counts[v] == 0 {
                self.order.push(x)?;
            }
            self.counts[v] = self.counts[v].saturating_add(times);
        }
        Ok(())
    }

    /// Each variable of a list is used once.
    pub fn count_each(&mut self, variables: &[u32]) -> Result<(), NoMemory> {
        for x in variables {
            self.count(*x, 1)?;
        }
        Ok(())
    }

    /// A statement is met that runs so many times.
    #[cycle(count)]
    fn count_stmt(&mut self, s: &FStmt, times: u64) -> Result<(), NoMemory> {
        match s {
            FStmt::Lit(x, _) => self.count(*x, times)?,
            FStmt::Copy(x, y)
            | FStmt::Load(_, x, y)
            | FStmt::Table(_, x, _, y)
            | FStmt::Store(_, x, y) => {
                self.count(*y, times)?;
                self.count(*x, times)?;
            }
            FStmt::Bin(_, x, y, z) => {
                self.count(*y, times)?;
                self.count(*z, times)?;
                self.count(*x, times)?;
            }
            FStmt::If(x, a, b) => {
                self.count(*x, times)?;
                self.count_all(a.as_slice(), times)?;
                self.count_all(b.as_slice(), times)?;
            }
            FStmt::While(a, x, b) => {
                let turns = times.saturating_mul(LOOP_FACTOR);
                self.count_all(a.as_slice(), turns)?;
                self.count(*x, turns)?;
                self.count_all(b.as_slice(), turns)?;
            }
        }
        Ok(())
    }

    /// Statements one after another.
    #[cycle(count)]
    pub fn count_all(&mut self, body: &[FStmt], times: u64) -> Result<(), NoMemory> {
        for s in body {
            self.count_stmt(s, times)?;
        }
        Ok(())
    }
}
