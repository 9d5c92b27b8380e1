//! The places of a tree at which nodes are still to come.
ghost use Rattle.std.specs.Prelude.{◌≡◌, ◌≤◌, ◌<◌, ◌+◌, ◌∷◌, ◌++◌, [], length, replicate, sum, true, OnOk, IsTrue, MatchOption};
ghost use Rattle.deriv_tree.specs.Shape.{is_rewrite, kids};
ghost use Rattle.deriv_file.specs.Places as spec;

use deriv_tree::{Listed, Rule};
use rup_base::NoMemory;
use std::alloc::Global;

/// The greatest depth of a node.
const DEEPEST: u32 = 1000;

/// The greatest number of rewrites that stand directly inside one another.
const MOST_REWRITES: u32 = 8;

/// Where a node is to come.
#[derive(Clone, Copy, Debug)]
pub struct Place {
    /// Whether it is a statement's place. Else it is an expression's.
    pub is_statement: bool,
    /// From 1 on.
    pub depth: u32,
    /// The number of rewrites that hold the place, directly one inside another.
    pub rewrites: u32,
}

/// So many places that are equal.
#[derive(Clone, Copy, Debug)]
pub struct Run {
    pub place: Place,
    pub count: u64,
}

/// The places that are open. Their memory grows with the depth of the tree and not with their number.
#[derive(Debug, Drop)]
pub struct Places {
    /// The first of them.
    pub top: Run,
    /// The others: a later run is before an earlier one.
    pub below: Vec<Run>,
}

impl Place {
    fn is_of_kind(self, rule: Rule) -> bool
        ensures { result ≡ spec.is_of_kind self.is_statement rule }
    {
        if self.is_statement {
            !rule.is_expression()
        } else {
            rule.is_expression()
        }
    }

    /// Whether the place takes a node of the rule.
    pub fn admits(self, rule: Rule) -> bool
        ensures admits { result ≡ spec.admits self rule }
        ensures shallow { IsTrue result → self.depth ≤ 1000 }
        ensures few { IsTrue result → is_rewrite rule ≡ true → self.rewrites < 8 }
    {
        if !self.is_of_kind(rule) || self.depth > DEEPEST {
            return false;
        }
        if rule.is_rewrite() {
            self.rewrites < MOST_REWRITES
        } else {
            true
        }
    }

    fn kid(self, rule: Rule) -> Place
        requires shallow { self.depth ≤ 1000 }
        requires few { is_rewrite rule ≡ true → self.rewrites < 8 }
        ensures { result ≡ spec.kid_place self rule }
    {
        let rewrites = if rule.is_rewrite() {
            self.rewrites + 1
        } else {
            0
        };
        Place {
            is_statement: false,
            depth: self.depth + 1,
            rewrites,
        }
    }

    fn of_block(self) -> Place
        requires { self.depth ≤ 1000 }
        ensures { result ≡ spec.block_place self }
    {
        Place {
            is_statement: true,
            depth: self.depth + 1,
            rewrites: 0,
        }
    }
}

impl Places {
    /// The places of an outer block of so many nodes.
    pub fn new(alloc: Global, count: u64) -> Places
        ensures { spec.open_places result ≡ replicate count spec.outer_place }
    {
        let place = Place {
            is_statement: true,
            depth: 1,
            rewrites: 0,
        };
        Places {
            top: Run { place, count },
            below: Vec::new(alloc),
        }
    }

    #[tactic(auto, using(crate::proofs::Runs::runs_snoc))]
    /// The first place, which is not open any more. None where none is open.
    pub fn take(&mut self) -> Option<Place>
        ensures { MatchOption result (spec.open_places self.old ≡ [])
            (λ p. spec.open_places self.old ≡ p ∷ spec.open_places self.new) }
    {
        'runs: while self.top.count == 0 {
            match self.below.pop() {
                Some(run) => self.top = run,
                None => return None,
            }
        }
        self.top.count -= 1;
        Some(self.top.place)
    }

    #[tactic(auto, using(crate::proofs::Runs::runs_snoc))]
    /// Opens equal places before all others.
    fn put_first(&mut self, place: Place, count: u64) -> Result<(), NoMemory>
        ensures { OnOk result (spec.open_places self.new ≡ replicate count place ++ spec.open_places self.old) }
    {
        self.below.push(self.top)?;
        self.top = Run { place, count };
        Ok(())
    }

    /// Opens the places inside a node at a place, before all others.
    pub fn call_for(&mut self, place: Place, node: &Listed) -> Result<(), NoMemory>
        requires shallow { place.depth ≤ 1000 }
        requires few { is_rewrite node.now.step.rule ≡ true → place.rewrites < 8 }
        requires counts { length node.now.counts ≤ 2 }
        ensures { OnOk result (spec.open_places self.new ≡ spec.called_for place node.now ++ spec.open_places self.old) }
    {
        let rule = node.step.rule;
        self.put_first(place.of_block(), block_nodes(node.counts.as_slice()))?;
        self.put_first(place.kid(rule), rule.kids() as u64)
    }
}

/// The number of nodes in all blocks of a node.
fn block_nodes(counts: &[u32]) -> u64
    requires { length counts.now ≤ 2 }
    ensures number { result ≡ sum counts.now }
    ensures bound { result ≤ 8589934590 }
{
    match counts {
        [] => 0,
        [count] => *count as u64,
        [first, second, ..] => *first as u64 + *second as u64,
    }
}

/// The number of nodes directly inside a node.
pub fn calls(node: &Listed) -> u64
    requires { length node.now.counts ≤ 2 }
    ensures number { result ≡ kids node.now.step.rule + sum node.now.counts }
    ensures bound { result ≤ 8589934592 }
{
    node.step.rule.kids() as u64 + block_nodes(node.counts.as_slice())
}
