//! Where the search stands.
use sym_heap::Ctx;

/// What is known at the next goal, and what was counted before it.
#[derive(Debug, Drop)]
pub struct Seeker {
    pub ctx: Ctx,
    /// The number of goals, which is the number of the next node.
    pub entered: u32,
    /// The number of statements, which is the number of the next one.
    pub stmts: u32,
}
