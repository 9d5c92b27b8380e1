//! A command with what the passes below ask of it.
use bed_syntax::Cmd;
use cost_poly::Poly;
use rup_base::List;

/// The command of a model with its measures. `specs/Computes` says what it does, `specs/Measures` what the numbers are.
#[derive(Debug, Drop)]
pub struct ModelCommand {
    /// The command.
    pub command: Cmd,
    /// The number of arguments, at most 8: argument k, in the order of registers, is local k.
    pub args: u32,
    /// The locals that have the scalar results at the end, in order; at most two.
    pub rets: List<u32>,
    /// The most steps of a call, over the numbers of the entry symbols.
    pub bound: Poly,
    /// What the nodes of the command and the entry weigh; at most 250,000.
    pub weight: u32,
    /// The locals of arguments, of the command and of results, each counted once.
    pub locals: u32,
    /// The greatest depth of the command's expressions; with the locals at most 400.
    pub depth: u32,
}
