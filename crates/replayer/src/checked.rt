//! What an accepted derivation comes to.
use model_command::ModelCommand;

/// The command that an accepted derivation derives, with its measures.
#[derive(Debug, Drop)]
pub struct Checked {
    /// It computes the model, and is small enough for the passes below.
    pub command: ModelCommand,
    /// The number of the derivation's nodes.
    pub nodes: u32,
}
