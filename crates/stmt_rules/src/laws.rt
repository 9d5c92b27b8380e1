//! What holds of what the derivations of statements give. The bodies stand for the proofs alone.
ghost use Rattle.stmt_rules.specs.Small.{CommandsAreSmall};
ghost use Rattle.stmt_rules.specs.Sound.{BlocksAreSound, StatementsAreSound};

use expr_rules::{codes_are_small, instances_are_sound};

/// From each state that fits the context before and has room for the locals that they set, the commands of a block run to a
/// state that fits the context after, with the values that the statements give, within their bound.
pub fn blocks_are_sound()
    ensures { BlocksAreSound }
{
    instances_are_sound();
}

/// The same of a statement.
pub fn statements_are_sound()
    ensures { StatementsAreSound }
{
    instances_are_sound();
}

/// The commands of a block have at most twenty nodes, and fewer tables than one, for each node of the derivation, and no more
/// bytes of tables than the statements; the trip forms mention only entry symbols, and have no negative number.
pub fn commands_are_small()
    ensures { CommandsAreSmall }
{
    codes_are_small();
}
