// Runs of steps.

ghost use Rattle.std.specs.Prelude.{◌≡◌};
ghost use Rattle.rv_machine.specs.Laws.{KeepsMachines};
ghost use Rattle.rv_machine.specs.Run.{Ran};
ghost use Rattle.rv_machine.specs.View.{state_of};

use crate::cause::Cause;
use crate::machine::Machine;

/// How a run ended.
#[derive(Clone, Copy, Debug, PartialEq, Eq)]
pub enum End {
    /// The program counter is the stop address after so many steps.
    Returned { steps: u64 },
    /// The instruction at `pc` traps after so many steps. A trap is not counted, and changes nothing.
    Trapped { cause: Cause, pc: u32, steps: u64 },
    /// The budget is used up, and the program counter is not the stop address.
    OutOfSteps { steps: u64 },
}

impl Machine {
    /// Takes steps until the program counter is `stop`, an instruction traps, or `budget` steps are done. Before
    /// each step the stop address is tested first, and the budget next.
    pub fn run(&mut self, stop: u32, budget: u64) -> End
        ensures { Ran stop budget (state_of self.old) result (state_of self.new) }
    {
        for steps in 0..budget {
            if self.pc == stop {
                return End::Returned { steps };
            }
            if let Err(cause) = self.step() {
                return End::Trapped {
                    cause,
                    pc: self.pc,
                    steps,
                };
            }
        }
        if self.pc == stop {
            End::Returned { steps: budget }
        } else {
            End::OutOfSteps { steps: budget }
        }
    }
}

/// The law that steps lead from a machine state, whose registers and program counter are words and whose bytes are
/// bytes, to machine states.
pub fn steps_keep_machines()
    ensures { KeepsMachines }
{}
