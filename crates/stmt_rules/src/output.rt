//! What the derivations of statements give.
ghost use Rattle.std.specs.Prelude.{◌≡◌, [], ◌∷◌, ◌++◌, IfOk};
ghost use Rattle.stmt_rules.specs.Words as spec;

use bed_syntax::{BExpr, Cmd};
use expr_rules::ExprOut;
use rup_base::{List, NoMemory};
use side_certs::Form;
use std::alloc::Global;

/// The commands of statements one after another, and the trip form of each of their loops, an outer loop's before those of
/// the loops inside it.
#[derive(Debug, Drop)]
pub struct StmtOut {
    pub cmds: List<Cmd>,
    pub trips: List<Form>,
}

impl StmtOut {
    /// No command.
    pub fn nothing(alloc: Global) -> StmtOut
        ensures { result ≡ spec.nothing }
    {
        StmtOut {
            cmds: List::new(alloc),
            trips: List::new(alloc),
        }
    }

    /// One command, which is no loop.
    pub fn only(alloc: Global, command: Cmd) -> Result<StmtOut, NoMemory>
        ensures { IfOk result (λ out. out ≡ spec.only command) }
    {
        let cmds = one_command(alloc, command)?;
        Ok(StmtOut {
            cmds,
            trips: List::new(alloc),
        })
    }

    /// The commands of both, one after the other.
    pub fn joined(self, next: StmtOut) -> Result<StmtOut, NoMemory>
        ensures { IfOk result (λ both. both ≡ spec.joined self next) }
    {
        Ok(StmtOut {
            cmds: all_commands(self.cmds, next.cmds)?,
            trips: all_forms(self.trips, next.trips)?,
        })
    }
}

/// The code of what an expression gives.
pub fn code_of(p: ExprOut) -> BExpr
    ensures { result ≡ p.code }
{
    p.code
}

/// The code of what an expression gives, and its form.
pub fn code_and_form(p: ExprOut) -> (BExpr, Form)
    ensures { result ≡ (p.code, p.form) }
{
    (p.code, p.form)
}

/// A further command.
pub fn more(before: List<Cmd>, command: Cmd) -> Result<List<Cmd>, NoMemory>
    ensures { IfOk result (λ all. all ≡ before ++ command ∷ []) }
{
    let mut all = before;
    all.push(command)?;
    Ok(all)
}

/// One command.
pub fn one_command(alloc: Global, command: Cmd) -> Result<List<Cmd>, NoMemory>
    ensures { IfOk result (λ all. all ≡ command ∷ []) }
{
    more(List::new(alloc), command)
}

/// One form.
pub fn one_form(alloc: Global, form: Form) -> Result<List<Form>, NoMemory>
    ensures { IfOk result (λ all. all ≡ form ∷ []) }
{
    let mut all = List::new(alloc);
    all.push(form)?;
    Ok(all)
}

fn all_commands(first: List<Cmd>, next: List<Cmd>) -> Result<List<Cmd>, NoMemory>
    ensures { IfOk result (λ all. all ≡ first ++ next) }
{
    let mut all = first;
    for command in next.into_vec() {
        all.push(command)?;
    }
    Ok(all)
}

pub fn all_forms(first: List<Form>, next: List<Form>) -> Result<List<Form>, NoMemory>
    ensures { IfOk result (λ all. all ≡ first ++ next) }
{
    let mut all = first;
    for form in next.into_vec() {
        all.push(form)?;
    }
    Ok(all)
}
