//! The judge: prints each case, and counts.
use std::io;

/// How many cases were judged, and how many of them have another answer than the wanted one.
#[derive(Clone, Copy, Debug, PartialEq, Eq)]
pub struct Tally {
    pub cases: u64,
    pub different: u64,
}

impl Tally {
    pub fn new() -> Tally {
        Tally {
            cases: 0,
            different: 0,
        }
    }

    /// Prints the name with `ok`, or both answers where they differ.
    pub fn judge(
        &mut self,
        rt: &impl Print,
        name: &str,
        found: &str,
        wanted: &str,
    ) -> io::Result<()> {
        self.cases = self.cases.saturating_add(1);
        if found == wanted {
            return println!(rt; "{name}: ok");
        }
        self.different = self.different.saturating_add(1);
        println!(rt; "{name}: different")?;
        print_lines(rt, "found ", found)?;
        print_lines(rt, "wanted", wanted)
    }

    /// Prints the counts.
    pub fn print(&self, rt: &impl Print) -> io::Result<()> {
        println!(rt; "{} cases, {} different", self.cases, self.different)
    }
}

fn print_lines(rt: &impl Print, what: &str, lines: &str) -> io::Result<()> {
    for line in lines.lines() {
        println!(rt; "  {what} {line}")?;
    }
    Ok(())
}
