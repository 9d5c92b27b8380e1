//! Where a local stands among the locals of a command.
ghost use Rattle.std.specs.Prelude.{◌≡◌, ◌^◌, ◌<◌, length};
ghost use Rattle.flatten.specs.Code.{place};

/// Where a local stands in the list: its length where it does not.
pub fn place_of(names: &[u32], x: u32) -> u32
    requires { length names.now < 2 ^ 32 }
    ensures { result ≡ place names.now x }
{
    let mut at = 0;
    for name in names {
        if *name == x {
            return at;
        }
        at += 1;
    }
    at
}
