//! Calls by their numbers, as the sources and sinks in memory count them.
ghost use Rattle.std.specs.Prelude.{◌≡◌};
ghost use Rattle.rup_io.specs.Count.{is_to_fail};

/// Whether the call with this number, from 0, is one of those that are to fail.
pub(crate) fn is_listed(fails: &[u32], number: u64) -> bool
    ensures { result ≡ is_to_fail fails.now number }
{
    fails.iter().any(|listed| u64::from(*listed) == number)
}
