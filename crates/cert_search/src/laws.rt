//! What holds of the certificates that the search finds.
ghost use Rattle.cert_search.specs.Limits.{FoundCloses};

/// A certificate that the search finds closes its goal, and keeps the search's limits.
pub fn found_closes()
    ensures { FoundCloses }
{}
