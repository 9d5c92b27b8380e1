//! What holds of certificates.
ghost use Rattle.side_certs.specs.Closes.{ClosingGivesGoal};

/// A goal that a certificate closes is at least 0 wherever each fact is at least 0 and no symbol passes its top.
pub fn closing_gives_goal()
    ensures { ClosingGivesGoal }
{}
