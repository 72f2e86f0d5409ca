//! The runs of an ordered job.

ghost use Rattle.hq_model.specs.Theorems.{VersionsExist, StaleCopies, EndLaw, RestEnds, HeadlineLaw};

/// In an ordered job the writers of each byte stand in the job's order.
pub fn versions_exist()
    ensures { VersionsExist }
{}

/// Version numbers can be given to all copies, all along every run of an ordered job.
pub fn stale_copies()
    ensures { StaleCopies }
{}

/// A run of an ordered job that has no work left has done everything, and memory is as each order leaves it.
pub fn end_law()
    ensures { EndLaw }
{}

/// A journal that completes every packet of an ordered job and then rests has ended as each order leaves it.
pub fn rest_ends()
    ensures { RestEnds }
{}

/// Every run of an ordered job reads what each order gives, within the bound, and ends as it does.
pub fn headline_law()
    ensures { HeadlineLaw }
{}
