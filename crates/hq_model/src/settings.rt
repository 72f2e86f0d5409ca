//! Settings of a job: its packets' barrier bits and fence scopes, raised and lowered.

ghost use Rattle.hq_model.specs.Settings.{HeadsLeaveLists, HeadsLeaveConflicts, HeadsLeaveValid, HeadsLeaveResults};
ghost use Rattle.hq_model.specs.Settings.{RaisingOrders, RaisingShows, RaisedIsOrdered, RefusedStaysRefused};
ghost use Rattle.hq_model.specs.Settings.{SomeRaisedIsOrdered};
ghost use Rattle.hq_model.specs.Settings.{HighestIsHighest, LowestIsLowest, RaisingIsPartialOrder, HeadsAreSet};
ghost use Rattle.hq_model.specs.Settings.{LoweredIsLower, StepsSuffice};

/// Order lists and stuck sets are the same in each setting.
pub fn heads_leave_lists()
    ensures { HeadsLeaveLists }
{}

/// Conflicts are the same in each setting.
pub fn heads_leave_conflicts()
    ensures { HeadsLeaveConflicts }
{}

/// A job is valid in each setting or in none.
pub fn heads_leave_valid()
    ensures { HeadsLeaveValid }
{}

/// What comes of the packets one at a time is the same in each setting.
pub fn heads_leave_results()
    ensures { HeadsLeaveResults }
{}

/// What comes before in a setting does so in each above it.
pub fn raising_orders()
    ensures { RaisingOrders }
{}

/// What is shown of a conflict in a setting is shown in each above it, by the same fences.
pub fn raising_shows()
    ensures { RaisingShows }
{}

/// Each setting above an ordered one is ordered.
pub fn raised_is_ordered()
    ensures { RaisedIsOrdered }
{}

/// Each setting below one that isn't ordered isn't.
pub fn refused_stays_refused()
    ensures { RefusedStaysRefused }
{}

/// Some setting at or above this one is ordered exactly where the highest is.
pub fn some_raised_is_ordered()
    ensures { SomeRaisedIsOrdered }
{}

/// The setting with all bits and all fences of system scope is at or above each.
pub fn highest_is_highest()
    ensures { HighestIsHighest }
{}

/// The setting with no bit and no fence is at or below each.
pub fn lowest_is_lowest()
    ensures { LowestIsLowest }
{}

/// Settings are ordered: each is at or above itself, what is above one above is above, and two that are above each
/// other are one.
pub fn raising_is_partial_order()
    ensures { RaisingIsPartialOrder }
{}

/// What a head that is given to one packet changes, and what it leaves.
pub fn heads_are_set()
    ensures { HeadsAreSet }
{}

/// A lowering of a setting is below it, and another.
pub fn lowered_is_lower()
    ensures { LoweredIsLower }
{}

/// Where no single lowering of a setting is ordered, no other setting below it is.
pub fn steps_suffice()
    ensures { StepsSuffice }
{}
