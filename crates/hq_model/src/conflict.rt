//! Conflicts, and why they aren't ordered.

ghost use Rattle.hq_model.specs.Fence.{ShownIsBefore, UnreleasedIsNotShown};

/// What is shown of a conflict is shown of the order too.
pub fn shown_is_before()
    ensures { ShownIsBefore }
{}

/// Where the first of two packets isn't released, no conflict of its writes with the second is shown.
pub fn unreleased_is_not_shown()
    ensures { UnreleasedIsNotShown }
{}
