// What it means that a goal fails.
ghost use Rattle.flux_goals.specs.Fails.{FailsWhereShown};

/// A goal fails, by the first tree of a forest and the goals after it, exactly where the forest is
/// taken by its left state and by none of the right ones.
pub fn goals_fail_where_shown()
    ensures { FailsWhereShown }
{}
