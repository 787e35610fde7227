// What holds of every list of presses.
ghost use Rattle.dongle.specs.Laws.{MonotonicWithoutEquivocation};

/// Over a dongle of any make and for any list of presses: a counter never falls, each advance tells its step, each status
/// its place, and two advances of one counter whose spans meet are one statement. A law: it does nothing.
pub fn counters_are_monotonic_without_equivocation()
    ensures promises { MonotonicWithoutEquivocation }
{}
