//! Laws of what a read and a wait find. Each function does nothing; its contract is the law.

ghost use Rattle.vt_state.specs.Laws.{FirstIsNoneOrOne, FirstIsOneEvent, FirstOfTwoWants, LastIsNoneOrOne, LastIsOneEvent, MembersAloneMatter};

/// A read finds one event.
pub fn last_is_one_event()
    ensures { LastIsOneEvent }
{}

/// A read that finds an event does not find nothing.
pub fn last_is_none_or_one()
    ensures { LastIsNoneOrOne }
{}

/// A wait finds one event.
pub fn first_is_one_event()
    ensures { FirstIsOneEvent }
{}

/// A wait that finds an event does not find nothing.
pub fn first_is_none_or_one()
    ensures { FirstIsNoneOrOne }
{}

/// What is first for some wants and others is the lesser of what is first for the ones and for the others.
pub fn first_of_two_wants()
    ensures { FirstOfTwoWants }
{}

/// Lists with the same events give the same answers, in whatever order they hold them.
pub fn members_alone_matter()
    ensures { MembersAloneMatter }
{}
