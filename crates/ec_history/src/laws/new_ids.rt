// Laws on the ids that new objects have: they may be exchanged for the places of the calls that made them.
ghost use Rattle.ec_history.specs.OfLaws.NewIds.{IdlesMayChange, IdsArePlaces, NewIdsAreRead, NewIdsBesideLate, NewIdsGrow};

/// The ids at the places of calls that make no object may be changed for other ones that no operation has.
pub fn idle_ids_may_change()
    ensures { IdlesMayChange }
{}

/// Where each id was of no object and made by no operation before, it may be exchanged for the place of its call, above
/// all ids of the volume.
pub fn new_ids_are_places()
    ensures { IdsArePlaces }
{}

/// Ids stay new behind one more line whose entries come last, if those of its entries are.
pub fn new_ids_grow()
    ensures { NewIdsGrow }
{}

/// So they do behind a late answer, whose entry comes in before the loss.
pub fn new_ids_stay_behind_late_answers()
    ensures { NewIdsBesideLate }
{}

/// Ids may be read as places, and then each object of what is kept is that of what is kept with places as ids.
pub fn new_ids_are_read()
    ensures { NewIdsAreRead }
{}
