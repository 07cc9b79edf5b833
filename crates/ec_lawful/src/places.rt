// A run's lines are lawful with places as the ids of new objects: no id that a server gave out is named.
ghost use Rattle.ec_lawful.specs.PlaceLaws.{FreshIdsAreNew, PlacesServe};

/// Ids that are fresh are new: of no object of the volume at the beginning, and made by no operation that was issued
/// before. So what is lawful with them is lawful with places.
pub fn new_ids_are_places()
    ensures new { FreshIdsAreNew }
    ensures places { PlacesServe }
{}
