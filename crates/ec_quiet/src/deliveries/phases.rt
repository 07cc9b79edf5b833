// All deliveries to the server.
ghost use Rattle.ec_quiet.specs.OfDeliveries.Coming.{DeliveriesGoOn};

/// Each message for the server that is the next one leads from a phase to a phase, with less left:
/// where no counter is at its end, where a batch may be written and its record is taken, and where
/// nobody has a token on the next ids.
pub fn deliveries_go_on()
    ensures { DeliveriesGoOn }
{}
