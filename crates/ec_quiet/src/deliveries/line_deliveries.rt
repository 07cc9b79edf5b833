// A line of a script without faults that settles: each delivery, to the server or to a clerk, leads to a phase with less left.
ghost use Rattle.ec_quiet.specs.OfDeliveries.Coming.{DeliveriesHaveNext};
ghost use Rattle.ec_quiet.specs.OfDeliveries.Leading.{DeliveriesLeadOn};

/// Each message that is the next one leads to a phase whose measure is smaller by at least 32, where
/// the server or the clerk that takes it has what it needs.
pub fn deliveries_lead_on()
    ensures { DeliveriesLeadOn }
{}

/// What a delivery takes of the server's durable counters isn't at its end, where it meets no fault.
pub fn deliveries_have_next()
    ensures { DeliveriesHaveNext }
{}
