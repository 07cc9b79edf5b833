// Sessions behind events, and clerks without one.
ghost use Rattle.ec_lease_machine.specs.OfLeaseLaws.Outside.{OutsideAreBare};
ghost use Rattle.ec_lease_machine.specs.OfLeaseLaws.Resting.{RestingIsQuiet};
ghost use Rattle.ec_lease_machine.specs.OfLeaseLaws.Slots.{EventsLeaveSlots};
ghost use Rattle.ec_lease_machine.specs.OfLeaseLaws.Timely.{OpenAreTold, SessionsStay};

/// Behind each event a slot has the session that it had, as open as it was, or a new one, which is open;
/// only the end of a session ends one, of the clerk that it names.
pub fn events_leave_slots()
    ensures { EventsLeaveSlots }
{}

/// A session of a running clerk's age stays open behind each record of the server but its own end, and one
/// that ended stays so.
pub fn sessions_stay()
    ensures { SessionsStay }
{}

/// While it's open nothing is untold.
pub fn open_sessions_are_told()
    ensures { OpenAreTold }
{}

/// Where each waiting call waits and no recall is ready, a step of a clerk answers nothing.
pub fn resting_clerks_answer_nothing()
    ensures { RestingIsQuiet }
{}

/// No volume changes what a clerk without a session answers, and it issues nothing.
pub fn answers_outside_are_bare()
    ensures { OutsideAreBare }
{}
