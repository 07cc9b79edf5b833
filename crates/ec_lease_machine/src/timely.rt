//! Answers behind the end of a session: which steps of a world show none but those that needed nothing. Each function has an empty body, and its
//! contract is a law.
ghost use Rattle.ec_lease_machine.specs.OfTimely.Timely.{EventsAreTimely, ResumesAreTimely};

/// Where a clerk in a session has nothing untold as its call begins, and as it takes a message that is no
/// Ended, each answer that a step shows is timely: a clerk without a session answers what needed nothing,
/// and lost nothing; and one that takes an Ended is told before it answers.
pub fn steps_are_timely()
    ensures events { EventsAreTimely }
    ensures resumes { ResumesAreTimely }
{}
