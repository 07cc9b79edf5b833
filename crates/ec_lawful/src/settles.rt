// A whole step of a clerk around the tries of its waiting calls, with all facts.
ghost use Rattle.ec_lawful.specs.SettleLaws.{CallsAreReady, PlainsKeep, ResendsKeep, StepsAreReady, StepsBegin, StepsEnd, WaitsStand};

/// A step of a running clerk begins with all facts, and they stand behind a message of its session, behind what
/// comes before the tries of its waiting calls, and behind what comes after them.
pub fn steps_come_to_tries()
    ensures begin { StepsBegin }
    ensures messages { PlainsKeep }
    ensures ready { StepsAreReady }
    ensures calls { CallsAreReady }
    ensures waits { WaitsStand }
{}

/// Behind the tries a step ends with all facts, and all calls wait; so does a step that sends again what is
/// outstanding.
pub fn steps_end_whole()
    ensures end { StepsEnd }
    ensures resends { ResendsKeep }
{}
