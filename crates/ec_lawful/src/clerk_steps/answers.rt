// All facts behind an answer of a clerk, and behind the tries of all its waiting calls.
ghost use Rattle.ec_lawful.specs.OfClerkSteps.AnswerLaws.{AllTriesStand, LiveAnswersStand, OutsideAnswersStand, TriesStand};

/// The answer of a clerk in its open session leaves all facts standing, and so does that of one without a session
/// that isn't cut off.
pub fn answers_stand()
    ensures live { LiveAnswersStand }
    ensures outside { OutsideAnswersStand }
{}

/// A step under way stands behind the try of each waiting call, and behind the tries of all of them: where the clerk is
/// in its session, whether that ended or not, and where it is in none.
pub fn calls_are_tried()
    ensures one { TriesStand }
    ensures all { AllTriesStand }
{}
