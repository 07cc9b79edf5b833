// A clerk's steps while a script without faults settles: what it sends.
ghost use Rattle.ec_quiet.specs.Evictions.{OldOnesGo};
ghost use Rattle.ec_quiet.specs.Frames.{OpenedComesToClaims, OtherStepsMeasure, OwnStepsCome, OwnStepsMeasure};
ghost use Rattle.ec_quiet.specs.Goes.{GrantsGoOn, ReadyGoes, RoomyEvicts};
ghost use Rattle.ec_quiet.specs.Takings.{GrantsAreTaken};
ghost use Rattle.ec_quiet.specs.Tries.{AsksSendOne, FewStay, MessagesBegin, StepsTryNone, StepsTryOne, StepsTryPush, StepsTryRecall, TriesComeTo};

/// A step with one waiting call is a try of that call, one with a recall alone or a push alone a try of that, and tokens that are too many go back.
pub fn steps_try_one_thing()
    ensures one { StepsTryOne }
    ensures none { StepsTryNone }
    ensures recall { StepsTryRecall }
    ensures push { StepsTryPush }
    ensures few { FewStay }
{}

/// A step that takes a message of the clerk's session begins with what that message says.
pub fn messages_begin_steps()
    ensures { MessagesBegin }
{}

/// A try of the waiting call sends just one message, or answers; so does what is asked for, where it isn't durable.
pub fn tries_send_one_message()
    ensures tries { TriesComeTo }
    ensures asks { AsksSendOne }
{}

/// A step of the line's clerk leaves the server and the others of a phase, and changes its own part of the measure; another one's changes that one's.
pub fn steps_change_their_part()
    ensures come { OwnStepsCome }
    ensures own { OwnStepsMeasure }
    ensures other { OtherStepsMeasure }
{}

/// The line's clerk takes its new session.
pub fn openings_come_to_claims()
    ensures { OpenedComesToClaims }
{}

/// Of the tokens that are too many the least recently used ones go.
pub fn old_tokens_go()
    ensures { OldOnesGo }
{}

/// The line's clerk takes the token that it's granted.
pub fn grants_are_taken()
    ensures { GrantsAreTaken }
{}

/// The try of its call leads to the phase of the message that goes out, or answers and ends the work; so a grant leads on, and the measure falls. No
/// token goes back where there aren't too many.
pub fn tries_lead_to_phases()
    ensures ready { ReadyGoes }
    ensures grants { GrantsGoOn }
    ensures roomy { RoomyEvicts }
{}
