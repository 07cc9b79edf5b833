// The functions of a clerk's step that answer no call, with all facts, and two further facts: of each clerk by itself, and of the objects that calls
// can come upon.
ghost use Rattle.ec_lawful.specs.OfClerkSteps.DoingLaws.{AllIsSent, BeginsInHand, CallsStand, ClaimsStand, ClosuresAreAsked, IdsAreOut, IsGrant, IsIds, IsKept, IsRecall, IsRestarted, NeedsAreNamed, OpeningIsInOrder, OrderAgrees, OrderStays, PushesAsk, RecallsAnswer, RoomsKeep, SpentStays, TakesMessage, TokensGoBack, WantsKeep};

/// A clerk by itself is in order when it starts, and behind each of its functions; so is each at the beginning.
pub fn clerks_stay_in_order()
    ensures own { OrderStays }
    ensures agrees { OrderAgrees }
    ensures opening { OpeningIsInOrder }
{}

/// What a call needs has an id that was given out and that nobody has in store, and ids are needed where none is left.
pub fn needs_are_named()
    ensures named { NeedsAreNamed }
    ensures none_left { IdsAreOut }
{}

/// A step of a clerk in a session begins with all facts, and they stand behind what it wants, asks for, claims and
/// sends again.
pub fn clerks_may_send()
    ensures begins { BeginsInHand }
    ensures wants { WantsKeep }
    ensures rooms { RoomsKeep }
    ensures closures { ClosuresAreAsked }
    ensures claims { ClaimsStand }
    ensures outstanding { AllIsSent }
{}

/// They stand behind recalls that are answered, pushes that are asked for, and tokens that go back.
pub fn clerks_may_give_back()
    ensures recalls { RecallsAnswer }
    ensures pushes { PushesAsk }
    ensures evicted { TokensGoBack }
{}

/// They stand behind each message taken that answers no call and leaves the session.
pub fn clerks_may_take()
    ensures grants { TakesMessage IsGrant }
    ensures recalls { TakesMessage IsRecall }
    ensures kept { TakesMessage IsKept }
    ensures ids { TakesMessage IsIds }
    ensures restarts { TakesMessage IsRestarted }
{}

/// They stand behind a flush, a bye and a resend of a clerk in a session; and a counter that is spent stays so.
pub fn clerks_may_call()
    ensures calls { CallsStand }
    ensures spent { SpentStays }
{}
