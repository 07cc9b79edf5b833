// Laws on ids that clerks have in store, and on refusals for want of room.
ghost use Rattle.ec_complete.specs.Rooms.{CallsKeepStock, MessagesKeepStock, PushesKeepStock, ServersGrantRoom, StartsHaveStock};

/// Each id that a clerk was given is in store, or was taken by a call that makes an object; and it
/// refuses no call, but where it's refused ids.
pub fn clerks_keep_stock()
    ensures messages { MessagesKeepStock }
    ensures calls { CallsKeepStock }
    ensures pushes { PushesKeepStock }
    ensures starts { StartsHaveStock }
{}

/// A server refuses ids only where it's full.
pub fn servers_grant_room()
    ensures { ServersGrantRoom }
{}
