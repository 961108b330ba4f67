// Laws of objects and of requests.

ghost use Rattle.wire_calls.specs.Laws.{OnePath, RequestsMayStand};

/// A path is that of an object exactly where it is the one that this object has.
pub fn one_path()
    ensures { OnePath }
{}

/// The request that a message of a connected client is may come next in a journal that goes on.
pub fn requests_may_stand()
    ensures { RequestsMayStand }
{}
