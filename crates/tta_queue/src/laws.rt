//! Laws of queues. A law is a function that does nothing, and whose contract is the law.

ghost use Rattle.tta_queue.specs.Laws.{QueueBegins, QueueClocks, QueueHolds, QueueIsSaid, QueueLooks};

/// A clock takes a word where one is offered and there is room, and gives the first where there is
/// one and it is asked for.
pub fn queue_clocks()
    ensures { QueueClocks }
{}

/// A clock that begins anew takes and gives nothing, and leaves the queue without words.
pub fn queue_begins()
    ensures { QueueBegins }
{}

/// After clocks that begin anew and every number of further ones the words that a queue took are
/// those that it gave and those that are in it, in order; it is ready exactly where it has room, and
/// offers exactly where it has a word, the first.
pub fn queue_holds()
    ensures { QueueHolds }
{}

/// What a queue shows does not depend on what is offered to it or asked of it at that clock.
pub fn queue_looks()
    ensures { QueueLooks }
{}

/// A text can say a queue of more words than one as it stands.
pub fn queue_is_said()
    ensures { QueueIsSaid }
{}
