//! Laws of the module that joins cores by queues. A law is a function that does nothing, and whose
//! contract is the law.

ghost use Rattle.tta_wired.specs.Laws.{InputsComeIn, NetAgrees, NetFinishes, NetIsWired, NetRuns};
ghost use Rattle.tta_wired.specs.Laws.{NetPutsAll, NetSettles};
ghost use Rattle.tta_wired.specs.Order.{NetIsOrdered};

/// Circuits that are joined by the ports and wires of the module are wired as the theorem of such
/// circuits asks for.
pub fn net_is_wired()
    ensures { NetIsWired }
{}

/// After clocks that begin anew and every number of further ones the module has made an order of
/// cycles of the network: the words that have gone to the outside at the ports of a core are those
/// that the core has output there.
pub fn net_runs()
    ensures { NetRuns }
{}

/// Where the outside offers the words of an input in order, at whatever clocks, what has come in at the
/// ports begins the input.
pub fn inputs_come_in()
    ensures { InputsComeIn }
{}

/// No wire of the module runs in a loop: there is an order of its signals in which each hangs only on
/// those before it.
pub fn net_is_ordered()
    ensures { NetIsOrdered }
{}

/// The words that have gone to the outside at the ports of a core whose code agrees with a program begin
/// what the program puts out, or the other way round, in whatever order the programs take their steps.
pub fn net_agrees()
    ensures { NetAgrees }
{}

/// The signals of the module have words at every clock, whenever the outside takes words.
pub fn net_settles()
    ensures { NetSettles }
{}

/// Where links lead upwards, and the module has stopped with no core halted before a full queue, all words
/// that its cores output in the network have gone to the outside.
pub fn net_finishes()
    ensures { NetFinishes }
{}

/// Where it has stopped so, all words that the program of a core puts out have gone to the outside, of
/// cores whose code agrees with programs.
pub fn net_puts_all()
    ensures { NetPutsAll }
{}
