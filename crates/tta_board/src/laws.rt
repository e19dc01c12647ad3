//! Laws of joined circuits. A law is a function that does nothing, and whose contract is the law.

ghost use Rattle.tta_board.specs.Laws.{BoardAgrees, BoardBegins, BoardClock, BoardRuns, BoardSettles};

/// One clock of circuits of machines that are joined by queues as circuits: it is some cycles of the
/// machines, one after another, in the network for which the circuits stand.
pub fn board_clock()
    ensures { BoardClock }
{}

/// After clocks that begin anew the circuits stand for the network before its first cycle.
pub fn board_begins()
    ensures { BoardBegins }
{}

/// After clocks that begin anew and any number of further ones, as long as no core meets a fault,
/// there is an order of cycles of the network for which the circuits stand: each core's circuit for
/// the core's state, and each queue's circuit holds exactly what its feeder has put out and its core
/// has not taken.
pub fn board_runs()
    ensures { BoardRuns }
{}

/// Circuits can be wired at every clock, without a loop through a queue.
pub fn board_settles()
    ensures { BoardSettles }
{}

/// What circuits with code that agrees with programs put out begins what the programs put out, or the
/// other way round, in whatever order the programs take their steps.
pub fn board_agrees()
    ensures { BoardAgrees }
{}
