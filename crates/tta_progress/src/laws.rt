//! Laws of how far joined circuits get. A law is a function that does nothing, and whose contract is
//! the law.

ghost use Rattle.tta_progress.specs.Laws.{BoardFinishes, BoardMoves, BoardRests};

/// At each clock exactly those cores make a cycle that can: a core has halted, waits for a word that
/// its queue does not have, or has a word to put out that finds no room, or it makes a cycle.
pub fn board_moves()
    ensures { BoardMoves }
{}

/// Where no core can make a cycle, and the outside takes no more than before, none ever makes one.
pub fn board_rests()
    ensures { BoardRests }
{}

/// Where links lead upwards, and the outside takes all words, circuits with queues of any sizes come to
/// a stand only where the network is at rest, or a core has halted before a full queue.
pub fn board_finishes()
    ensures { BoardFinishes }
{}
