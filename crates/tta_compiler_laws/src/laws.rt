//! Laws of the parts of the compiler together. A law is a function that does nothing, and whose
//! contract is the law.

ghost use Rattle.tta_compiler_laws.specs.Laws.{ListsMean, SelectedStand, OptimisedStand};
ghost use Rattle.tta_compiler_laws.specs.Planned.{ListsPlanned};
ghost use Rattle.tta_compiler_laws.specs.Linking.{ListsLink, ListsAgree};
ghost use Rattle.tta_compiler_laws.specs.Room.{ListsFit};
ghost use Rattle.tta_compiler_laws.specs.Direct.{DirectLowers, DirectIsList, DirectMeans};
ghost use Rattle.tta_compiler_laws.specs.Direct.{DirectLinks, DirectAgrees};
ghost use Rattle.tta_compiler_laws.specs.Once.{OneFlow, OneLiveness, OneSlots, OneCounts};

/// Lists that stand for the selected ones mean the program.
pub fn lists_mean()
    ensures { ListsMean }
{}

/// The selected lists may be placed as they are.
pub fn selected_stand()
    ensures { SelectedStand }
{}

/// What the passes make of a list that may be placed for another may be placed for that too, and is
/// in all forms. So other passes may come before them.
pub fn optimised_stand()
    ensures { OptimisedStand }
{}

/// Lists that may be placed for the selected ones are lists of the machine, and do no more than the
/// program asks for.
pub fn lists_planned()
    ensures { ListsPlanned }
{}

/// The linker takes placements that respect such lists.
pub fn lists_link()
    ensures { ListsLink }
{}

/// The code that it makes of them agrees with the program.
pub fn lists_agree()
    ensures { ListsAgree }
{}

/// The placed lists of a program take at most its room.
pub fn lists_fit()
    ensures { ListsFit }
{}

/// The register code of a direct pair is one block.
pub fn direct_lowers()
    ensures { DirectLowers }
{}

/// The machine of a direct pair can carry out its list.
pub fn direct_is_list()
    ensures { DirectIsList }
{}

/// The list of a direct pair means its program.
pub fn direct_means()
    ensures { DirectMeans }
{}

/// The linker takes the placement of a direct pair's list.
pub fn direct_links()
    ensures { DirectLinks }
{}

/// The code that it makes of it agrees with the program.
pub fn direct_agrees()
    ensures { DirectAgrees }
{}

/// A program has one list of blocks.
pub fn one_flow()
    ensures { OneFlow }
{}

/// All answers on which of its variables are live are the same.
pub fn one_liveness()
    ensures { OneLiveness }
{}

/// The same variables of a program have slots, whichever way as many home registers are given.
pub fn one_slots()
    ensures { OneSlots }
{}

/// And the parts of the program ask for as much, whichever home registers are chosen.
pub fn one_counts()
    ensures { OneCounts }
{}
