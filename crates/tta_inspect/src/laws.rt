//! Laws of the commands. A law is a function that does nothing, and whose contract is the law.

ghost use Rattle.tta_inspect.specs.Laws.{ImageSize};
ghost use Rattle.tta_inspect.specs.Prompts.{PromptByStatus};
ghost use Rattle.tta_inspect.specs.Runs.{RunByStatus};
ghost use Rattle.tta_inspect.specs.Stages.{StagesByStatus};
ghost use Rattle.tta_inspect.specs.Circuits.{CircuitByStatus};
ghost use Rattle.tta_inspect.specs.Costs.{CostByStatus};
ghost use Rattle.tta_inspect.specs.Pictures.{PictureByStatus};
ghost use Rattle.tta_inspect.specs.Command.{MachineByStatus, InfoByStatus};

/// What holds where a view of a machine ends with a status, for each status.
pub fn machine_by_status()
    ensures { MachineByStatus }
{}

/// What holds where `info` of an image ends with a status, for each status.
pub fn info_by_status()
    ensures { InfoByStatus }
{}

/// What holds where `picture` of code ends with a status, for each status.
pub fn picture_by_status()
    ensures { PictureByStatus }
{}

/// The number of bytes that `info` tells of an image is that of the image's bytes.
pub fn image_size()
    ensures { ImageSize }
{}

/// What holds where a view of a run ends with a status, for each status.
pub fn run_by_status()
    ensures { RunByStatus }
{}

/// What holds where a session at a prompt ends with a status, for each status.
pub fn prompt_by_status()
    ensures { PromptByStatus }
{}

/// What holds where `stages` ends with a status, for each status.
pub fn stages_by_status()
    ensures { StagesByStatus }
{}

/// What holds where `rtl` ends with a status, for each status.
pub fn circuit_by_status()
    ensures { CircuitByStatus }
{}

/// What holds where `cost` of a machine with code ends with a status, for each status.
pub fn cost_by_status()
    ensures { CostByStatus }
{}
