//! Laws of the commands. A law is a function that does nothing, and whose contract is the law.

ghost use Rattle.tta_exit_laws.specs.Build.{BuildByStatus};
ghost use Rattle.tta_exit_laws.specs.Asm.{AsmByStatus};
ghost use Rattle.tta_exit_laws.specs.Dis.{DisByStatus};
ghost use Rattle.tta_exit_laws.specs.Check.{CheckByStatus};
ghost use Rattle.tta_exit_laws.specs.Exec.{ExecByStatus};
ghost use Rattle.tta_exit_laws.specs.Run.{RunByStatus};
ghost use Rattle.tta_exit_laws.specs.Debug.{DebugByStatus};
ghost use Rattle.tta_exit_laws.specs.Sample.{SampleByStatus};
ghost use Rattle.tta_exit_laws.specs.Ifconv.{IfconvByStatus};
ghost use Rattle.tta_exit_laws.specs.NetEndings.{NetByStatus};
ghost use Rattle.tta_exit_laws.specs.NetTextEndings.{NetTextByStatus};
ghost use Rattle.tta_exit_laws.specs.Completes.{BuildCompletes};
ghost use Rattle.tta_exit_laws.specs.WriteCompletes.{IfconvCompletes, AsmCompletes, DisCompletes};
ghost use Rattle.tta_exit_laws.specs.WriteCompletes.{BuildCompletesWithoutRoom};
ghost use Rattle.tta_exit_laws.specs.PutCompletes.{ExecCompletes, RunCompletes};
ghost use Rattle.tta_exit_laws.specs.PutCompletes.{DebugCompletes, CheckCompletes, SampleCompletes};
ghost use Rattle.tta_exit_laws.specs.PutCompletes.{SampleCompletesWithoutRoom};
ghost use Rattle.tta_exit_laws.specs.NetCompletes.{NetCompletes};
ghost use Rattle.tta_exit_laws.specs.ViewCompletes.{MachineViewCompletes, InfoCompletes, PictureCompletes};
ghost use Rattle.tta_exit_laws.specs.ViewCompletes.{RunViewCompletes, PromptCompletes};
ghost use Rattle.tta_exit_laws.specs.ViewCompletes.{StagesCompletes, StagesCompletesWithoutRoom};
ghost use Rattle.tta_exit_laws.specs.CircuitCompletes.{CircuitCompletes, NetTextCompletes};
ghost use Rattle.tta_exit_laws.specs.CostCompletes.{CostCompletes};
ghost use Rattle.tta_exit_laws.specs.SampleHalts.{SampleHalts};

/// `build` takes every machine and program that are accepted and have room, with the word `convert`
/// and without it: where no call on the files fails, it writes an image or is out of memory.
pub fn build_completes()
    ensures { BuildCompletes }
{}

/// `ifconv` takes every program: where no call on the files fails, it writes a text or is out of
/// memory.
pub fn ifconv_completes()
    ensures { IfconvCompletes }
{}

/// `build` takes every machine and program that are accepted, whatever their room: where no call
/// on the files fails, it writes an image, is out of memory, or finds the code too long.
pub fn build_completes_without_room()
    ensures { BuildCompletesWithoutRoom }
{}

/// `asm` takes every assembly for a machine: where no call on the files fails, it writes the image
/// or is out of memory.
pub fn asm_completes()
    ensures { AsmCompletes }
{}

/// `dis` takes every image for a machine: where no call on the files fails, it writes the text or
/// is out of memory.
pub fn dis_completes()
    ensures { DisCompletes }
{}

/// `check` takes every image for a machine: where no call fails, it says that the code is safe or
/// where it is not, or is out of memory.
pub fn check_completes()
    ensures { CheckCompletes }
{}

/// `exec` is done with every run of a program that has halted at the bound, or is out of memory,
/// where no call fails.
pub fn exec_completes()
    ensures { ExecCompletes }
{}

/// `run` is done with every run of code that has halted at the bound, or is out of memory, where
/// no call fails.
pub fn run_completes()
    ensures { RunCompletes }
{}

/// `debug` is done with every script that leaves the run at no fault, or is out of memory, where
/// no call fails.
pub fn debug_completes()
    ensures { DebugCompletes }
{}

/// `sample` puts its summary, or is out of memory, where the machine takes the sample's program, the
/// program has halted at the bound and no call fails.
pub fn sample_completes()
    ensures { SampleCompletes }
{}

/// `sample` completes for a pair that is accepted, whatever its room: beside its other ends, only
/// its code may be too long.
pub fn sample_completes_without_room()
    ensures { SampleCompletesWithoutRoom }
{}

/// `sample` never ends because its program goes on or waits, where the units' `sub` and `eq` are the
/// standard ones.
pub fn sample_halts()
    ensures { SampleHalts }
{}

/// `net` is done with cores that come to rest within the rounds and at no fault, or is out of
/// memory, where no call fails.
pub fn net_completes()
    ensures { NetCompletes }
{}

/// `picture` and `info` take every machine: where no call fails, they put their text or are out of
/// memory.
pub fn machine_view_completes()
    ensures { MachineViewCompletes }
{}

/// So does `info` with every image for a machine.
pub fn info_completes()
    ensures { InfoCompletes }
{}

/// `picture` takes every image for a machine, and every program that is accepted with it: where no call
/// fails, it puts its text, is out of memory, or finds the program's code too long.
pub fn picture_completes()
    ensures { PictureCompletes }
{}

/// `profile`, `play` and `waves` take every image for a machine, and every program that is accepted
/// with it, with their data words and input: where no call fails, they put their text, are out of memory,
/// or find the program's code too long.
pub fn run_view_completes()
    ensures { RunViewCompletes }
{}

/// `stages` takes every machine and program that are accepted and have room: where no call fails,
/// it puts its text or is out of memory.
pub fn stages_completes()
    ensures { StagesCompletes }
{}

/// Whatever their room, it may also find the code too long.
pub fn stages_completes_without_room()
    ensures { StagesCompletesWithoutRoom }
{}

/// `rtl` takes every image for a machine, and every program that is accepted with it: where no call
/// fails, it puts its text, is out of memory, or finds the program's code too long.
pub fn circuit_completes()
    ensures { CircuitCompletes }
{}

/// `cost` takes what `rtl` takes: where no call fails, it puts its text, is out of memory, or finds the
/// program's code too long.
pub fn cost_completes()
    ensures { CostCompletes }
{}

/// `rtl net` takes all links and the cores that they join: where no call fails, it puts its text or
/// is out of memory.
pub fn net_text_completes()
    ensures { NetTextCompletes }
{}

/// `prompt` takes every image for a machine with its data words and input: where no call fails and
/// the lines are not too long, it is done or out of memory.
pub fn prompt_completes()
    ensures { PromptCompletes }
{}

/// What holds where `build` ends with a status, for each status, with the word `convert` and without
/// it.
pub fn build_by_status()
    ensures { BuildByStatus }
{}

/// What holds where `asm` ends with a status, for each status.
pub fn asm_by_status()
    ensures { AsmByStatus }
{}

/// What holds where `dis` ends with a status, for each status.
pub fn dis_by_status()
    ensures { DisByStatus }
{}

/// What holds where `check` ends with a status, for each status.
pub fn check_by_status()
    ensures { CheckByStatus }
{}

/// What holds where `exec` ends with a status, for each status.
pub fn exec_by_status()
    ensures { ExecByStatus }
{}

/// What holds where `run` ends with a status, for each status.
pub fn run_by_status()
    ensures { RunByStatus }
{}

/// What holds where `debug` ends with a status, for each status.
pub fn debug_by_status()
    ensures { DebugByStatus }
{}

/// What holds where `sample` ends with a status, for each status.
pub fn sample_by_status()
    ensures { SampleByStatus }
{}

/// What holds where `ifconv` ends with a status, for each status.
pub fn ifconv_by_status()
    ensures { IfconvByStatus }
{}

/// What holds where `net` ends with a status, for each status.
pub fn net_by_status()
    ensures { NetByStatus }
{}

/// What holds where `rtl net` ends with a status, for each status.
pub fn net_text_by_status()
    ensures { NetTextByStatus }
{}
