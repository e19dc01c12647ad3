//! The list of the commands, put at the end of a text.

ghost use Rattle.std.specs.Prelude.{◌≡◌, ◌++◌, OnOk};
ghost use Rattle.tta_prompt.specs.Texts.{help, own_help, run_help, script_help};

use std::alloc::AllocError;

/// Puts what a script can ask too.
#[tactic(auto, unfolding(crate::specs::Texts::script_help))]
fn push_script_help(out: &mut Vec<u8>) -> Result<(), AllocError>
    ensures { OnOk result (out.new.items ≡ out.old.items ++ script_help) }
{
    out.extend_from_slice(b"step N: at most N cycles\n")?;
    out.extend_from_slice(b"go N: the same, up to a breakpoint\n")?;
    out.extend_from_slice(b"break A: a breakpoint at an address\n")?;
    out.extend_from_slice(b"delete A: without the breakpoint\n")?;
    out.extend_from_slice(b"reg FILE INDEX: a register\n")?;
    out.extend_from_slice(b"port UNIT: a result port\n")?;
    out.extend_from_slice(b"mem A: a data word\n")
}

/// Puts what else it can.
#[tactic(auto, unfolding(crate::specs::Texts::run_help))]
fn push_run_help(out: &mut Vec<u8>) -> Result<(), AllocError>
    ensures { OnOk result (out.new.items ≡ out.old.items ++ run_help) }
{
    out.extend_from_slice(b"where: how the run stands\n")?;
    out.extend_from_slice(b"flight: the results that show later\n")
}

/// Puts what can be asked at a prompt alone, and how a session is ended.
#[tactic(auto, unfolding(crate::specs::Texts::own_help))]
fn push_own_help(out: &mut Vec<u8>) -> Result<(), AllocError>
    ensures { OnOk result (out.new.items ≡ out.old.items ++ own_help) }
{
    out.extend_from_slice(b"regs: the registers that are set\n")?;
    out.extend_from_slice(b"code A: the instruction at an address\n")?;
    out.extend_from_slice(b"slot N: a frame word\n")?;
    out.extend_from_slice(b"help: this list\n")?;
    out.extend_from_slice(b"quit: the end\n")?;
    out.extend_from_slice(b"ok\n")
}

/// Puts the list of all commands.
pub fn push_help(out: &mut Vec<u8>) -> Result<(), AllocError>
    ensures { OnOk result (out.new.items ≡ out.old.items ++ help) }
{
    push_script_help(out)?;
    push_run_help(out)?;
    push_own_help(out)
}
