//! What the compiler chooses on a machine.

ghost use Rattle.std.specs.Prelude.{◌≡◌, Some, None, IfOk, IfErr};
ghost use Rattle.tta_connect.specs.Coverage.{failed_rule, IsChoice};
ghost use Rattle.tta_connect.specs.Coverage.{TellsRule};

use crate::ends::{into, some_bus};
use crate::guard::guard_register;
use crate::homes::homes_of;
use crate::hub::{has_words, hub_of};
use crate::net::Net;
use crate::target_machine::TargetMachine;
use crate::units::{has_frame, usable_units};
use std::alloc::{AllocError, Global};
use thiserror::Error;
use tta_arch::{Machine, Op, Source};
use tta_list::Items;

/// The file through which all words can go, the register that keeps conditions, the registers that
/// can keep variables, as file and index, and the units that all words can reach, one bit each.
#[derive(Drop)]
pub struct Choice {
    pub hub: u8,
    pub guard_file: u8,
    pub guard_index: u8,
    pub homes: Items<(u8, u8)>,
    pub usable: u32,
}

/// Why nothing was chosen.
#[derive(Clone, Copy, Debug, PartialEq, Eq, Error)]
pub enum CoverError {
    /// The first rule that the machine does not keep.
    #[error("the machine breaks rule {0} of coverage")]
    Rule(u8),
    /// There is no memory.
    #[error("no memory")]
    NoMemory,
}

impl From<AllocError> for CoverError {
    ghost use Rattle.tta_connect.specs.declared.choice.CoverError.TheVariants.{NoMemory};

    ghost from_gives = { λ _ e. e ≡ NoMemory };

    fn from(_: AllocError) -> CoverError {
        CoverError::NoMemory
    }
}

/// What the compiler chooses on a machine, or the first rule that the machine does not keep.
#[tactic(auto, using(crate::proofs::Failing::fails_1, crate::proofs::Failing::fails_2, crate::proofs::Failing::fails_3, crate::proofs::Failing::fails_4, crate::proofs::Failing::fails_5))]
pub fn cover(alloc: Global, m: &Machine) -> Result<Choice, CoverError>
    ensures chosen { IfOk result (λ c. IsChoice m.now c) }
    ensures kept { IfOk result (λ c. failed_rule m.now ≡ None) }
    ensures refused { IfErr result (λ e. TellsRule m.now e) }
{
    let net = Net::of(alloc, m)?;
    let on = TargetMachine {
        machine: m,
        net: &net,
    };
    let Some(hub) = hub_of(&on) else {
        return Err(CoverError::Rule(1));
    };
    if !has_words(&on, hub) {
        return Err(CoverError::Rule(2));
    }
    let Some((guard_file, guard_index)) = guard_register(&on, hub) else {
        return Err(CoverError::Rule(3));
    };
    if !some_bus(&on, Source::Ra, into(hub), None) {
        return Err(CoverError::Rule(4));
    }
    let usable = usable_units(&on, hub);
    if !has_frame(m, usable) {
        return Err(CoverError::Rule(5));
    }
    let homes = homes_of(alloc, &on, hub)?;
    Ok(Choice {
        hub,
        guard_file,
        guard_index,
        homes,
        usable,
    })
}
