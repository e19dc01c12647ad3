//! The modules of the cores.

ghost use Rattle.std.specs.Prelude.{◌≡◌, ◌≤◌, ◌+◌, [], ◌∷◌, ◌++◌, length, map, IfOk, OnOk};
ghost use Rattle.std.specs.Option.{option_map_or};
ghost use Rattle.tta_ops.specs.Set.{stated};
ghost use Rattle.tta_netlist.specs.Net.{AreSound, IsSound, core_module, core_modules, ends_at};
ghost use Rattle.tta_netlist.specs.Net.{ends_of};

use std::alloc::{AllocError, Global};
use tta_arch::Op;
use tta_code::Whole;
use tta_kahn::Core;
use tta_list::Items;
use tta_ops::UnitSet;
use tta_rtl::{Module, offers, push_core};
use tta_wiring::{Ends, push_numbered};

/// Puts the circuit of a core whose data space begins with these words, as a module. Of an image of its
/// code the text takes no more than the bits of the code, so that it needs no digest and no data.
#[tactic(auto, unfolding(crate::specs::Net::core_module))]
fn push_module(
    alloc: Global,
    out: &mut Vec<u8>,
    units: &UnitSet,
    k: u8,
    core: Core,
    first: &[u32],
) -> Result<(), AllocError>
    requires { IsSound core first.now }
    ensures { let U = stated unit_meaning units.now in
        OnOk result (out.new.items ≡ out.old.items ++ core_module U k core first.now) }
{
    let Core { machine, code } = core;
    let init = Items::new(alloc);
    let whole = Whole { code, init };
    let mut name = Vec::new(alloc);
    push_numbered(&mut name, b"tta_core_", k)?;
    let wanted = Module {
        m: &machine,
        units,
        name: name.as_slice(),
        gives: true,
        takes: true,
        first,
    };
    push_core(alloc, out, &wanted, &[0; 32], &whole)
}

/// The first of some cores, with the others.
#[tactic(auto, using(crate::proofs::Firsts::first_is))]
fn first_of(cores: Vec<Core>) -> Option<(Core, Vec<Core>)>
    ensures { cores.items ≡ option_map_or (λ p. p.0 ∷ p.1.items) result [] }
{
    let mut rest = cores;
    if rest.is_empty() {
        return None;
    }
    let core = rest.remove(0);
    Some((core, rest))
}

/// Puts the circuits of the cores from one on, whose data spaces begin with these words.
pub fn push_modules(
    alloc: Global,
    out: &mut Vec<u8>,
    units: &UnitSet,
    k: u8,
    cores: Vec<Core>,
    memories: &[Vec<u32>],
) -> Result<(), AllocError>
    requires few { k + length cores.items ≤ 255 }
    requires sound { AreSound cores.items (map (λ v. v.items) memories.now) }
    ensures { let U = stated unit_meaning units.now in
        OnOk result (out.new.items ≡ out.old.items
        ++ core_modules U k cores.items (map (λ v. v.items) memories.now)) }
{
    let Some((core, rest)) = first_of(cores) else {
        return Ok(());
    };
    match memories {
        [] => Ok(()),
        [first, others @ ..] => {
            push_module(alloc, out, units, k, core, first.as_slice())?;
            push_modules(alloc, out, units, k + 1, rest, others)
        }
    }
}

/// Which words a core has.
fn ends_at(alloc: Global, core: &Core) -> Result<Ends, AllocError>
    ensures { IfOk result (λ e. e ≡ ends_at core.now) }
{
    let gives = offers(alloc, &core.machine, Op::Out)?;
    let takes = offers(alloc, &core.machine, Op::Take)?;
    Ok(Ends { gives, takes })
}

/// Puts which words cores have.
fn push_ends(alloc: Global, ends: &mut Vec<Ends>, cores: &[Core]) -> Result<(), AllocError>
    ensures { OnOk result (ends.new.items ≡ ends.old.items ++ ends_of cores.now) }
{
    match cores {
        [] => Ok(()),
        [core, rest @ ..] => {
            let first = ends_at(alloc, core)?;
            ends.push(first)?;
            push_ends(alloc, ends, rest)
        }
    }
}

/// Which words cores have.
pub fn ends_of(alloc: Global, cores: &[Core]) -> Result<Vec<Ends>, AllocError>
    ensures { IfOk result (λ v. v.items ≡ ends_of cores.now) }
{
    let mut ends = Vec::new(alloc);
    push_ends(alloc, &mut ends, cores)?;
    Ok(ends)
}
