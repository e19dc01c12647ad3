//! The cores of a net, one after another.

ghost use Rattle.std.specs.Prelude.{◌≡◌, ◌++◌, ◌∷◌, [], ◌+◌, ◌*◌, ◌≤◌, ◌<◌, length, map, IfOk};
ghost use Rattle.std.specs.String.{string_bytes};
ghost use Rattle.tta_ops.specs.Set.{stated};
ghost use Rattle.tta_net.specs.Loaded.{CanLoadAll};
ghost use Rattle.tta_net_command.specs.CoreFiles.{CoresEnd};

use crate::files::{CoreFile, core_file};
use std::alloc::{AllocError, Global};
use tta_load::Status;
use tta_net::Core;
use tta_ops::UnitSet;
use tta_ports::Files;

/// Cores, and the words of their data spaces at first.
#[derive(Drop)]
pub struct Cores {
    pub cores: Vec<Core>,
    pub memories: Vec<Vec<u32>>,
}

impl Cores {
    /// No core.
    fn none(alloc: Global) -> Self
        ensures cores { result.cores.items ≡ [] }
        ensures memories { result.memories.items ≡ [] }
    {
        Cores {
            cores: Vec::new(alloc),
            memories: Vec::new(alloc),
        }
    }

    /// One core more.
    fn add(&mut self, file: CoreFile) -> Result<(), AllocError>
        ensures cores { IfOk result (λ _. self.new.cores.items
            ≡ self.old.cores.items ++ file.core ∷ []) }
        ensures memories { IfOk result (λ _. map (λ v. v.items) self.new.memories.items
            ≡ map (λ v. v.items) self.old.memories.items ++ file.memory.items ∷ []) }
    {
        let CoreFile { core, memory } = file;
        self.cores.push(core)?;
        self.memories.push(memory)?;
        Ok(())
    }
}

/// The cores of a net, as many as the first names name, three each.
pub fn core_files<F: Files>(
    alloc: Global,
    units: &UnitSet,
    files: &mut F,
    names: &[String],
    count: u8,
) -> Result<Cores, Status>
    requires few { count ≤ 8 }
    requires names { 3 * count ≤ length names.now }
    ensures ends { let U = stated unit_meaning units.now in
        CoresEnd U (map (λ w. string_bytes w) names.now) count
        (F.world files.old) (F.world files.new)
        (λ c. c.cores.items) (λ c. map (λ v. v.items) c.memories.items) result }
    ensures load { IfOk result (λ c.
        CanLoadAll c.cores.items (map (λ v. v.items) c.memories.items)) }
{
    let mut taken = Cores::none(alloc);
    let mut core = 0;
    'cores: while core < count {
        let file = core_file(alloc, units, files, names, core)?;
        let Ok(()) = taken.add(file) else {
            return Err(Status::NoMemory);
        };
        core += 1;
    }
    Ok(taken)
}
