//! The arguments of a call.

ghost use Rattle.std.specs.Prelude.{◌≡◌, ◌<◌, ◌≤◌, ◌++◌, [], ◌∷◌, length, IfOk, OnErr, OnOk};

use crate::operand::Src;
use std::alloc::{AllocError, Global};
use std::marker::Model;

/// A list of at most eight operands. They lie apart, so that a step without them is small.
#[derive(Drop)]
pub struct Args {
    operands: Vec<Src>,
}

impl Model for Args {
    ghost use Rattle.std.specs.Prelude.{◌≤◌, List, length};
    ghost use Rattle.tta_program.specs.declared.operand.Src.{Src};

    ghost Value = { List Src };

    ghost view = { λ a. a.operands.items };

    ghost invariant = { λ a. length a.operands.items ≤ 8 };
}

impl Args {
    /// No operands. It takes no memory.
    pub fn new(alloc: Global) -> Self
        ensures { result ≡ [] }
    {
        Args {
            operands: Vec::new(alloc),
        }
    }

    /// Puts an operand at the end. It fails only where there is no memory, and then nothing changes.
    pub fn push(&mut self, s: Src) -> Result<(), AllocError>
        requires { length self.old < 8 }
        ensures ok { OnOk result (self.new ≡ self.old ++ s ∷ []) }
        ensures err { OnErr result (self.new ≡ self.old) }
    {
        self.operands.push(s)?;
        Ok(())
    }

    /// The same operands once more. An `Err` is out of memory.
    pub fn copy(&self, alloc: Global) -> Result<Self, AllocError>
        ensures { IfOk result (λ s. s ≡ self.now) }
    {
        let operands = Vec::from_slice(alloc, self.operands.as_slice())?;
        Ok(Args { operands })
    }

    /// The operands in order.
    pub fn as_slice(&self) -> &[Src]
        ensures all { result.now ≡ self.now }
        ensures few { length result.now ≤ 8 }
    {
        self.operands.as_slice()
    }
}
