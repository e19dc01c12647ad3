//! A machine.

ghost use Rattle.std.specs.Prelude.{◌≡◌, ◌^◌, ◌≤◌};

use crate::parts::{Bus, Control, File, Guard, ImmUnit, Socket, Template, Unit};
use std::marker::Model;
use tta_list::Items;

/// A machine, as its text declares it. The lists are in the order of the text, and a part is named
/// by its place in its list.
#[derive(Drop)]
pub struct Machine {
    pub buses: Items<Bus>,
    pub sockets: Items<Socket>,
    pub files: Items<File>,
    pub imms: Items<ImmUnit>,
    pub units: Items<Unit>,
    pub guards: Items<Guard>,
    pub templates: Items<Template>,
    pub control: Control,
    /// How many words the data space has.
    pub data_words: u32,
    /// How many words the frame space has.
    pub frame_words: u32,
}

impl Model for Machine {
    ghost use Rattle.tta_arch.specs.Machine.{Machine};

    ghost Value = { Machine };

    ghost view = { λ m. record {
      buses = m.buses;
      sockets = m.sockets;
      files = m.files;
      imms = m.imms;
      units = m.units;
      guards = m.guards;
      templates = m.templates;
      control = m.control;
      data_words = m.data_words;
      frame_words = m.frame_words;
    } };

    ghost use Rattle.tta_arch.specs.Rules.{IsMachine};

    ghost invariant = { λ m. IsMachine (record {
      buses = m.buses;
      sockets = m.sockets;
      files = m.files;
      imms = m.imms;
      units = m.units;
      guards = m.guards;
      templates = m.templates;
      control = m.control;
      data_words = m.data_words;
      frame_words = m.frame_words;
    }) };
}

impl Machine {
    ghost use Rattle.std.specs.Prelude.{◌≡◌, ◌^◌, ◌≤◌};
    ghost use Rattle.tta_arch.specs.Rules.{IsMachine};

    /// That a machine keeps the rules of machines, for a proof that asks for it. It does nothing.
    pub fn rules(&self)
        ensures { IsMachine self.now }
    {
        let _delay = self.control.delay;
    }

    /// How many addresses an instruction can have: 2 to the number of address bits, at most 65,536.
    #[tactic(auto, using(crate::proofs::Facts::address_most))]
    pub fn addresses(&self) -> u32
        ensures all { result ≡ 2 ^ self.now.control.address }
        ensures few { result ≤ 65536 }
        ensures rules { IsMachine self.now }
    {
        told_apart(self.control.address)
    }
}

/// How many addresses so many bits tell apart.
fn told_apart(bits: u8) -> u32
    requires { bits ≤ 16 }
    ensures all { result ≡ 2 ^ bits }
    ensures few { result ≤ 65536 }
{
    1 << bits
}
