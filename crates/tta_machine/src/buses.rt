//! The declarations of buses and sockets.

ghost use Rattle.std.specs.Prelude.{map};
ghost use Rattle.tta_parse.specs.Lines.{plain};
ghost use Rattle.tta_parse.specs.Taken.{Takes};
ghost use Rattle.tta_machine.specs.Forms.{bus_form, socket_form};
ghost use Rattle.tta_machine.specs.Declarations.{take_bus, take_socket};
ghost use Rattle.tta_machine.specs.Kept.{IsDraft};
ghost use Rattle.tta_machine.specs.Seen.{formed};

use crate::draft::{Draft, Named};
use crate::limits::{MOST_BUSES, MOST_SOCKETS, WORD_BITS, is_from_to, is_too_long};
use crate::lookups::add_part;
use crate::refusal::{LineError, Refusal};
use crate::syntax;
use std::alloc::Global;
use tta_arch::{Bus, Socket};
use tta_list::Name;
use tta_parse::Word;

impl Draft {
    /// Takes a bus by the words after `bus`. It is refused as `Syntax` where they have another
    /// form, as `Twice` where its name is taken, and else as `Range` where its short field has no
    /// bit or more than 32, its name is too long, or 16 buses are there.
    #[tactic(auto, unfolding(crate::specs::Declarations::take_bus))]
    pub fn take_bus(&mut self, alloc: Global, words: &[Word]) -> Result<(), LineError>
        ensures { Takes self.new result
            (formed (bus_form (map plain words.now)) (take_bus self.old)) }
    {
        let Some(form) = syntax::bus_form(words) else {
            return Err(LineError::Refused(Refusal::Syntax));
        };
        if self.is_taken(form.name) {
            return Err(LineError::Refused(Refusal::Twice));
        }
        if !is_from_to(1, WORD_BITS, form.short)
            || is_too_long(form.name)
            || self.buses.len() >= MOST_BUSES
        {
            return Err(LineError::Refused(Refusal::Range));
        }
        let place = Named::Bus(self.buses.len() as u8);
        let Ok(name) = Name::new(alloc, form.name) else {
            return Err(LineError::NoMemory);
        };
        let bus = Bus {
            name,
            short: form.short as u8,
            signed: form.signed,
        };
        add_part(
            alloc,
            &mut self.names,
            &mut self.buses,
            form.name,
            place,
            bus,
        )
    }

    /// Takes a socket by the words after `socket`. It is refused as `Syntax` where they have
    /// another form, as `Unknown` where a name of its buses names no bus, as `Twice` where its name
    /// is taken or a bus stands twice, and as `Range` where its name is too long or 128 sockets are
    /// there.
    #[tactic(auto, unfolding(crate::specs::Declarations::take_socket))]
    pub fn take_socket(&mut self, alloc: Global, words: &[Word]) -> Result<(), LineError>
        requires { IsDraft self.old }
        ensures { Takes self.new result
            (formed (socket_form (map plain words.now)) (take_socket self.old)) }
    {
        let Some(form) = syntax::socket_form(words) else {
            return Err(LineError::Refused(Refusal::Syntax));
        };
        let Some(set) = self.set_named(form.buses) else {
            return Err(LineError::Refused(Refusal::Unknown));
        };
        if self.is_taken(form.name) {
            return Err(LineError::Refused(Refusal::Twice));
        }
        let Some(buses) = set else {
            return Err(LineError::Refused(Refusal::Twice));
        };
        if is_too_long(form.name) || self.sockets.len() >= MOST_SOCKETS {
            return Err(LineError::Refused(Refusal::Range));
        }
        let place = Named::Socket(self.sockets.len() as u8);
        let Ok(name) = Name::new(alloc, form.name) else {
            return Err(LineError::NoMemory);
        };
        let input = form.input;
        let socket = Socket { name, input, buses };
        add_part(
            alloc,
            &mut self.names,
            &mut self.sockets,
            form.name,
            place,
            socket,
        )
    }
}
