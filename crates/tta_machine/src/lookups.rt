//! What the names of a draft name.

ghost use Rattle.std.specs.Prelude.{◌≡◌, ◌++◌, ◌∷◌, [], false, if◌then◌else◌};
ghost use Rattle.std.specs.Prelude.{Some, None, option_map, OnOk, IfErr};
ghost use Rattle.tta_parse.specs.Names.{named_in};
ghost use Rattle.tta_parse.specs.Steps.{or_refuse};
ghost use Rattle.tta_parse.specs.declared.line_error.LineError.TheVariants.{NoMemory};
ghost use Rattle.tta_machine.specs.declared.refusal.Refusal.TheVariants.{Unknown};
ghost use Rattle.tta_machine.specs.Draft.{nothing, is_taken};
ghost use Rattle.tta_machine.specs.Draft.{bus_named, socket_named, file_named, imm_named};
ghost use Rattle.tta_machine.specs.Draft.{unit_named};
ghost use Rattle.tta_machine.specs.Declarations.{port_named};
ghost use Rattle.tta_arch.specs.Rules.{is_socket};

use crate::draft::{Draft, Named};
use crate::refusal::LineError;
use std::alloc::Global;
use tta_arch::Socket;
use tta_list::{Items, entry_at};
use tta_parse::Names;

impl Draft {
    /// The draft before the first line. It takes no memory.
    pub fn new(alloc: Global) -> Draft
        ensures { result ≡ nothing }
    {
        Draft {
            names: Names::new(alloc),
            buses: Items::new(alloc),
            sockets: Items::new(alloc),
            files: Items::new(alloc),
            imms: Items::new(alloc),
            units: Items::new(alloc),
            guards: Items::new(alloc),
            templates: Items::new(alloc),
            template_lines: Items::new(alloc),
            control: None,
            data_words: None,
            frame_words: None,
        }
    }

    /// Whether a name cannot be declared: it is declared already, or it is control's, `gcu`.
    pub fn is_taken(&self, name: &[u8]) -> bool
        ensures { result ≡ is_taken self.now name.now }
    {
        self.names.get(name).is_some() || name == b"gcu".as_slice()
    }

    /// The bus of a name.
    pub fn bus_named(&self, name: &[u8]) -> Option<u8>
        ensures { result ≡ bus_named self.now name.now }
    {
        match self.names.get(name) {
            Some(Named::Bus(place)) => Some(place),
            _ => None,
        }
    }

    /// The socket of a name, where it has this direction.
    pub fn socket_named(&self, input: bool, name: &[u8]) -> Option<u8>
        ensures { result ≡ socket_named self.now input name.now }
    {
        match self.names.get(name) {
            Some(Named::Socket(place)) => only_of_direction(self.sockets.as_slice(), input, place),
            _ => None,
        }
    }

    /// The file of a name.
    pub fn file_named(&self, name: &[u8]) -> Option<u8>
        ensures { result ≡ file_named self.now name.now }
    {
        match self.names.get(name) {
            Some(Named::File(place)) => Some(place),
            _ => None,
        }
    }

    /// The immediate unit of a name.
    pub fn imm_named(&self, name: &[u8]) -> Option<u8>
        ensures { result ≡ imm_named self.now name.now }
    {
        match self.names.get(name) {
            Some(Named::Imm(place)) => Some(place),
            _ => None,
        }
    }

    /// The unit of a name.
    pub fn unit_named(&self, name: &[u8]) -> Option<u8>
        ensures { result ≡ unit_named self.now name.now }
    {
        match self.names.get(name) {
            Some(Named::Unit(place)) => Some(place),
            _ => None,
        }
    }

    /// The socket of a port that may be left out: `None` where a name is given that names no
    /// socket of this direction.
    pub fn port_named(&self, input: bool, name: Option<&[u8]>) -> Option<Option<u8>>
        ensures { let name = option_map (λ b. b.now) name.entry in
            port_named self.now input name ≡ or_refuse Unknown result }
    {
        let Some(name) = name else {
            return Some(None);
        };
        match self.socket_named(input, name) {
            Some(place) => Some(Some(place)),
            None => None,
        }
    }
}

/// Puts a part after the others of its kind, and declares its name.
pub fn add_part<T: Drop>(
    alloc: Global,
    names: &mut Names<Named>,
    parts: &mut Items<T>,
    name: &[u8],
    named: Named,
    part: T,
) -> Result<(), LineError>
    requires { named_in names.old name.now ≡ None }
    ensures names { OnOk result (names.new ≡ names.old ++ (name.now, named) ∷ []) }
    ensures parts { OnOk result (parts.new ≡ parts.old ++ part ∷ []) }
    ensures memory { IfErr result (λ e. e ≡ NoMemory) }
{
    parts.push(part)?;
    names.add(alloc, name, named)?;
    Ok(())
}

/// The place, if a socket of this direction stands there.
fn only_of_direction(sockets: &[Socket], input: bool, place: u8) -> Option<u8>
    ensures { result ≡ (if is_socket sockets.now input place then Some place else None) }
{
    if is_socket(sockets, input, place) {
        Some(place)
    } else {
        None
    }
}

/// Whether a socket of this direction stands at a place.
fn is_socket(sockets: &[Socket], input: bool, place: u8) -> bool
    ensures { result ≡ is_socket sockets.now input place }
{
    match entry_at(sockets, place) {
        Some(socket) => socket.input == input,
        None => false,
    }
}
