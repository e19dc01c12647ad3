//! What joins a part to the buses.

ghost use Rattle.std.specs.Prelude.{◌≡◌, ◌≤◌, ◌++◌, [], if◌then◌else◌, OnOk};
ghost use Rattle.tta_arch.specs.Joins.{has_bit};
ghost use Rattle.tta_draw.specs.Svg.{dot_text};
ghost use Rattle.tta_draw.specs.MachinePlaces.{bus_y};
ghost use Rattle.tta_draw.specs.MachinePicture.{stem_text, socket_text, port_text, port_if_text};
ghost use Rattle.tta_draw.specs.MachinePicture.{dots_text};

use crate::machine_places::{bus_y, port_spot, socket_spot, stem_frame};
use crate::svg::{push_box, push_dot, push_label};
use std::alloc::AllocError;
use tta_arch::{Machine, Socket, has_bus};
use tta_list::entry_at;

/// Puts a dot on a bus, if a set of buses has it.
fn push_joint(
    out: &mut Vec<u8>,
    class: &[u8],
    x: u64,
    buses: u16,
    bus: usize,
) -> Result<(), AllocError>
    requires { bus ≤ 16 }
    ensures { OnOk result (out.new.items ≡ out.old.items
        ++ (if has_bit buses bus then dot_text class.now x (bus_y bus) else [])) }
{
    if has_bus(buses, bus) {
        return push_dot(out, class, x, bus_y(bus));
    }
    Ok(())
}

/// Puts a dot on each bus of a set.
fn push_dots(
    out: &mut Vec<u8>,
    m: &Machine,
    class: &[u8],
    x: u64,
    buses: u16,
) -> Result<(), AllocError>
    ensures { OnOk result (out.new.items ≡ out.old.items ++ dots_text m.now class.now x buses) }
{
    for bus in 0..m.buses.len() {
        push_joint(out, class, x, buses, bus)?;
    }
    Ok(())
}

/// Puts a line from a port up to the buses, with a dot on each bus of a set.
#[tactic(auto, unfolding(crate::specs::MachinePicture::stem_text))]
pub fn push_stem(
    out: &mut Vec<u8>,
    m: &Machine,
    class: &[u8],
    x: u64,
    buses: u16,
) -> Result<(), AllocError>
    requires { x ≤ 2000000 }
    ensures { OnOk result (out.new.items ≡ out.old.items ++ stem_text m.now class.now x buses) }
{
    push_box(out, class, stem_frame(m, x))?;
    push_dots(out, m, class, x + 1, buses)
}

/// Puts a socket at a port: its line and dots, and its name.
fn push_socket(out: &mut Vec<u8>, m: &Machine, x: u64, s: &Socket) -> Result<(), AllocError>
    requires { x ≤ 2000000 }
    ensures { OnOk result (out.new.items ≡ out.old.items ++ socket_text m.now x s.now) }
{
    let class: &[u8] = if s.input { b"in" } else { b"out" };
    push_stem(out, m, class, x, s.buses)?;
    push_label(out, b"note", socket_spot(m, x), s.name.as_bytes())
}

/// Puts a port: its name, and its socket.
#[tactic(auto, unfolding(crate::specs::MachinePicture::port_text))]
pub fn push_port(
    out: &mut Vec<u8>,
    m: &Machine,
    x: u64,
    name: &[u8],
    socket: u8,
) -> Result<(), AllocError>
    requires { x ≤ 2000000 }
    ensures { OnOk result (out.new.items ≡ out.old.items ++ port_text m.now x name.now socket) }
{
    push_label(out, b"port", port_spot(m, x), name)?;
    match entry_at(m.sockets.as_slice(), socket) {
        Some(s) => push_socket(out, m, x, s),
        None => Ok(()),
    }
}

/// Puts a port, where the part has it.
pub fn push_port_if(
    out: &mut Vec<u8>,
    m: &Machine,
    x: u64,
    name: &[u8],
    socket: Option<u8>,
) -> Result<(), AllocError>
    requires { x ≤ 2000000 }
    ensures { OnOk result (out.new.items
        ≡ out.old.items ++ port_if_text m.now x name.now socket) }
{
    match socket {
        Some(socket) => push_port(out, m, x, name, socket),
        None => Ok(()),
    }
}
