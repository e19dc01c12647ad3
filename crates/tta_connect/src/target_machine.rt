//! A machine with its net.

ghost use Rattle.tta_connect.specs.Net.{IsNetOf};

use crate::net::Net;
use tta_arch::Machine;

/// A machine with its net.
#[derive(Clone, Copy)]
pub struct TargetMachine<'a> {
    pub machine: &'a Machine,
    /// Which buses join which ports.
    pub net: &'a Net,
    ghost net_of: { IsNetOf net.now machine.now },
}
