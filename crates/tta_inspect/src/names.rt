//! The names of a request. A name is that of a file.

ghost use Rattle.std.specs.Prelude.{◌<◌, ◌^◌, length, IsTrue};
ghost use Rattle.tta_net_command.specs.Request.{is_net};
ghost use Rattle.tta_inspect.specs.Spans.{first_of};

use crate::view::{CircuitView, RunView, StagesView, View};

/// A view of a machine that is asked for, and the name of the machine's file.
#[derive(Clone, Copy)]
pub struct MachineRequest<'w> {
    pub view: View,
    pub machine: &'w str,
}

/// What is told of an image for a machine that is asked for: the names of the machine's file and of the
/// image's.
#[derive(Clone, Copy)]
pub struct InfoRequest<'w> {
    pub machine: &'w str,
    pub image: &'w str,
}

/// The picture of code that is asked for: the names of the machine's file and of that of the image or the
/// program.
#[derive(Clone, Copy)]
pub struct PictureRequest<'w> {
    pub machine: &'w str,
    pub subject: &'w str,
}

/// A view of the stages of a program for a machine that is asked for, and the names of the machine's
/// file and of the program's.
#[derive(Clone, Copy)]
pub struct StagesRequest<'w> {
    pub view: StagesView,
    pub machine: &'w str,
    pub program: &'w str,
}

/// The circuit of a machine with code that is asked for, and the names of the machine's file and of that
/// of the image or the program.
#[derive(Clone, Copy)]
pub struct RtlRequest<'w> {
    pub view: CircuitView,
    pub machine: &'w str,
    pub subject: &'w str,
}

/// What the circuit of a machine with code is made of is asked for: the names of the machine's file and of
/// that of the image or the program.
#[derive(Clone, Copy)]
pub struct CostRequest<'w> {
    pub machine: &'w str,
    pub subject: &'w str,
}

/// The circuits of cores that are joined by queues that are asked for: the word that says how many words
/// the queues have, the file of the links, and three files for each core.
#[derive(Clone, Copy)]
pub struct NetRequest<'w> {
    pub depths: &'w str,
    pub links: &'w str,
    /// Of each core the machine's name, that of the image, and that of the data words.
    pub names: &'w [String],
    ghost count: { IsTrue (is_net (length names.now)) },
}

/// A view of a run that is asked for: the names of the run's files, that of the input where it has one,
/// and how many cycles it makes at most.
#[derive(Clone, Copy)]
pub struct RunRequest<'w> {
    pub view: RunView,
    pub machine: &'w str,
    pub subject: &'w str,
    pub input: &'w str,
    pub stream: Option<&'w str>,
    pub bound: u64,
    ghost few: { bound < 2 ^ 48 },
    ghost early: { first_of view < 2 ^ 48 },
}

/// A session at a prompt that is asked for: the names of its run's files, and that of the input where it
/// has one.
#[derive(Clone, Copy)]
pub struct PromptRequest<'w> {
    pub machine: &'w str,
    pub image: &'w str,
    pub input: &'w str,
    pub stream: Option<&'w str>,
}
