//! What is shown of a machine, of code for it, or of a run of such code.

use tta_header::Features;
use tta_rtl::Rom;

/// A kind of text of a machine, or of code with data for it.
#[derive(Clone, Copy, Debug, PartialEq, Eq)]
pub enum View {
    /// A picture, as SVG.
    Picture,
    /// What is told of it, a line each.
    Info,
    /// What its circuit is made of, a line each.
    Cost,
}

/// A kind of text of the stages of a program.
#[derive(Clone, Copy, Debug, PartialEq, Eq)]
pub enum StagesView {
    /// Parts of lines, a heading before each part.
    Lines,
    /// A page that shows them side by side, as HTML.
    Page,
}

/// A kind of text of the circuit of a machine with code.
#[derive(Clone, Copy)]
pub enum CircuitView {
    /// A module that does these things, with the words of the code in it or in a file.
    Module { rom: Rom, features: Features },
    /// The file of the words of the code.
    CodeFile,
}

/// A kind of text of a run.
#[derive(Clone, Copy, Debug, PartialEq, Eq)]
pub enum RunView {
    /// Where its cycles go, a line each.
    Profile,
    /// A page that plays its first cycles, as HTML.
    Play,
    /// A page that plays those after so many.
    PlayAfter(u64),
    /// A dump of its signals, cycle by cycle.
    Waves,
}
