//! How a command ends.

ghost use Rattle.std.specs.Prelude.{◌≡◌};
ghost use Rattle.tta_load.specs.Status.{number_of};

use thiserror::Error;

/// How a command ends. Lines are counted from 1, where 0 stands for a whole text; words are those
/// of the command line, counted from 0 at the command.
#[derive(Clone, Copy, Debug, PartialEq, Eq, Error)]
pub enum Status {
    /// All was done.
    #[error("ok")]
    Ok,
    /// The words are no command.
    #[error("usage")]
    Usage,
    /// The machine's text is refused at a line, for a reason with a number from 10 to 15.
    #[error("machine: line {line}, code {code}")]
    BadMachine { line: u32, code: u8 },
    /// The program's text is refused at a line, for a reason with a number from 20 to 28.
    #[error("program: line {line}, code {code}")]
    BadProgram { line: u32, code: u8 },
    /// The machine breaks a rule of coverage, from 1 to 5.
    #[error("not covered: rule {rule}")]
    NotCovered { rule: u8 },
    /// The step of a line needs an operation that no usable unit of the machine offers.
    #[error("no unit: line {line}")]
    NoUnit { line: u32 },
    /// The program needs more frame words than the machine has.
    #[error("frame full: need {need}, have {have}")]
    FrameFull { need: u32, have: u32 },
    /// The code needs more instructions than the machine has addresses.
    #[error("code full: words {words}, have {have}")]
    CodeFull { words: u64, have: u32 },
    /// The file of an image is refused, for a reason with a number from 40 to 48, at a word and a
    /// bus.
    #[error("image: code {code}, word {word}, bus {bus}")]
    BadImage { code: u8, word: u32, bus: u8 },
    /// The assembly is refused at a line, for a reason with a number from 50 to 57.
    #[error("assembly: line {line}, code {code}")]
    BadAsm { line: u32, code: u8 },
    /// The file of the data words is refused at a line: it is no word, or one more than the data
    /// space has.
    #[error("input: line {line}")]
    BadInput { line: u32 },
    /// The machine is at a fault with a number from 60 to 65, after so many cycles without one.
    #[error("machine fault: code {code}, cycle {cycle}")]
    MachineFault { code: u8, cycle: u64 },
    /// The run goes on past its bound.
    #[error("running")]
    Running,
    /// The file that a word names could not be read.
    #[error("read fault: word {word}")]
    ReadFault { word: u8 },
    /// The result could not be written, or a line could not be output.
    #[error("write fault")]
    WriteFault,
    /// The file that a word names has more than 16 MiB.
    #[error("too long: word {word}")]
    TooLong { word: u8 },
    /// Out of memory.
    #[error("no memory")]
    NoMemory,
    /// A word of the program's data, reported by its line, lies outside the data space of the machine,
    /// which has so many words.
    #[error("data: line {line}, have {have}")]
    DataRange { line: u32, have: u32 },
    /// The file of the input is refused at a line, which is no word.
    #[error("stream: line {line}")]
    BadStream { line: u32 },
    /// The run waits for a word of the input, and none is left.
    #[error("waiting")]
    Waiting,
    /// Some walk through the code has a code from 60 to 65 or 80 at a word, or two walks disagree there
    /// and the code is 80: so some run might fault.
    #[error("unsafe: code {code}, word {word}")]
    Unsafe { code: u8, word: u32 },
    /// The links of a net are refused at a line, for a reason with a number from 82 to 84.
    #[error("links: line {line}, code {code}")]
    BadLinks { line: u32, code: u8 },
    /// The file of a core that a word names is refused, for a reason with a number: that of the
    /// machine's text or of the image, or 85 for the words of the data space.
    #[error("core file: word {word}, code {code}")]
    BadCore { word: u8, code: u8 },
}

impl Status {
    /// The number with which the program ends.
    pub fn number(&self) -> u8
        ensures { result ≡ number_of self.now }
    {
        match self {
            Status::Ok => 0,
            Status::Usage => 1,
            Status::BadMachine { .. } => 2,
            Status::BadProgram { .. } => 3,
            Status::NotCovered { .. } => 4,
            Status::NoUnit { .. } => 5,
            Status::FrameFull { .. } => 6,
            Status::CodeFull { .. } => 7,
            Status::BadImage { .. } => 8,
            Status::BadAsm { .. } => 9,
            Status::BadInput { .. } => 10,
            Status::MachineFault { .. } => 11,
            Status::Running => 12,
            Status::ReadFault { .. } => 13,
            Status::WriteFault => 14,
            Status::TooLong { .. } => 15,
            Status::NoMemory => 16,
            Status::DataRange { .. } => 17,
            Status::BadStream { .. } => 18,
            Status::Waiting => 19,
            Status::Unsafe { .. } => 20,
            Status::BadLinks { .. } => 21,
            Status::BadCore { .. } => 22,
        }
    }
}
