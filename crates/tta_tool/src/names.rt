//! The names and numbers of a request. A name is that of a file.

ghost use Rattle.std.specs.Prelude.{◌<◌, ◌≤◌, ◌^◌};

/// The names of the files of a command that makes one of two others: the machine's, that of what is
/// for it, and that of the result.
#[derive(Clone, Copy)]
pub struct WriteRequest<'w> {
    pub machine: &'w str,
    pub second: &'w str,
    pub out: &'w str,
}

/// An image of code that is to be built: the names of its files, and whether the program is
/// converted first.
#[derive(Clone, Copy)]
pub struct BuildRequest<'w> {
    pub names: WriteRequest<'w>,
    pub converts: bool,
}

/// The names of the files of a command that makes one of a program alone: the program's, and that of
/// the result.
#[derive(Clone, Copy)]
pub struct ConvertRequest<'w> {
    pub program: &'w str,
    pub out: &'w str,
}

/// The names of the files of a command that asks whether code can fault: the machine's and that of the
/// image.
#[derive(Clone, Copy)]
pub struct CheckRequest<'w> {
    pub machine: &'w str,
    pub image: &'w str,
}

/// The names of the files that a run reads: the machine's, that of the program or of the image that
/// is run on it, that of the data words, and that of the input, where it has one.
#[derive(Clone, Copy)]
pub struct RunFiles<'w> {
    pub machine: &'w str,
    /// That of the program or of the image.
    pub second: &'w str,
    /// That of the data words.
    pub input: &'w str,
    /// That of the input, where it has one.
    pub stream: Option<&'w str>,
}

/// A run that is asked for: its files, and how many steps or cycles it makes at most.
#[derive(Clone, Copy)]
pub struct RunRequest<'w> {
    pub names: RunFiles<'w>,
    pub bound: u64,
    ghost few: { bound < 2 ^ 48 },
}

/// A session that is asked for: the files of its run, and the file of its script.
#[derive(Clone, Copy)]
pub struct SessionRequest<'w> {
    pub names: RunFiles<'w>,
    pub script: &'w str,
}

/// A sample that is asked for: its seed, how many body lines it has, and the file of the machine
/// that it is made for.
#[derive(Clone, Copy)]
pub struct SampleRequest<'w> {
    pub seed: u32,
    pub lines: u32,
    pub machine: &'w str,
    ghost some: { 1 ≤ lines },
    ghost few: { lines ≤ 20000 },
}
