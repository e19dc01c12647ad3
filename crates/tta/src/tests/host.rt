//! The host of a test: files and an output in memory, over which a command is carried out.

use crate::run;
use std::alloc::{AllocError, Global};
use std::test::Fail;
use tta_ops::UnitSet;
use tta_ports::{MemFiles, MemSink};
use tta_tool::{Status, tool};

/// What `OUT` holds before a command.
pub const BEFORE: &[u8] = b"before";

/// Files of these texts, `IMG` with this image, and `OUT`, where the call of the files and the put
/// of a line with these numbers fail. They are counted from 1, so that 0 stands for none. The
/// commands run over the five standard units, where no others are given.
#[derive(Clone, Copy)]
pub struct Host<'a> {
    pub alloc: Global,
    pub texts: &'a [(&'a str, &'a str)],
    pub image: &'a [u8],
    pub units: Option<&'a UnitSet>,
    pub failing_call: u64,
    pub failing_put: u64,
}

/// Fails where a case ends otherwise, and gives its place.
pub fn none_other(first_other: Result<Option<usize>, AllocError>) -> Result<(), Fail> {
    match first_other {
        Ok(None) => Ok(()),
        Ok(Some(i)) => Err(Fail::new(format_args!("case {i} ends otherwise"))),
        Err(e) => Err(Fail::from(e)),
    }
}

// Gives the files their texts.
fn add_texts(files: &mut MemFiles, texts: &[(&str, &str)]) -> Result<(), AllocError> {
    for (name, text) in texts {
        files.add(name, text.as_bytes())?;
    }
    Ok(())
}

// Whether a file of this name holds these bytes.
fn holds(files: &MemFiles, name: &str, bytes: &[u8]) -> bool {
    match files.get(name) {
        Some(held) => held == bytes,
        None => false,
    }
}

// Whether the files hold their texts still.
fn hold_texts(files: &MemFiles, texts: &[(&str, &str)]) -> bool {
    for (name, text) in texts {
        if !holds(files, name, text.as_bytes()) {
            return false;
        }
    }
    true
}

// Puts the words at the end.
fn add_words(alloc: Global, strings: &mut Vec<String>, words: &[&str]) -> Result<(), AllocError> {
    for word in words {
        let string = String::from_str(alloc, word)?;
        if strings.push(string).is_err() {
            return Err(AllocError);
        }
    }
    Ok(())
}

// Carries out the command of these words, over other units than the standard ones if given.
fn carry_out(
    alloc: Global,
    units: Option<&UnitSet>,
    words: &[&str],
    files: &mut MemFiles,
    sink: &mut MemSink,
) -> Result<Status, AllocError> {
    let mut strings = Vec::new(alloc);
    if let Err(e) = add_words(alloc, &mut strings, words) {
        drop(strings);
        return Err(e);
    }
    let status = match units {
        Some(units) => Ok(tool(alloc, &strings, units, files, sink)),
        None => run(alloc, &strings, files, sink),
    };
    drop(strings);
    status
}

impl<'a> Host<'a> {
    /// These texts and this image, and no call or put that fails.
    pub fn new(alloc: Global, texts: &'a [(&'a str, &'a str)], image: &'a [u8]) -> Host<'a> {
        Host {
            alloc,
            texts,
            image,
            units: None,
            failing_call: 0,
            failing_put: 0,
        }
    }

    // Gives the files all that they hold before a command.
    fn add_files(&self, files: &mut MemFiles) -> Result<(), AllocError> {
        add_texts(files, self.texts)?;
        files.add("IMG", self.image)?;
        files.add("OUT", BEFORE)
    }

    // Whether `OUT` holds this, and the other files are as they were before a command.
    fn are_left(&self, files: &MemFiles, out: &[u8]) -> bool {
        holds(files, "OUT", out) && self.are_kept(files)
    }

    // Whether all files but `OUT` are as they were, and none came to be.
    fn are_kept(&self, files: &MemFiles) -> bool {
        holds(files, "IMG", self.image)
            && files.get("NEW").is_none()
            && hold_texts(files, self.texts)
    }

    // The files before a command.
    fn files(&self) -> Result<MemFiles, AllocError> {
        let mut files = MemFiles::new(self.alloc, vec![in self.alloc; self.failing_call]?);
        match self.add_files(&mut files) {
            Ok(()) => Ok(files),
            Err(e) => {
                drop(files);
                Err(e)
            }
        }
    }

    // How a command over these files ends, if this is what it outputs.
    fn ending_with(
        &self,
        words: &[&str],
        files: &mut MemFiles,
        output: &[u8],
    ) -> Result<Option<Status>, AllocError> {
        let failing = vec![in self.alloc; self.failing_put]?;
        let Ok(mut sink) = MemSink::new(self.alloc, 2000, failing) else {
            return Err(AllocError);
        };
        let ended = carry_out(self.alloc, self.units, words, files, &mut sink);
        let is_put = sink.bytes() == output;
        drop(sink);
        match ended {
            Ok(status) => Ok(is_put.then_some(status)),
            Err(e) => Err(e),
        }
    }

    /// Whether a command ends so, leaves `OUT` so, outputs this, and changes no other file.
    pub fn leaves(
        &self,
        words: &[&str],
        ending: Status,
        out: &[u8],
        output: &[u8],
    ) -> Result<bool, AllocError> {
        let Ok(mut files) = self.files() else {
            return Err(AllocError);
        };
        let ended = self.ending_with(words, &mut files, output);
        let is_left = self.are_left(&files, out);
        drop(files);
        match ended {
            Ok(ended) => Ok(is_left && ended == Some(ending)),
            Err(e) => Err(e),
        }
    }

    /// Whether a command ends so, outputs this, and changes no file.
    pub fn prints(&self, words: &[&str], ending: Status, output: &str) -> Result<bool, AllocError> {
        self.leaves(words, ending, BEFORE, output.as_bytes())
    }

    /// What a command writes to `OUT`: `before` where it writes nothing, and no bytes where it does
    /// not end well or outputs something.
    pub fn written(&self, words: &[&str]) -> Result<Vec<u8>, AllocError> {
        let Ok(mut files) = self.files() else {
            return Err(AllocError);
        };
        let written = match self.ending_with(words, &mut files, b"") {
            Ok(Some(Status::Ok)) => Vec::from_slice(self.alloc, files.get("OUT").unwrap_or(b"")),
            Ok(_) => Ok(Vec::new(self.alloc)),
            Err(e) => Err(e),
        };
        drop(files);
        written
    }
}
