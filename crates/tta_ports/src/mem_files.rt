//! Files in memory, for tests: calls fail where they are asked to.

ghost use Rattle.std.specs.Prelude.{◌≡◌, ◌≢◌, ℕ, List, ◌<◌, ◌≤◌, ◌^◌, length, OnOk, OnErr, IfOk};
ghost use Rattle.std.specs.Prelude.{Some, option_copied, position, bytes_eq};
ghost use Rattle.tta_ports.specs.declared.fault.Fault.TheVariants.{Read, Write};
ghost use Rattle.tta_ports.specs.Store.{file_at, with_file};
ghost use Rattle.tta_ports.specs.Entries.{store_of};

use crate::fault::{Fault, FaultLog};
use crate::{Files, ReadError, WriteError};
use std::alloc::{AllocError, Global};
use std::marker::Model;
use tta_list::Name;

/// A file: its name and its bytes.
#[derive(Drop)]
struct File {
    name: Name,
    bytes: Vec<u8>,
}

/// Files in memory. Reads and writes are numbered together from 1, whatever they answer, and those
/// whose numbers were handed in fail. A read of a missing name fails too, and nothing else does.
///
/// A write that fails keeps the first half of the bytes, rounded down. Each read and each write
/// copies the name first, and answers `NoMemory` where a copy finds no memory.
#[derive(Drop)]
pub struct MemFiles {
    alloc: Global,
    files: Vec<File>,
    failing: Vec<u64>,
    calls: u64,
    log: FaultLog,
}

impl Model for MemFiles {
    ghost use Rattle.std.specs.Prelude.{◌<◌, ◌^◌};
    ghost use Rattle.tta_ports.specs.Disk.{Disk, disk_code};
    ghost use Rattle.tta_ports.specs.contracts.fault.Fault as stored_fault;

    ghost Value = { Disk };

    ghost coded = { disk_code stored_fault.the_row.coded };

    ghost use Rattle.tta_ports.specs.Entries.{store_of};

    ghost view = { λ m. record {
      store = store_of m.files.items;
      failing = m.failing.items;
      calls = m.calls;
      faults = m.log.count;
      latest = m.log.latest;
    } };

    ghost invariant = { λ m. m.log.count < 2 ^ 64 };
}

/// Where the file of a name stands.
fn position_of(files: &[File], name: &[u8]) -> Option<usize>
    ensures { result ≡ position (λ f. bytes_eq f.name name.now) files.now }
{
    files.iter().position(|f| f.name.as_bytes() == name)
}

/// Makes the name hold the bytes.
fn put(alloc: Global, files: &mut Vec<File>, name: &[u8], bytes: &[u8]) -> Result<(), AllocError>
    ensures ok { OnOk result (store_of files.new.items
        ≡ with_file (store_of files.old.items) name.now bytes.now) }
    ensures err { OnErr result (files.new.items ≡ files.old.items) }
{
    let file = File {
        name: Name::new(alloc, name)?,
        bytes: Vec::from_slice(alloc, bytes)?,
    };
    match position_of(files.as_slice(), name) {
        Some(at) => files[at] = file,
        None => files.push(file)?,
    }
    Ok(())
}

impl MemFiles {
    ghost use Rattle.tta_ports.specs.Disk.{new_disk, called, fails_next, holding};

    /// No files. `failing` has the numbers of the calls that are to fail.
    pub fn new(alloc: Global, failing: Vec<u64>) -> Self
        ensures { result ≡ new_disk failing.items }
    {
        MemFiles {
            alloc,
            files: Vec::new(alloc),
            failing,
            calls: 0,
            log: FaultLog::new(),
        }
    }

    /// Gives it a file, in place of one of that name. This is no numbered call.
    ///
    /// It fails only where there is no memory, and then the files are as before.
    pub fn add(&mut self, name: &str, bytes: &[u8]) -> Result<(), AllocError>
        ensures ok { OnOk result (self.new ≡ holding name.now bytes.now self.old) }
        ensures held { OnOk result (file_at self.new.store name.now ≡ Some bytes.now) }
        ensures others { OnOk result ((other : List ℕ) → other ≢ name.now
            → file_at self.new.store other ≡ file_at self.old.store other) }
        ensures err { OnErr result (self.new ≡ self.old) }
    {
        put(self.alloc, &mut self.files, name.as_bytes(), bytes)?;
        Ok(())
    }

    /// The bytes of a name, and none where there is no such file.
    pub fn get(&self, name: &str) -> Option<&[u8]>
        ensures { option_copied result ≡ file_at self.now.store name.now }
    {
        match position_of(&self.files, name.as_bytes()) {
            Some(at) => Some(&self.files[at].bytes),
            None => None,
        }
    }

    /// Counts a call, and says whether it is to fail.
    fn begin_call(&mut self) -> bool
        ensures answer { result ≡ fails_next self.old }
        ensures counted { self.new ≡ called self.old }
        ensures kept { self.old.faults < 2 ^ 64 }
    {
        self.calls = self.calls.saturating_add(1);
        self.failing.contains(&self.calls)
    }
}

impl Files for MemFiles {
    ghost use Rattle.tta_ports.specs.Faults.{CountsFault, TellsFault};
    ghost use Rattle.tta_ports.specs.Files.{Holds, HoldsMore, IfTooLong, WritesFile, read_failed};
    ghost use Rattle.tta_ports.specs.Files.{write_failed};
    ghost use Rattle.tta_ports.specs.Disk.{read_answer, ReadAnswers, after_read, WriteAnswers};

    ghost world = { λ m. record {
      contents = Some m.store;
      faults = m.faults;
      latest = m.latest;
    } };

    fn read(&mut self, name: &str, limit: u64) -> Result<Vec<u8>, ReadError>
        // It fails exactly where its number is to fail and where there is no such name, unless
        // memory is short.
        ensures exact { ReadAnswers (read_answer self.old name.now limit) result }
        ensures after { self.new ≡ after_read name.now (read_failed result) self.old }

        // What every kind of files says.
        ensures bytes { IfOk result (λ v. Holds (Some self.old.store) name.now v.items) }
        ensures within { IfOk result (λ v. length v.items ≤ limit) }
        ensures above { IfTooLong result (λ count. limit < count) }
        ensures exceeds { IfTooLong result (λ n. HoldsMore (Some self.old.store) name.now n) }
        ensures unchanged { Some self.new.store ≡ Some self.old.store }
        ensures cause { CountsFault (read_failed result) self.old.faults self.new.faults }
        ensures blame { TellsFault (read_failed result) (Read name.now)
            self.old.latest self.new.latest }
        ensures later { self.old.faults ≤ self.new.faults }
        ensures bounded { self.new.faults < 2 ^ 64 }
    {
        let must_fail = self.begin_call();
        let copy = Name::new(self.alloc, name.as_bytes())?;
        if must_fail {
            self.log.add(Fault::Read(copy));
            return Err(ReadError::Failed);
        }
        let Some(bytes) = self.get(name) else {
            self.log.add(Fault::Read(copy));
            return Err(ReadError::Failed);
        };
        let count = bytes.len() as u64;
        if count > limit {
            return Err(ReadError::TooLong { count });
        }
        Ok(bytes.to_vec(self.alloc)?)
    }

    fn write(&mut self, name: &str, bytes: &[u8]) -> Result<(), WriteError>
        // It fails exactly where its number is to fail, unless memory is short, and then keeps
        // the first half.
        ensures exact { WriteAnswers self.old self.new name.now bytes.now result }

        // What every kind of files says.
        ensures written { WritesFile name.now bytes.now
            (Some self.old.store) (Some self.new.store) result }
        ensures cause { CountsFault (write_failed result) self.old.faults self.new.faults }
        ensures blame { TellsFault (write_failed result) (Write name.now)
            self.old.latest self.new.latest }
        ensures later { self.old.faults ≤ self.new.faults }
        ensures bounded { self.new.faults < 2 ^ 64 }
    {
        let must_fail = self.begin_call();
        let copy = Name::new(self.alloc, name.as_bytes())?;
        if must_fail {
            self.add(name, &bytes[..bytes.len() / 2])?;
            self.log.add(Fault::Write(copy));
            return Err(WriteError::Failed);
        }
        self.add(name, bytes)?;
        Ok(())
    }
}
