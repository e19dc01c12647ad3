//! Faults of files: how many there were, and which was the latest.

ghost use Rattle.std.specs.Prelude.{◌≡◌, Some};
ghost use Rattle.tta_ports.specs.Faults.{next_count};

use tta_list::Name;

/// A fault of a file: the name, and whether it was a read or a write.
#[derive(Drop)]
pub enum Fault {
    Read(Name),
    Write(Name),
}

/// How many faults there were, up to the last value of the counter, and the latest of them.
#[derive(Drop)]
pub struct FaultLog {
    pub count: u64,
    pub latest: Option<Fault>,
}

impl FaultLog {
    /// No fault yet.
    pub fn new() -> Self
        ensures count { result.count ≡ 0 }
        ensures latest { result.latest ≡ None }
    {
        FaultLog {
            count: 0,
            latest: None,
        }
    }

    /// Counts a fault and keeps it as the latest.
    pub fn add(&mut self, fault: Fault)
        ensures count { self.new.count ≡ next_count self.old.count }
        ensures latest { self.new.latest ≡ Some fault }
    {
        self.count = self.count.saturating_add(1);
        self.latest = Some(fault);
    }
}
