//! The counts of faults.
ghost use Rattle.std.specs.Prelude.{◌≡◌, ◌+◌, min};
ghost use Rattle.host_tree.specs.declared.call.HostCall.{HostCall};
ghost use Rattle.host_tree.specs.Counts.{last_count, CountsOnly};
ghost use Rattle.host_tree.specs.Faults.{count_of};

use crate::call::HostCall;

/// How often calls of each kind have failed. A count stands still at its last number.
#[derive(Clone, Copy, PartialEq, Eq)]
pub struct Faults {
    list: u64,
    read: u64,
    write: u64,
    print: u64,
}

impl Faults {
    /// No faults.
    pub fn none() -> Self
        ensures { (of : HostCall) → count_of result of ≡ 0 }
    {
        Faults {
            list: 0,
            read: 0,
            write: 0,
            print: 0,
        }
    }

    /// The count of one kind.
    pub fn of(&self, call: HostCall) -> u64
        ensures { result ≡ count_of self.now call }
    {
        match call {
            HostCall::List => self.list,
            HostCall::Read => self.read,
            HostCall::Write => self.write,
            HostCall::Print => self.print,
        }
    }

    /// Counts one more fault of a kind; a count stands still at its last number.
    pub fn raise(&mut self, call: HostCall)
        ensures once { count_of self.new call ≡ min (count_of self.old call + 1) last_count }
        ensures only { CountsOnly call (count_of self.old) (count_of self.new) }
    {
        match call {
            HostCall::List => self.list = self.list.saturating_add(1),
            HostCall::Read => self.read = self.read.saturating_add(1),
            HostCall::Write => self.write = self.write.saturating_add(1),
            HostCall::Print => self.print = self.print.saturating_add(1),
        }
    }
}
