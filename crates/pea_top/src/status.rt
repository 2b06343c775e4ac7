//! The outcome of a call.
ghost use Rattle.std.specs.Prelude.{◌≡◌};
ghost use Rattle.pea_top.specs.Status.{ending, is_refused, status_code};

use class_model::{FileRule, Member, Text};
use class_tree::LinkRule;
use host_tree::{FileName, HostCall};
use type_rules::TypeRule;

/// How a call ended.
#[derive(Debug, Drop)]
pub enum Status {
    /// The command was done, and everything was written and printed.
    Done,
    /// The words are not in the grammar.
    Usage,
    /// This class file of the input or of the library breaks a rule, first at this place in bytes. It is the first
    /// class file that is refused: those of the input first, in byte order of names.
    Malformed {
        name: FileName,
        at: u64,
        rule: FileRule,
    },
    /// This class file of the input or of the library is of a version that is not read. It is the first class file
    /// that is refused: those of the input first, in byte order of names.
    Version {
        name: FileName,
        major: u16,
        minor: u16,
    },
    /// The class files of the input are not linked with those of the library: this class breaks a rule of linking, or
    /// its member does; a member without a name is the class itself. It is the first problem.
    Unlinked {
        class: Text,
        member: Member,
        rule: LinkRule,
    },
    /// The class files of the input are linked but do not verify: this method of this class breaks a rule, first at this
    /// offset of its code, in bytes. It is the first failure.
    Unverified {
        class: Text,
        method: Member,
        offset: u32,
        rule: TypeRule,
    },
    /// This line of the script, counted from 1, is the first one outside the grammar of scripts.
    BadScript {
        line: u64,
    },
    /// The root without a name does not hold this script.
    Absent {
        name: FileName,
    },
    /// A call of the host failed.
    HostFault(HostCall),
    /// Memory ran out.
    NoMemory,
}

impl Status {
    /// The exit status of the process.
    pub fn code(&self) -> u8
        ensures { result ≡ status_code self.now }
    {
        match self {
            Status::Done => 0,
            Status::Usage => 1,
            Status::Malformed { .. } => 2,
            Status::Version { .. } => 3,
            Status::Unlinked { .. } => 4,
            Status::Unverified { .. } => 5,
            Status::HostFault(_) => 6,
            Status::BadScript { .. } => 7,
            Status::NoMemory => 9,
            Status::Absent { .. } => 12,
        }
    }

    /// Whether a line is printed of it, and nothing is written.
    pub(crate) fn is_refusal(&self) -> bool
        ensures { result ≡ is_refused (ending self.now) }
    {
        !matches!(self, Status::Done | Status::HostFault(_) | Status::NoMemory)
    }
}
