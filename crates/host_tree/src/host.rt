//! The trait by which the program reaches files and standard output.
ghost use Rattle.std.specs.Prelude.{◌≡◌, ℕ, Bool, List, Option, Some, None, ◌++◌, take, IsTrue, IsSome, IfOk, OnOk, OnErr, IsErrOf, ◌⊎◌};
ghost use Rattle.host_tree.specs.declared.call.HostCall.{HostCall};
ghost use Rattle.host_tree.specs.Host.{Files, SameFiles, SameElsewhere, IsListing, IsReadOf, IsPrefixPrinted};
ghost use Rattle.host_tree.specs.Counts.{Rose, CountsOnly};

use crate::call::{HostCall, HostFail};
use crate::file_name::FileNameList;
use crate::progress::Progress;
use class_model::ByteList;
use std::alloc::Global;

/// A host. What it holds is told or not told, by its type. Four counts of faults, one for each kind
/// of call, never fall, and stand still at 2^64 - 1. Each call, also a refused one, leaves the files,
/// what was printed and the counts of the other kinds as they were, but for what its clauses say.
/// What is explained to the user and how far a command has come are kept apart from what is printed: no clause speaks of them.
pub trait Host {
    /// Whether it tells its files and what was printed.
    ghost tells: { Bool };

    /// The bytes of each name of each root.
    ghost file: { Self → Files };

    /// The bytes printed so far.
    ghost printed: { Self → List ℕ };

    /// How often calls of each kind have failed.
    ghost faults: { Self → HostCall → ℕ };

    /// The names of a root, each once, in any order: all of them where they are at most `most`, and
    /// else `most` of them. A root that is not there has no names.
    fn list(&mut self, alloc: Global, root: &str, most: u64) -> Result<FileNameList, HostFail>
        ensures names { IsTrue tells → IfOk result (IsListing (file self.old root.now) most) }
        ensures files { IsTrue tells → SameFiles (file self.old) (file self.new) }
        ensures printed { IsTrue tells → printed self.new ≡ printed self.old }
        ensures counts { CountsOnly HostCall.List (faults self.old) (faults self.new) }
        ensures failed { IsErrOf result HostFail.Failed
            → Rose (faults self.old HostCall.List) (faults self.new HostCall.List) }
        ensures not_absent { ¬ IsErrOf result HostFail.Absent };

    /// The first `most` bytes of a file, or all of it where it is shorter. `Absent` where the root
    /// does not hold the name.
    fn read(
        &mut self,
        alloc: Global,
        root: &str,
        name: &str,
        most: u64,
    ) -> Result<ByteList, HostFail>
        ensures bytes { IsTrue tells
            → IfOk result (IsReadOf (file self.old root.now name.now) most) }
        ensures files { IsTrue tells → SameFiles (file self.old) (file self.new) }
        ensures printed { IsTrue tells → printed self.new ≡ printed self.old }
        ensures counts { CountsOnly HostCall.Read (faults self.old) (faults self.new) }
        ensures failed { IsErrOf result HostFail.Failed
            → Rose (faults self.old HostCall.Read) (faults self.new HostCall.Read) }

        // Where the host tells, a name that is not there is no fault, and is `Absent` or wants memory.
        ensures none_there { IsTrue tells
            → file self.old root.now name.now ≡ None
            → (faults self.new HostCall.Read ≡ faults self.old HostCall.Read)
            × (IsErrOf result HostFail.Absent ⊎ IsErrOf result HostFail.NoMemory) }
        ensures absent { IsTrue tells
            → IsErrOf result HostFail.Absent
            → file self.old root.now name.now ≡ None }
        ensures absent_untold { IsErrOf result HostFail.Absent
            → IsTrue tells ⊎ Rose (faults self.old HostCall.Read) (faults self.new HostCall.Read) };

    /// Puts a file under a name, in the place of one that is there. After a refusal that one name may
    /// hold any bytes or be absent.
    fn write(&mut self, alloc: Global, root: &str, name: &str, bytes: &[u8]) -> Result<(), HostFail>
        ensures written { IsTrue tells
            → OnOk result (file self.new root.now name.now ≡ Some bytes.now) }
        ensures elsewhere { IsTrue tells
            → SameElsewhere root.now name.now (file self.old) (file self.new) }
        ensures printed { IsTrue tells → printed self.new ≡ printed self.old }
        ensures counts { CountsOnly HostCall.Write (faults self.old) (faults self.new) }
        ensures failed { IsErrOf result HostFail.Failed
            → Rose (faults self.old HostCall.Write) (faults self.new HostCall.Write) }
        ensures not_absent { ¬ IsErrOf result HostFail.Absent };

    /// Appends bytes to what was printed. After a refusal a prefix of them was appended.
    fn print(&mut self, alloc: Global, bytes: &[u8]) -> Result<(), HostFail>
        ensures all { IsTrue tells
            → OnOk result (printed self.new ≡ printed self.old ++ bytes.now) }
        ensures prefix { IsTrue tells
            → IsPrefixPrinted bytes.now (printed self.old) (printed self.new) }
        ensures files { IsTrue tells → SameFiles (file self.old) (file self.new) }
        ensures counts { CountsOnly HostCall.Print (faults self.old) (faults self.new) }
        ensures failed { IsErrOf result HostFail.Failed
            → Rose (faults self.old HostCall.Print) (faults self.new HostCall.Print) }
        ensures not_absent { ¬ IsErrOf result HostFail.Absent };

    /// Shows the user an explanation, a text in UTF-8, beside what is printed. It may be lost.
    fn explain(&mut self, bytes: &[u8])
        ensures files { IsTrue tells → SameFiles (file self.old) (file self.new) }
        ensures printed { IsTrue tells → printed self.new ≡ printed self.old }
        ensures counts { (call : HostCall) → faults self.new call ≡ faults self.old call };

    /// Shows the user how far a command has come, in the place of what was shown before. It may be lost, and is gone
    /// where something else is shown.
    fn show_progress(&mut self, progress: Progress)
        ensures files { IsTrue tells → SameFiles (file self.old) (file self.new) }
        ensures printed { IsTrue tells → printed self.new ≡ printed self.old }
        ensures counts { (call : HostCall) → faults self.new call ≡ faults self.old call };
}
