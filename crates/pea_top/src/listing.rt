//! Listing one class file.
ghost use Rattle.std.specs.Prelude.{◌≡◌, ◌⊎◌, Some, IsTrue, IfOk, IfErr, IsErrOf};
ghost use Rattle.host_tree.specs.declared.call.HostCall.{HostCall};
ghost use Rattle.host_tree.specs.Host.{Bytes, Folder, SameFiles};
ghost use Rattle.host_tree.specs.Counts.{Rose, CountsOnly};
ghost use Rattle.pea_top.specs.Inner.Listing.{IsListingOrWhy, IsListStop, list_status};
ghost use Rattle.pea_top.specs.Inner.ReadingSteps.{IsWhyNot};
ghost use Rattle.pea_top.specs.declared.listing.ListStop.TheVariants.{NoMemory as no_memory};

use crate::folder::file_name;
use crate::reading::{class_of, read_whole};
use crate::status::Status;
use class_listing::{a_class_file_has_codes, list_class};
use class_model::{ByteList, ClassFault, FileRule, NoMemory};
use host_tree::{FileName, Host, HostCall, HostFail};
use std::alloc::Global;

/// Why a file was not listed.
#[derive(Drop)]
pub(crate) enum ListStop {
    /// The folder does not hold it.
    Absent {
        name: FileName,
    },
    /// The read failed.
    Fault,
    /// It breaks a rule, first at this place in bytes.
    Malformed {
        name: FileName,
        at: u64,
        rule: FileRule,
        bytes: ByteList,
    },
    /// It is of a version that is not read.
    Version {
        name: FileName,
        major: u16,
        minor: u16,
    },
    NoMemory,
}

impl From<NoMemory> for ListStop {
    ghost from_gives = { λ _ stop. stop ≡ no_memory };

    fn from(_: NoMemory) -> Self {
        ListStop::NoMemory
    }
}

/// The status of a command whose file is not listed.
pub(crate) fn list_status(stop: ListStop) -> Status
    ensures { result ≡ list_status stop }
{
    match stop {
        ListStop::Absent { name } => Status::Absent { name },
        ListStop::Fault => Status::HostFault(HostCall::Read),
        ListStop::Malformed { name, at, rule, .. } => Status::Malformed { name, at, rule },
        ListStop::Version { name, major, minor } => Status::Version { name, major, minor },
        ListStop::NoMemory => Status::NoMemory,
    }
}

/// The listing of the file of this name in a folder, which is read alone.
pub(crate) fn list_file<H: Host>(
    alloc: Global,
    host: &mut H,
    folder: &str,
    name: &str,
) -> Result<ByteList, ListStop>
    ensures files { IsTrue H.tells → SameFiles (H.file host.old) (H.file host.new) }
    ensures printed { IsTrue H.tells → H.printed host.new ≡ H.printed host.old }
    ensures counts { CountsOnly HostCall.Read (H.faults host.old) (H.faults host.new) }
    ensures found { IsTrue H.tells
        → IsListingOrWhy (H.file host.old folder.now) name.now result }
    ensures fault { IsErrOf result ListStop.Fault
        → Rose (H.faults host.old HostCall.Read) (H.faults host.new HostCall.Read) }
    ensures absent { (told : Bytes)
        → IsErrOf result (ListStop.Absent told)
        → IsTrue H.tells ⊎ Rose (H.faults host.old HostCall.Read) (H.faults host.new HostCall.Read) }
{
    let bytes = read_listed(alloc, host, folder, name)?;
    listing_of(alloc, name, bytes)
}

/// All bytes of the file of this name.
fn read_listed<H: Host>(
    alloc: Global,
    host: &mut H,
    folder: &str,
    name: &str,
) -> Result<ByteList, ListStop>
    ensures files { IsTrue H.tells → SameFiles (H.file host.old) (H.file host.new) }
    ensures printed { IsTrue H.tells → H.printed host.new ≡ H.printed host.old }
    ensures counts { CountsOnly HostCall.Read (H.faults host.old) (H.faults host.new) }
    ensures bytes { IsTrue H.tells
        → IfOk result (λ bytes. H.file host.old folder.now name.now ≡ Some bytes) }
    ensures stop { IsTrue H.tells
        → IfErr result (IsListStop (H.file host.old folder.now) name.now) }
    ensures fault { IsErrOf result ListStop.Fault
        → Rose (H.faults host.old HostCall.Read) (H.faults host.new HostCall.Read) }
    ensures absent { (told : Bytes)
        → IsErrOf result (ListStop.Absent told)
        → IsTrue H.tells ⊎ Rose (H.faults host.old HostCall.Read) (H.faults host.new HostCall.Read) }
{
    match read_whole(alloc, host, folder, name) {
        Ok(bytes) => Ok(bytes),
        Err(HostFail::Failed) => Err(ListStop::Fault),
        Err(HostFail::Absent) => Err(absent(alloc, name)),
        Err(HostFail::NoMemory) => Err(ListStop::NoMemory),
    }
}

/// That no file of this name is there.
fn absent(alloc: Global, name: &str) -> ListStop
    ensures { (result ≡ ListStop.Absent name.now) ⊎ (result ≡ ListStop.NoMemory) }
{
    match file_name(alloc, name) {
        Ok(name) => ListStop::Absent { name },
        Err(NoMemory) => ListStop::NoMemory,
    }
}

/// The listing of the file of this name and these bytes.
fn listing_of(alloc: Global, name: &str, bytes: ByteList) -> Result<ByteList, ListStop>
    ensures found { (folder : Folder)
        → folder name.now ≡ Some bytes
        → IsListingOrWhy folder name.now result }
    ensures not_fault { ¬ IsErrOf result ListStop.Fault }
    ensures not_absent { (told : Bytes) → ¬ IsErrOf result (ListStop.Absent told) }
{
    a_class_file_has_codes();
    match class_of(alloc, &bytes) {
        Ok(class) => Ok(list_class(alloc, &class)?),
        Err(fault) => {
            let name = file_name(alloc, name)?;
            Err(refused_as(name, bytes, fault))
        }
    }
}

/// Why the file of this name and these bytes is not listed.
fn refused_as(name: FileName, bytes: ByteList, fault: ClassFault) -> ListStop
    ensures stop { (folder : Folder)
        → folder name ≡ Some bytes
        → IsWhyNot bytes fault
        → IsListStop folder name result }
    ensures not_fault { ¬ (result ≡ ListStop.Fault) }
    ensures not_absent { (told : Bytes) → ¬ (result ≡ ListStop.Absent told) }
{
    match fault {
        ClassFault::Malformed { at, rule } => ListStop::Malformed {
            name,
            at,
            rule,
            bytes,
        },
        ClassFault::Version { major, minor } => ListStop::Version { name, major, minor },
        ClassFault::NoMemory => ListStop::NoMemory,
    }
}
