//! Reading the script of a run.
ghost use Rattle.std.specs.Prelude.{◌≡◌, ◌⊎◌, [], Some, None, IsTrue, IfOk, IfErr, IsErrOf};
ghost use Rattle.host_tree.specs.declared.call.HostCall.{HostCall};
ghost use Rattle.host_tree.specs.Host.{Bytes, Files, SameFiles};
ghost use Rattle.host_tree.specs.Counts.{Rose, CountsOnly};
ghost use Rattle.pea_top.specs.Inner.Scripts.{IsScriptOrWhy, IsScriptStop, script_status};
ghost use Rattle.pea_top.specs.declared.script.ScriptStop.TheVariants.{NoMemory as no_memory};

use crate::folder::file_name;
use crate::reading::read_whole;
use crate::status::Status;
use class_model::{ByteList, NoMemory};
use host_tree::{FileName, Host, HostCall, HostFail};
use machine_values::ActionList;
use script_text::{ScriptFault, read_script};
use std::alloc::Global;

/// Why a script was not read.
#[derive(Drop)]
pub(crate) enum ScriptStop {
    /// The root without a name does not hold it.
    Absent { name: FileName },
    /// The read failed.
    Fault,
    /// This line, counted from 1, is the first one of these bytes outside the grammar of scripts.
    Outside { line: u64, bytes: ByteList },
    NoMemory,
}

impl From<NoMemory> for ScriptStop {
    ghost from_gives = { λ _ stop. stop ≡ no_memory };

    fn from(_: NoMemory) -> Self {
        ScriptStop::NoMemory
    }
}

/// The status of a command whose script is not read.
pub(crate) fn script_status(stop: ScriptStop) -> Status
    ensures { result ≡ script_status stop }
{
    match stop {
        ScriptStop::Absent { name } => Status::Absent { name },
        ScriptStop::Fault => Status::HostFault(HostCall::Read),
        ScriptStop::Outside { line, .. } => Status::BadScript { line },
        ScriptStop::NoMemory => Status::NoMemory,
    }
}

/// The actions of the script of this name, under the root without a name.
pub(crate) fn read_actions<H: Host>(
    alloc: Global,
    host: &mut H,
    script: &str,
) -> Result<ActionList, ScriptStop>
    ensures files { IsTrue H.tells → SameFiles (H.file host.old) (H.file host.new) }
    ensures printed { IsTrue H.tells → H.printed host.new ≡ H.printed host.old }
    ensures counts { CountsOnly HostCall.Read (H.faults host.old) (H.faults host.new) }
    ensures found { IsTrue H.tells → IsScriptOrWhy (H.file host.old) script.now result }
    ensures fault { IsErrOf result ScriptStop.Fault
        → Rose (H.faults host.old HostCall.Read) (H.faults host.new HostCall.Read) }
    ensures absent { (name : Bytes)
        → IsErrOf result (ScriptStop.Absent name)
        → IsTrue H.tells ⊎ Rose (H.faults host.old HostCall.Read) (H.faults host.new HostCall.Read) }
{
    let bytes = read_file(alloc, host, script)?;
    actions_of(alloc, bytes)
}

/// All bytes of the file of this name, under the root without a name.
fn read_file<H: Host>(alloc: Global, host: &mut H, name: &str) -> Result<ByteList, ScriptStop>
    ensures files { IsTrue H.tells → SameFiles (H.file host.old) (H.file host.new) }
    ensures printed { IsTrue H.tells → H.printed host.new ≡ H.printed host.old }
    ensures counts { CountsOnly HostCall.Read (H.faults host.old) (H.faults host.new) }
    ensures bytes { IsTrue H.tells
        → IfOk result (λ bytes. H.file host.old [] name.now ≡ Some bytes) }
    ensures stop { IsTrue H.tells → IfErr result (IsScriptStop (H.file host.old) name.now) }
    ensures fault { IsErrOf result ScriptStop.Fault
        → Rose (H.faults host.old HostCall.Read) (H.faults host.new HostCall.Read) }
    ensures absent { (missing : Bytes)
        → IsErrOf result (ScriptStop.Absent missing)
        → IsTrue H.tells ⊎ Rose (H.faults host.old HostCall.Read) (H.faults host.new HostCall.Read) }
{
    match read_whole(alloc, host, "", name) {
        Ok(bytes) => Ok(bytes),
        Err(HostFail::Failed) => Err(ScriptStop::Fault),
        Err(HostFail::Absent) => Err(absent(alloc, name)),
        Err(HostFail::NoMemory) => Err(ScriptStop::NoMemory),
    }
}

/// That no file of this name is there.
fn absent(alloc: Global, name: &str) -> ScriptStop
    ensures { (result ≡ ScriptStop.Absent name.now) ⊎ (result ≡ ScriptStop.NoMemory) }
{
    match file_name(alloc, name) {
        Ok(name) => ScriptStop::Absent { name },
        Err(NoMemory) => ScriptStop::NoMemory,
    }
}

/// The actions of a script of these bytes.
fn actions_of(alloc: Global, bytes: ByteList) -> Result<ActionList, ScriptStop>
    ensures found { (files : Files) (script : Bytes)
        → files [] script ≡ Some bytes
        → IsScriptOrWhy files script result }
    ensures not_fault { ¬ IsErrOf result ScriptStop.Fault }
    ensures not_absent { (name : Bytes) → ¬ IsErrOf result (ScriptStop.Absent name) }
{
    match read_script(alloc, bytes.as_slice()) {
        Ok(actions) => Ok(actions),
        Err(ScriptFault::BadScript { line }) => Err(ScriptStop::Outside { line, bytes }),
        Err(ScriptFault::NoMemory) => Err(ScriptStop::NoMemory),
    }
}
