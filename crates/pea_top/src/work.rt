//! What is left to do of a command whose files were read.
ghost use Rattle.std.specs.Prelude.{◌≡◌, ◌⊎◌, List, Some, IsSome, IsTrue, IfOk, IfErr, IsErrOf};
ghost use Rattle.class_model.specs.Header.{header_of};
ghost use Rattle.host_tree.specs.declared.call.HostCall.{HostCall};
ghost use Rattle.host_tree.specs.Host.{Bytes, Files, SameFiles};
ghost use Rattle.host_tree.specs.Counts.{NeverFalls, Rose, CountsOnly};
ghost use Rattle.pea_top.specs.Words.{Word, Task as grammar_task, OnFolder, Spells};
ghost use Rattle.pea_top.specs.CommandView.{task_view};
ghost use Rattle.pea_top.specs.Status.{ending};
ghost use Rattle.pea_top.specs.Effects.{method_count, WritesTask};
ghost use Rattle.pea_top.specs.Inner.CommandEffects.{LeavesWritten, LeavesPrinted};
ghost use Rattle.std.specs.Option.{option_copied};
ghost use Rattle.member_link.specs.Linked.{IsLinked};
ghost use Rattle.type_rules.specs.Verified.{TypesFolder};
ghost use Rattle.pea_top.specs.Inner.Verifying.{IsKept};
ghost use Rattle.pea_top.specs.Inner.Deciding.{AreReady, IsShown, IsWork, WritesFiles, IsStop};
ghost use Rattle.pea_top.specs.Inner.Ended.{ended};
ghost use Rattle.pea_top.specs.Inner.ReadFiles.{AreFilesFor, HasNames, class_names};
ghost use Rattle.pea_top.specs.Inner.Scripts.{IsTaskStop};

use crate::both::both_text;
use crate::explaining::show;
use crate::folder::NamedFile;
use crate::lines::verified;
use crate::optimising::{output_of, plan_text};
use crate::reading::Input;
use crate::script::{ScriptStop, read_actions};
use crate::status::Status;
use crate::words::Task;
use crate::writing::write_files;
use class_model::{ByteList, ClassFile, NoMemory, Text};
use class_tree::Tree;
use explain::explain_end;
use host_tree::{Host, HostCall, HostFail};
use machine_run::a_tree_has_a_program;
use machine_values::ActionList;
use never_stuck::run_verified;
use script_text::print_events;
use std::alloc::Global;
use type_rules::TypedFolder;

/// What is left to do of a command, once its class files are linked and verified.
#[derive(Drop)]
pub(crate) enum Work<'a> {
    /// To optimise the input, write its files into this folder, and print the line that sums them up. The names are those of the classes
    /// of its class files, in order.
    Optimise { output: &'a str, names: Vec<Text> },
    /// To print what becomes of each method.
    Plan,
    /// To print this line.
    Print { line: Vec<u8> },
    /// To run these actions of the library, in at most so many steps, and print what the run shows.
    Run { actions: ActionList, steps: u64 },
    /// The same, and then to run the written folder.
    Both { actions: ActionList, steps: u64 },
}

/// The work of a task of what was read for it. The script of a run is read for it.
pub(crate) fn work_of<'a, H: Host>(
    alloc: Global,
    task: Task<'a>,
    host: &mut H,
    input: &Input,
) -> Result<Work<'a>, ScriptStop>
    ensures files { IsTrue H.tells → SameFiles (H.file host.old) (H.file host.new) }
    ensures printed { IsTrue H.tells → H.printed host.new ≡ H.printed host.old }
    ensures counts { CountsOnly HostCall.Read (H.faults host.old) (H.faults host.new) }
    ensures work { IsTrue H.tells
        → IfOk result (IsWork (task_view task.entry) (H.file host.old) input.now.classes) }
    ensures names { IfOk result (λ work. HasNames work input.now.classes) }
    ensures writes { IfOk result
        (λ work. WritesFiles work → WritesTask (task_view task.entry)) }
    ensures stop { IsTrue H.tells
        → IfErr result (IsTaskStop (task_view task.entry) (H.file host.old)) }
    ensures fault { IsErrOf result ScriptStop.Fault
        → Rose (H.faults host.old HostCall.Read) (H.faults host.new HostCall.Read) }
    ensures absent { (name : Bytes)
        → IsErrOf result (ScriptStop.Absent name)
        → IsTrue H.tells ⊎ Rose (H.faults host.old HostCall.Read) (H.faults host.new HostCall.Read) }
{
    let classes = input.classes.as_slice();
    match task {
        Task::Optimise { output } => {
            let names = names_of(alloc, classes)?;
            Ok(Work::Optimise { output, names })
        }
        Task::Plan => Ok(Work::Plan),
        Task::Verify => {
            let line = verified(alloc, classes.len(), methods(classes))?;
            Ok(Work::Print { line })
        }
        Task::Run { script, steps } => {
            let actions = read_actions(alloc, host, script)?;
            Ok(Work::Run { actions, steps })
        }
        Task::Both { script, steps } => {
            let actions = read_actions(alloc, host, script)?;
            Ok(Work::Both { actions, steps })
        }
    }
}

// The names of the classes of class files.
fn names_of(alloc: Global, classes: &[ClassFile]) -> Result<Vec<Text>, NoMemory>
    ensures { IfOk result (λ names. names.items ≡ class_names classes.now) }
{
    let mut names = Vec::with_capacity(alloc, classes.len())?;
    for class in classes {
        names.push(name_of(alloc, class)?)?;
    }
    Ok(names)
}

// The name of the class of a class file.
fn name_of(alloc: Global, class: &ClassFile) -> Result<Text, NoMemory>
    ensures { IfOk result (λ name. name ≡ (header_of class.now).name) }
{
    match class.pool.class_name(class.this_class) {
        Some(name) => name.copy(),
        None => Text::of_plain(alloc, b""),
    }
}

/// Does what is left of a command whose class files are linked and verified.
pub(crate) fn carry_out<H: Host>(
    alloc: Global,
    host: &mut H,
    tree: &Tree,
    typed: Option<&TypedFolder>,
    files: Vec<NamedFile>,
    work: &Work<'_>,
) -> Result<(), Status>
    requires linked { IsLinked tree.now }
    requires kept { IsKept tree.now work.now (option_copied typed) }
    requires files { AreFilesFor files.items tree.now work.now }
    ensures not_usage { ¬ IsErrOf result Status.Usage }
    ensures not_absent { (name : Bytes) → ¬ IsErrOf result (Status.Absent name) }
    ensures fault { (call : HostCall)
        → IsErrOf result (Status.HostFault call)
        → Rose (H.faults host.old call) (H.faults host.new call) }
    ensures counts { (call : HostCall)
        → NeverFalls (H.faults host.old call) (H.faults host.new call) }
    ensures write_count { ¬ WritesFiles work.now
        → H.faults host.new HostCall.Write ≡ H.faults host.old HostCall.Write }
    ensures stop { (input library : Word) (task : grammar_task) (words : List Word)
        → Spells (OnFolder input library task) words
        → IsTrue H.tells
        → AreReady input library task (H.file host.old) files.items tree.now work.now
        → IsStop words (H.file host.old) (H.file host.new) (H.printed host.old) (H.printed host.new)
        (ended result) }
{
    match work {
        Work::Print { line } => finish(alloc, host, line.as_slice()),
        Work::Optimise { output, names } => {
            let typed = kept(typed);
            match output_of(alloc, tree, typed, files, names.as_slice()) {
                Ok(written) => write_out(
                    alloc,
                    host,
                    output,
                    written.files.as_slice(),
                    written.line.as_slice(),
                ),
                Err(NoMemory) => Err(Status::NoMemory),
            }
        }
        Work::Plan => {
            let typed = kept(typed);
            match plan_text(alloc, tree, typed) {
                Ok(text) => finish(alloc, host, text.as_slice()),
                Err(NoMemory) => Err(Status::NoMemory),
            }
        }
        Work::Run { actions, steps } => {
            let typed = kept(typed);
            match run_text(alloc, tree, typed, actions, *steps) {
                Ok((text, note)) => finish_noted(alloc, host, note, text.as_slice()),
                Err(NoMemory) => Err(Status::NoMemory),
            }
        }
        Work::Both { actions, steps } => {
            let typed = kept(typed);
            match both_text(alloc, tree, typed, actions, *steps) {
                Ok((text, note)) => finish_noted(alloc, host, note, text.as_slice()),
                Err(NoMemory) => Err(Status::NoMemory),
            }
        }
    }
}

// The frames that were kept.
fn kept<'t>(typed: Option<&'t TypedFolder>) -> &'t TypedFolder
    requires { IsSome (option_copied typed) }
    ensures { option_copied typed.entry ≡ Some result.now }
{
    match typed {
        Some(typed) => typed,
        None => unreachable!(),
    }
}

/// What a run of these actions prints: its events and its end. And what is to be noted of its end.
fn run_text(
    alloc: Global,
    tree: &Tree,
    typed: &TypedFolder,
    actions: &ActionList,
    steps: u64,
) -> Result<(ByteList, Result<String, NoMemory>), NoMemory>
    requires linked { IsLinked tree.now }
    requires types { TypesFolder tree.now typed.now }
    ensures { IfOk result (λ told. IsShown tree.now actions.now steps told.0) }
{
    a_tree_has_a_program(tree);
    let shown = run_verified(alloc, tree, typed, actions, steps)?;
    let text = print_events(alloc, &shown)?;
    Ok((text, explain_end(alloc, tree, actions.as_slice(), &shown)))
}

/// How many methods class files have together.
fn methods(classes: &[ClassFile]) -> u128
    ensures { result ≡ method_count classes.now }
{
    let mut total = 0;
    for class in classes {
        total += class.methods.len() as u128;
    }
    total
}

/// Writes the files under a root and prints a line.
fn write_out<H: Host>(
    alloc: Global,
    host: &mut H,
    root: &str,
    files: &[NamedFile],
    line: &[u8],
) -> Result<(), Status>
    ensures not_usage { ¬ IsErrOf result Status.Usage }
    ensures not_absent { (name : Bytes) → ¬ IsErrOf result (Status.Absent name) }
    ensures fault { (call : HostCall)
        → IsErrOf result (Status.HostFault call)
        → Rose (H.faults host.old call) (H.faults host.new call) }
    ensures counts { (call : HostCall)
        → NeverFalls (H.faults host.old call) (H.faults host.new call) }
    ensures left { IsTrue H.tells
        → LeavesWritten root.now files.now line.now (H.file host.old) (H.file host.new)
        (H.printed host.old) (H.printed host.new) (ending (ended result)) }
{
    match write_files(alloc, host, root, files) {
        Ok(()) => finish(alloc, host, line),
        Err(HostFail::Failed) => Err(Status::HostFault(HostCall::Write)),
        Err(HostFail::NoMemory) => Err(Status::NoMemory),
        Err(HostFail::Absent) => unreachable!(),
    }
}

/// Shows a note, and then prints the last lines of a command that was done.
fn finish_noted<H: Host>(
    alloc: Global,
    host: &mut H,
    note: Result<String, NoMemory>,
    text: &[u8],
) -> Result<(), Status>
    ensures not_usage { ¬ IsErrOf result Status.Usage }
    ensures not_absent { (name : Bytes) → ¬ IsErrOf result (Status.Absent name) }
    ensures fault { (call : HostCall)
        → IsErrOf result (Status.HostFault call)
        → Rose (H.faults host.old call) (H.faults host.new call) }
    ensures counts { CountsOnly HostCall.Print (H.faults host.old) (H.faults host.new) }
    ensures left { IsTrue H.tells
        → LeavesPrinted text.now (H.file host.old) (H.file host.new) (H.printed host.old)
        (H.printed host.new) (ending (ended result)) }
{
    show(host, note);
    finish(alloc, host, text)
}

/// Prints the last line of a command that was done.
pub(crate) fn finish<H: Host>(alloc: Global, host: &mut H, line: &[u8]) -> Result<(), Status>
    ensures not_usage { ¬ IsErrOf result Status.Usage }
    ensures not_absent { (name : Bytes) → ¬ IsErrOf result (Status.Absent name) }
    ensures fault { (call : HostCall)
        → IsErrOf result (Status.HostFault call)
        → Rose (H.faults host.old call) (H.faults host.new call) }
    ensures counts { CountsOnly HostCall.Print (H.faults host.old) (H.faults host.new) }
    ensures left { IsTrue H.tells
        → LeavesPrinted line.now (H.file host.old) (H.file host.new) (H.printed host.old)
        (H.printed host.new) (ending (ended result)) }
{
    match host.print(alloc, line) {
        Ok(()) => Ok(()),
        Err(HostFail::Failed) => Err(Status::HostFault(HostCall::Print)),
        Err(HostFail::NoMemory) => Err(Status::NoMemory),
        Err(HostFail::Absent) => unreachable!(),
    }
}
