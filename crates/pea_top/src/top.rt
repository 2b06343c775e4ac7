//! The top call.
ghost use Rattle.std.specs.Prelude.{◌≡◌, ◌≢◌, ◌≤◌, ◌⊎◌, List, map, string_bytes, IsTrue, IsErrOf};
ghost use Rattle.std.specs.List.{AllByRecursion};
ghost use Rattle.class_tree.specs.Headers.{IsClassFile, IsLibraryClass};
ghost use Rattle.host_tree.specs.declared.call.HostCall.{HostCall};
ghost use Rattle.host_tree.specs.Host.{Bytes, Files};
ghost use Rattle.host_tree.specs.Counts.{NeverFalls, Rose, CountsOnly};
ghost use Rattle.member_link.specs.Linked.{IsLinked};
ghost use Rattle.pea_top.specs.Words.{Word, Task as grammar_task, Optimise, OnFolder, Listing, Generated, Spells, IsUsage};
ghost use Rattle.pea_top.specs.Meaning.{MeansTheSame, under_names};
ghost use Rattle.pea_top.specs.CommandView.{command_view, task_view};
ghost use Rattle.pea_top.specs.Status.{ending};
ghost use Rattle.pea_top.specs.Inner.Ended.{ended};
ghost use Rattle.pea_top.specs.Inner.Generating.{IsBounded};
ghost use Rattle.pea_top.specs.Answer.{CanDo, HasCause, IsAnswer};
ghost use Rattle.pea_top.specs.Effects.{IsWriting, WritesTask, IsOnFolder, SpellNoWrite, SpellNoFolder, Leaves};
ghost use Rattle.pea_top.specs.Inner.ReadFiles.{AreClassesOf, AreFilesFor, HasNames};
ghost use Rattle.pea_top.specs.Inner.Deciding.{AreInput, WritesFiles, IsPrepared, AreArranged, IsOutcome, IsStop};

use crate::explaining::{
    explain_linking, explain_listing, explain_reading, explain_script, explain_verifying,
    explain_words, note_input,
};
use crate::folder::NamedFile;
use crate::generating::generated_text;
use crate::laws::{words_and_files_have_one_answer, words_spell_one_command};
use crate::lines::refusal;
use crate::linking::{link, link_status};
use crate::listing::{list_file, list_status};
use crate::reading::{Input, read_input, status_of};
use crate::script::script_status;
use crate::status::Status;
use crate::verifying::{verify_for, verify_status};
use crate::words::{Command, Task, command_of};
use crate::work::{Work, carry_out, finish, work_of};
use class_model::{NoMemory, bytes_are_one_class_file};
use class_tree::{Tree, classes_of_a_tree_are_a_hierarchy};
use explain::Outlines;
use host_tree::{Host, HostFail};
use std::alloc::Global;

/// Does what the words behind the program's name ask for, on a host.
///
/// `optimise IN OUT --lib LIB` reads the folder IN and the class files of the folder LIB whole, links them and verifies
/// those of IN, and only then writes the files of IN under the same names into the folder OUT, which is not cleared, and
/// prints one line. `verify IN --lib LIB` decides the same, writes no file and prints one line. `plan IN --lib LIB` decides the same,
/// writes no file and prints what becomes of each method when IN is optimised, and why. `run IN SCRIPT --lib LIB`
/// decides the same and that the file SCRIPT is a script, runs the folder IN by it, in at most as many steps as `--steps N`
/// says or else 1,000,000, writes no file, and prints the events of the run and its end. `both` takes the same words, and prints
/// `before`, this run, `after`, and the run of the folder that `optimise` would write, which is made in memory. `list IN NAME` reads the
/// file NAME of the folder IN alone, whatever its name ends with, and prints its listing. `gen --number S --size N` reads no file: it makes
/// a folder with N methods and a script that calls them, drawn from the number S, verifies it with a library of its own, optimises it, runs it
/// before and after, in 1,000,000 steps each, and prints one line, which says whether both runs show the same.
///
/// # Errors
/// `Done` and each refusal come exactly where their clauses say, unless memory runs out or a call of the host fails. A fault of the
/// host comes only where its clause says; memory may run out at any point. A refusal prints one line.
pub fn pea<H: Host>(alloc: Global, words: &[String], host: &mut H) -> Status
    // Usage comes where the words are outside the grammar, and nowhere else.
    ensures usage { result ≡ Status.Usage → IsUsage (map string_bytes words.now) }
    ensures outside { IsUsage (map string_bytes words.now)
        → (result ≡ Status.Usage) ⊎ (result ≡ Status.NoMemory) }

    // A fault is answered only where the host's count of that kind rose in this call.
    ensures fault { (call : HostCall)
        → result ≡ Status.HostFault call
        → Rose (H.faults host.old call) (H.faults host.new call) }
    ensures counts { (call : HostCall)
        → NeverFalls (H.faults host.old call) (H.faults host.new call) }

    // Of a host that does not tell, a file is absent only where its count of reading rose.
    ensures absent { (name : Bytes)
        → result ≡ Status.Absent name
        → IsTrue H.tells ⊎ Rose (H.faults host.old HostCall.Read) (H.faults host.new HostCall.Read) }

    // Words outside the grammar list, read and write nothing; words that spell no command that writes write nothing, and words that
    // spell no command on folders list nothing.
    ensures outside_counts { IsUsage (map string_bytes words.now)
        → CountsOnly HostCall.Print (H.faults host.old) (H.faults host.new) }
    ensures write_count { SpellNoWrite (map string_bytes words.now)
        → H.faults host.new HostCall.Write ≡ H.faults host.old HostCall.Write }
    ensures list_count { SpellNoFolder (map string_bytes words.now)
        → H.faults host.new HostCall.List ≡ H.faults host.old HostCall.List }

    // Where the host tells: the cause of the status, the files that it leaves, and what was printed.
    ensures cause { IsTrue H.tells
        → HasCause (map string_bytes words.now) (H.file host.old) result }
    ensures left { IsTrue H.tells
        → Leaves (map string_bytes words.now) (H.file host.old) (H.file host.new)
        (Rose (H.faults host.old HostCall.Print) (H.faults host.new HostCall.Print))
        (H.printed host.old) (H.printed host.new) (ending result) }

    // Each answer that words and files determine is given where no list or read failed, if memory suffices; that a command is done also
    // where no write and no print failed.
    ensures answered { (answer : Status)
        → IsTrue H.tells
        → IsAnswer (map string_bytes words.now) (H.file host.old) answer
        → answer ≢ Status.Done
        → ¬ Rose (H.faults host.old HostCall.List) (H.faults host.new HostCall.List)
        → ¬ Rose (H.faults host.old HostCall.Read) (H.faults host.new HostCall.Read)
        → (result ≡ answer) ⊎ (result ≡ Status.NoMemory) }
    ensures complete { IsTrue H.tells
        → CanDo (map string_bytes words.now) (H.file host.old)
        → ((call : HostCall) → ¬ Rose (H.faults host.old call) (H.faults host.new call))
        → (result ≡ Status.Done) ⊎ (result ≡ Status.NoMemory) }

    // The headline: what was written of a folder means what was read.
    ensures meaning { (input output library : Word)
        → IsTrue H.tells
        → result ≡ Status.Done
        → Spells (OnFolder input library (Optimise output)) (map string_bytes words.now)
        → MeansTheSame (H.file host.old input) (H.file host.old library)
        (under_names (H.file host.old input) (H.file host.new output)) }
{
    words_and_files_have_one_answer();
    words_spell_one_command();
    bytes_are_one_class_file();
    classes_of_a_tree_are_a_hierarchy();
    match run(alloc, words, host) {
        Ok(()) => Status::Done,
        Err(stop) => refuse(alloc, host, stop),
    }
}

/// Does what the words ask for, up to where it stops. Of a refusal no line is printed yet.
fn run<H: Host>(alloc: Global, words: &[String], host: &mut H) -> Result<(), Status>
    ensures usage { IsErrOf result Status.Usage → IsUsage (map string_bytes words.now) }
    ensures outside { IsUsage (map string_bytes words.now)
        → IsErrOf result Status.Usage
        × ((call : HostCall) → H.faults host.new call ≡ H.faults host.old call) }
    ensures fault { (call : HostCall)
        → IsErrOf result (Status.HostFault call)
        → Rose (H.faults host.old call) (H.faults host.new call) }
    ensures counts { (call : HostCall)
        → NeverFalls (H.faults host.old call) (H.faults host.new call) }
    ensures absent { (name : Bytes)
        → IsErrOf result (Status.Absent name)
        → IsTrue H.tells ⊎ Rose (H.faults host.old HostCall.Read) (H.faults host.new HostCall.Read) }
    ensures write_count { SpellNoWrite (map string_bytes words.now)
        → H.faults host.new HostCall.Write ≡ H.faults host.old HostCall.Write }
    ensures list_count { SpellNoFolder (map string_bytes words.now)
        → H.faults host.new HostCall.List ≡ H.faults host.old HostCall.List }
    ensures stop { IsTrue H.tells
        → IsStop (map string_bytes words.now) (H.file host.old) (H.file host.new)
        (H.printed host.old) (H.printed host.new) (ended result) }
{
    match command_of(words) {
        Some(command) => perform(alloc, command, host),
        None => {
            explain_words(alloc, host, words);
            Err(Status::Usage)
        }
    }
}

/// Does what a command asks for, up to where it stops.
fn perform<H: Host>(alloc: Global, command: Command<'_>, host: &mut H) -> Result<(), Status>
    requires { IsBounded (command_view command) }
    ensures not_usage { ¬ IsErrOf result Status.Usage }
    ensures fault { (call : HostCall)
        → IsErrOf result (Status.HostFault call)
        → Rose (H.faults host.old call) (H.faults host.new call) }
    ensures counts { (call : HostCall)
        → NeverFalls (H.faults host.old call) (H.faults host.new call) }
    ensures absent { (name : Bytes)
        → IsErrOf result (Status.Absent name)
        → IsTrue H.tells ⊎ Rose (H.faults host.old HostCall.Read) (H.faults host.new HostCall.Read) }
    ensures write_count { ¬ IsWriting (command_view command.entry)
        → H.faults host.new HostCall.Write ≡ H.faults host.old HostCall.Write }
    ensures list_count { ¬ IsOnFolder (command_view command.entry)
        → H.faults host.new HostCall.List ≡ H.faults host.old HostCall.List }
    ensures stop { (words : List Word)
        → Spells (command_view command.entry) words
        → IsTrue H.tells
        → IsStop words (H.file host.old) (H.file host.new) (H.printed host.old) (H.printed host.new)
        (ended result) }
{
    match command {
        Command::OnFolder {
            input,
            library,
            task,
        } => read_folder(alloc, host, input, library, task),
        Command::Listing { input, name } => list(alloc, host, input, name),
        Command::Generated { number, size } => generated(alloc, host, number, size),
    }
}

/// Reads a file alone, and prints its listing.
fn list<H: Host>(alloc: Global, host: &mut H, input: &str, name: &str) -> Result<(), Status>
    ensures not_usage { ¬ IsErrOf result Status.Usage }
    ensures fault { (call : HostCall)
        → IsErrOf result (Status.HostFault call)
        → Rose (H.faults host.old call) (H.faults host.new call) }
    ensures counts { (call : HostCall)
        → NeverFalls (H.faults host.old call) (H.faults host.new call) }
    ensures absent { (name : Bytes)
        → IsErrOf result (Status.Absent name)
        → IsTrue H.tells ⊎ Rose (H.faults host.old HostCall.Read) (H.faults host.new HostCall.Read) }
    ensures write_count { H.faults host.new HostCall.Write ≡ H.faults host.old HostCall.Write }
    ensures list_count { H.faults host.new HostCall.List ≡ H.faults host.old HostCall.List }
    ensures stop { (words : List Word)
        → Spells (Listing input.now name.now) words
        → IsTrue H.tells
        → IsStop words (H.file host.old) (H.file host.new) (H.printed host.old) (H.printed host.new)
        (ended result) }
{
    match list_file(alloc, host, input, name) {
        Ok(text) => finish(alloc, host, text.as_slice()),
        Err(stop) => {
            explain_listing(alloc, host, input, &stop);
            Err(list_status(stop))
        }
    }
}

/// Generates work, optimises it, runs it before and after, and prints its line.
fn generated<H: Host>(alloc: Global, host: &mut H, number: u32, size: u32) -> Result<(), Status>
    requires number { number ≤ 2147483647 }
    requires size { size ≤ 1000 }
    ensures not_usage { ¬ IsErrOf result Status.Usage }
    ensures not_absent { (name : Bytes) → ¬ IsErrOf result (Status.Absent name) }
    ensures fault { (call : HostCall)
        → IsErrOf result (Status.HostFault call)
        → Rose (H.faults host.old call) (H.faults host.new call) }
    ensures counts { (call : HostCall)
        → NeverFalls (H.faults host.old call) (H.faults host.new call) }
    ensures write_count { H.faults host.new HostCall.Write ≡ H.faults host.old HostCall.Write }
    ensures list_count { H.faults host.new HostCall.List ≡ H.faults host.old HostCall.List }
    ensures stop { (words : List Word)
        → Spells (Generated number size) words
        → IsTrue H.tells
        → IsStop words (H.file host.old) (H.file host.new) (H.printed host.old) (H.printed host.new)
        (ended result) }
{
    match generated_text(alloc, number, size) {
        Ok(text) => finish(alloc, host, text.as_slice()),
        Err(NoMemory) => Err(Status::NoMemory),
    }
}

/// Reads a folder and its library whole, and goes on with them.
fn read_folder<H: Host>(
    alloc: Global,
    host: &mut H,
    input: &str,
    library: &str,
    task: Task<'_>,
) -> Result<(), Status>
    ensures not_usage { ¬ IsErrOf result Status.Usage }
    ensures fault { (call : HostCall)
        → IsErrOf result (Status.HostFault call)
        → Rose (H.faults host.old call) (H.faults host.new call) }
    ensures counts { (call : HostCall)
        → NeverFalls (H.faults host.old call) (H.faults host.new call) }
    ensures absent { (name : Bytes)
        → IsErrOf result (Status.Absent name)
        → IsTrue H.tells ⊎ Rose (H.faults host.old HostCall.Read) (H.faults host.new HostCall.Read) }
    ensures write_count { ¬ WritesTask (task_view task.entry)
        → H.faults host.new HostCall.Write ≡ H.faults host.old HostCall.Write }
    ensures stop { (words : List Word)
        → Spells (OnFolder input.now library.now (task_view task.entry)) words
        → IsTrue H.tells
        → IsStop words (H.file host.old) (H.file host.new) (H.printed host.old) (H.printed host.new)
        (ended result) }
{
    match read_input(alloc, host, input, library) {
        Ok(read) => {
            note_input(alloc, host, &read);
            decide(alloc, task, host, read)
        }
        Err(stop) => {
            explain_reading(alloc, host, &stop);
            Err(status_of(stop))
        }
    }
}

/// Makes the work of a task of what was read for it, reading its script, and goes on with it.
fn decide<H: Host>(alloc: Global, task: Task<'_>, host: &mut H, input: Input) -> Result<(), Status>
    requires classes { AllByRecursion IsClassFile input.classes }
    requires headers { AllByRecursion IsLibraryClass input.headers }
    requires pairs { AreClassesOf input.files.items input.classes }
    ensures not_usage { ¬ IsErrOf result Status.Usage }
    ensures fault { (call : HostCall)
        → IsErrOf result (Status.HostFault call)
        → Rose (H.faults host.old call) (H.faults host.new call) }
    ensures counts { (call : HostCall)
        → NeverFalls (H.faults host.old call) (H.faults host.new call) }
    ensures absent { (name : Bytes)
        → IsErrOf result (Status.Absent name)
        → IsTrue H.tells ⊎ Rose (H.faults host.old HostCall.Read) (H.faults host.new HostCall.Read) }
    ensures write_count { ¬ WritesTask (task_view task.entry)
        → H.faults host.new HostCall.Write ≡ H.faults host.old HostCall.Write }
    ensures stop { (folder library : Word) (words : List Word)
        → Spells (OnFolder folder library (task_view task.entry)) words
        → IsTrue H.tells
        → AreInput folder library (H.file host.old) input.files.items input.classes input.headers
        → IsStop words (H.file host.old) (H.file host.new) (H.printed host.old) (H.printed host.new)
        (ended result) }
{
    match work_of(alloc, task, host, &input) {
        Ok(work) => link_input(alloc, host, input, &work),
        Err(stop) => {
            explain_script(alloc, host, &stop);
            Err(script_status(stop))
        }
    }
}

/// Links what was read for a command, and goes on with the hierarchy.
fn link_input<H: Host>(
    alloc: Global,
    host: &mut H,
    input: Input,
    work: &Work<'_>,
) -> Result<(), Status>
    requires classes { AllByRecursion IsClassFile input.classes }
    requires headers { AllByRecursion IsLibraryClass input.headers }
    requires pairs { AreClassesOf input.files.items input.classes }
    requires names { HasNames work.now input.classes }
    ensures not_usage { ¬ IsErrOf result Status.Usage }
    ensures not_absent { (name : Bytes) → ¬ IsErrOf result (Status.Absent name) }
    ensures fault { (call : HostCall)
        → IsErrOf result (Status.HostFault call)
        → Rose (H.faults host.old call) (H.faults host.new call) }
    ensures counts { (call : HostCall)
        → NeverFalls (H.faults host.old call) (H.faults host.new call) }
    ensures write_count { ¬ WritesFiles work.now
        → H.faults host.new HostCall.Write ≡ H.faults host.old HostCall.Write }
    ensures stop { (folder library : Word) (task : grammar_task) (words : List Word)
        → Spells (OnFolder folder library task) words
        → IsTrue H.tells
        → IsPrepared folder library task (H.file host.old) input.files.items input.classes
        input.headers work.now
        → IsStop words (H.file host.old) (H.file host.new) (H.printed host.old) (H.printed host.new)
        (ended result) }
{
    let library = Outlines::of(alloc, input.headers.as_slice());
    match link(alloc, host, input.classes, input.headers) {
        Ok(tree) => verify(alloc, host, &tree, input.files, work),
        Err(stop) => {
            explain_linking(alloc, host, input.files.as_slice(), &library, &stop);
            Err(link_status(stop.fault))
        }
    }
}

/// Verifies a hierarchy, and only then carries the command out.
fn verify<H: Host>(
    alloc: Global,
    host: &mut H,
    tree: &Tree,
    files: Vec<NamedFile>,
    work: &Work<'_>,
) -> Result<(), Status>
    requires linked { IsLinked tree.now }
    requires files { AreFilesFor files.items tree.now work.now }
    ensures not_usage { ¬ IsErrOf result Status.Usage }
    ensures not_absent { (name : Bytes) → ¬ IsErrOf result (Status.Absent name) }
    ensures fault { (call : HostCall)
        → IsErrOf result (Status.HostFault call)
        → Rose (H.faults host.old call) (H.faults host.new call) }
    ensures counts { (call : HostCall)
        → NeverFalls (H.faults host.old call) (H.faults host.new call) }
    ensures write_count { ¬ WritesFiles work.now
        → H.faults host.new HostCall.Write ≡ H.faults host.old HostCall.Write }
    ensures stop { (folder library : Word) (task : grammar_task) (words : List Word)
        → Spells (OnFolder folder library task) words
        → IsTrue H.tells
        → AreArranged folder library task (H.file host.old) files.items tree.now work.now
        → IsStop words (H.file host.old) (H.file host.new) (H.printed host.old) (H.printed host.new)
        (ended result) }
{
    match verify_for(alloc, host, tree, work) {
        Ok(typed) => carry_out(alloc, host, tree, typed.as_ref(), files, work),
        Err(fault) => {
            explain_verifying(alloc, host, tree, &fault);
            Err(verify_status(fault))
        }
    }
}

/// The status of a command that stopped. Of a refusal its line is printed; the status stays where the print fails.
fn refuse<H: Host>(alloc: Global, host: &mut H, stop: Status) -> Status
    ensures answer { (result ≡ stop) ⊎ (result ≡ Status.NoMemory) }
    ensures counts { CountsOnly HostCall.Print (H.faults host.old) (H.faults host.new) }
    ensures outcome { (words : List Word) (old : Files) (before : Bytes)
        → IsTrue H.tells
        → IsStop words old (H.file host.old) before (H.printed host.old) stop
        → IsOutcome words old (H.file host.new)
        (Rose (H.faults host.old HostCall.Print) (H.faults host.new HostCall.Print)) before
        (H.printed host.new) result }
{
    if !stop.is_refusal() {
        return stop;
    }
    let Ok(line) = refusal(alloc, &stop) else {
        return Status::NoMemory;
    };
    match host.print(alloc, line.as_slice()) {
        Ok(()) => stop,
        Err(HostFail::Failed) => stop,
        Err(HostFail::NoMemory) => Status::NoMemory,
        Err(HostFail::Absent) => unreachable!(),
    }
}
