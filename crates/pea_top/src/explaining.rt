//! What the user is shown beside what is printed: why a command is refused, and what may be a mistake.
ghost use Rattle.std.specs.Prelude.{◌≡◌, IsTrue};
ghost use Rattle.class_tree.specs.Headers.{headers_of};
ghost use Rattle.host_tree.specs.declared.call.HostCall.{HostCall};
ghost use Rattle.host_tree.specs.Host.{SameFiles};
ghost use Rattle.member_link.specs.Linked.{IsLinked};

use crate::folder::{NamedFile, is_class_file};
use crate::linking::LinkStop;
use crate::listing::ListStop;
use crate::progress::show_linking;
use crate::reading::{Input, ReadStop};
use crate::script::ScriptStop;
use class_bytes::read_class;
use class_model::{NoMemory, Text};
use class_tree::{ClassFileList, LinkFault, LinkRule, Tree};
use explain::{
    Folders, Outlines, Side, class_counts, explain_absent, explain_hierarchy, explain_line,
    explain_links, explain_malformed, explain_no_file, explain_usage, explain_verification,
    explain_version,
};
use host_tree::Host;
use std::alloc::Global;
use type_rules::VerifyFault;

/// Shows lines, where there was memory for them.
pub(crate) fn show<H: Host>(host: &mut H, lines: Result<String, NoMemory>)
    ensures files { IsTrue H.tells → SameFiles (H.file host.old) (H.file host.new) }
    ensures printed { IsTrue H.tells → H.printed host.new ≡ H.printed host.old }
    ensures counts { (call : HostCall) → H.faults host.new call ≡ H.faults host.old call }
{
    if let Ok(lines) = lines {
        host.explain(lines.as_bytes());
    }
}

/// Explains what is wrong with words that are no command, and how the program is called.
pub(crate) fn explain_words<H: Host>(alloc: Global, host: &mut H, words: &[String])
    ensures files { IsTrue H.tells → SameFiles (H.file host.old) (H.file host.new) }
    ensures printed { IsTrue H.tells → H.printed host.new ≡ H.printed host.old }
    ensures counts { (call : HostCall) → H.faults host.new call ≡ H.faults host.old call }
{
    show(host, explain_usage(alloc, words));
}

/// Notes where the input or the library has no class files, and shows that they are about to be linked.
pub(crate) fn note_input<H: Host>(alloc: Global, host: &mut H, input: &Input)
    ensures files { IsTrue H.tells → SameFiles (H.file host.old) (H.file host.new) }
    ensures printed { IsTrue H.tells → H.printed host.new ≡ H.printed host.old }
    ensures counts { (call : HostCall) → H.faults host.new call ≡ H.faults host.old call }
{
    show(
        host,
        class_counts(
            alloc,
            input.files.len(),
            input.classes.len(),
            input.headers.len(),
        ),
    );
    show_linking(host, input);
}

/// Explains why a file is refused.
pub(crate) fn explain_reading<H: Host>(alloc: Global, host: &mut H, stop: &ReadStop)
    ensures files { IsTrue H.tells → SameFiles (H.file host.old) (H.file host.new) }
    ensures printed { IsTrue H.tells → H.printed host.new ≡ H.printed host.old }
    ensures counts { (call : HostCall) → H.faults host.new call ≡ H.faults host.old call }
{
    match stop {
        ReadStop::Malformed {
            name,
            at,
            rule,
            file,
        } => {
            let bytes = file.bytes.as_slice();
            let lines = explain_malformed(alloc, file.side, name.as_str(), bytes, *at, *rule);
            show(host, lines);
        }
        ReadStop::Version {
            name,
            major,
            minor,
            side,
        } => show(
            host,
            explain_version(alloc, *side, name.as_str(), *major, *minor),
        ),
        // the host has explained it, or there is no memory for lines
        ReadStop::Fault(_) | ReadStop::NoMemory => {}
    }
}

/// Explains why a script is not read.
pub(crate) fn explain_script<H: Host>(alloc: Global, host: &mut H, stop: &ScriptStop)
    ensures files { IsTrue H.tells → SameFiles (H.file host.old) (H.file host.new) }
    ensures printed { IsTrue H.tells → H.printed host.new ≡ H.printed host.old }
    ensures counts { (call : HostCall) → H.faults host.new call ≡ H.faults host.old call }
{
    match stop {
        ScriptStop::Absent { name } => show(host, explain_absent(alloc, name.as_str())),
        ScriptStop::Outside { line, bytes } => {
            show(host, explain_line(alloc, bytes.as_slice(), *line));
        }
        // the host has explained it, or there is no memory for lines
        ScriptStop::Fault | ScriptStop::NoMemory => {}
    }
}

/// Explains why a file of a folder is not listed.
pub(crate) fn explain_listing<H: Host>(alloc: Global, host: &mut H, folder: &str, stop: &ListStop)
    ensures files { IsTrue H.tells → SameFiles (H.file host.old) (H.file host.new) }
    ensures printed { IsTrue H.tells → H.printed host.new ≡ H.printed host.old }
    ensures counts { (call : HostCall) → H.faults host.new call ≡ H.faults host.old call }
{
    match stop {
        ListStop::Absent { name } => show(host, explain_no_file(alloc, folder, name.as_str())),
        ListStop::Malformed {
            name,
            at,
            rule,
            bytes,
        } => {
            let bytes = bytes.as_slice();
            let lines = explain_malformed(alloc, Side::Input, name.as_str(), bytes, *at, *rule);
            show(host, lines);
        }
        ListStop::Version { name, major, minor } => show(
            host,
            explain_version(alloc, Side::Input, name.as_str(), *major, *minor),
        ),
        // the host has explained it, or there is no memory for lines
        ListStop::Fault | ListStop::NoMemory => {}
    }
}

/// Explains why class files are not linked.
pub(crate) fn explain_linking<H: Host>(
    alloc: Global,
    host: &mut H,
    files: &[NamedFile],
    library: &Result<Outlines, NoMemory>,
    stop: &LinkStop,
)
    ensures files { IsTrue H.tells → SameFiles (H.file host.old) (H.file host.new) }
    ensures printed { IsTrue H.tells → H.printed host.new ≡ H.printed host.old }
    ensures counts { (call : HostCall) → H.faults host.new call ≡ H.faults host.old call }
{
    show(host, lines_of_linking(alloc, files, library, stop));
}

fn lines_of_linking(
    alloc: Global,
    files: &[NamedFile],
    library: &Result<Outlines, NoMemory>,
    stop: &LinkStop,
) -> Result<String, NoMemory> {
    match &stop.fault {
        LinkFault::Unlinked {
            class,
            member,
            rule,
        } => match &stop.tree {
            Some(tree) => explain_links(alloc, tree, class, member, *rule),
            None => lines_of_hierarchy(alloc, files, library, class, *rule),
        },
        LinkFault::NoMemory => Err(NoMemory),
    }
}

// The lines of a rule of the hierarchy.
fn lines_of_hierarchy(
    alloc: Global,
    files: &[NamedFile],
    library: &Result<Outlines, NoMemory>,
    class: &Text,
    rule: LinkRule,
) -> Result<String, NoMemory> {
    match library {
        Ok(library) => {
            let (input, names) = class_files(alloc, files)?;
            let folders = Folders {
                input: input.as_slice(),
                names: names.as_slice(),
                library,
            };
            explain_hierarchy(alloc, &folders, class, rule)
        }
        Err(NoMemory) => Err(NoMemory),
    }
}

/// The class files among files that were read, and the names of their files.
fn class_files(
    alloc: Global,
    files: &[NamedFile],
) -> Result<(ClassFileList, Vec<String>), NoMemory> {
    let mut names = Vec::new(alloc);
    let mut classes = ClassFileList::new(alloc);
    for file in files {
        if is_class_file(&file.name) {
            if let Ok(class) = read_class(alloc, file.bytes.as_slice()) {
                classes.push(class)?;
                names.push(String::from_str(alloc, file.name.as_str())?)?;
            }
        }
    }
    Ok((classes, names))
}

/// Explains why a method does not verify.
pub(crate) fn explain_verifying<H: Host>(
    alloc: Global,
    host: &mut H,
    tree: &Tree,
    fault: &VerifyFault,
)
    requires { IsLinked tree.now }
    ensures files { IsTrue H.tells → SameFiles (H.file host.old) (H.file host.new) }
    ensures printed { IsTrue H.tells → H.printed host.new ≡ H.printed host.old }
    ensures counts { (call : HostCall) → H.faults host.new call ≡ H.faults host.old call }
{
    show(host, lines_of_verifying(alloc, tree, fault));
}

fn lines_of_verifying(alloc: Global, tree: &Tree, fault: &VerifyFault) -> Result<String, NoMemory>
    requires { IsLinked tree.now }
{
    match fault {
        VerifyFault::Unverified {
            class,
            method,
            offset,
            rule,
        } => explain_verification(alloc, tree, class, method, *offset, *rule),
        VerifyFault::NoMemory => Err(NoMemory),
    }
}
