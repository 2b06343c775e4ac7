//! What is written of an optimised folder, and what is printed of it.
ghost use Rattle.std.specs.Prelude.{◌≡◌, IfOk, length};
ghost use Rattle.std.specs.List.{AllByRecursion};
ghost use Rattle.class_bytes.specs.Counts.{FitsCounts};
ghost use Rattle.member_link.specs.Linked.{IsLinked};
ghost use Rattle.pea_top.specs.Inner.Optimising.{AreWrittenFiles, IsOutput, IsReported, IsWrittenFile, StandsWritten};
ghost use Rattle.pea_top.specs.Inner.ReadFiles.{AreFilesOf};
ghost use Rattle.type_rules.specs.Verified.{TypesFolder};

use crate::folder::{NamedFile, is_class_file};
use crate::lines::{report_text, summary};
use class_bytes::push_class;
use class_model::{ByteList, NoMemory, Text};
use class_rewrite::{Optimised, optimise_folder, rewritten};
use class_tree::{ClassFileList, Place, Tree, a_tree_is_a_hierarchy};
use std::alloc::Global;
use type_rules::TypedFolder;
use written_files::a_class_file_fits_its_items;

/// The files that are written, and the line that sums them up.
#[derive(Drop)]
pub(crate) struct Output {
    pub files: Vec<NamedFile>,
    pub line: Vec<u8>,
}

/// Optimises a folder of these files: what is written of it. The names are those of the classes of its class files, in order.
pub(crate) fn output_of(
    alloc: Global,
    tree: &Tree,
    typed: &TypedFolder,
    files: Vec<NamedFile>,
    names: &[Text],
) -> Result<Output, NoMemory>
    requires linked { IsLinked tree.now }
    requires types { TypesFolder tree.now typed.now }
    requires files { AreFilesOf files.items tree.now names.now }
    ensures { IfOk result (IsOutput tree.now typed.now files.items) }
{
    a_class_file_fits_its_items();
    let Optimised { classes, report } = optimise_folder(alloc, tree, typed)?;
    let changed = rewritten(&report);
    let kept = report.len() - changed;
    let line = summary(alloc, files.len(), tree.folder().len(), changed, kept)?;
    let files = written_files(alloc, tree, &classes, files, names)?;
    Ok(Output { files, line })
}

/// Optimises a folder, and says what becomes of each method.
pub(crate) fn plan_text(
    alloc: Global,
    tree: &Tree,
    typed: &TypedFolder,
) -> Result<Vec<u8>, NoMemory>
    requires linked { IsLinked tree.now }
    requires types { TypesFolder tree.now typed.now }
    ensures { IfOk result (λ text. IsReported tree.now typed.now text.items) }
{
    let Optimised { report, .. } = optimise_folder(alloc, tree, typed)?;
    report_text(alloc, tree, &report)
}

// What is written of files: class files are those of the written folder.
fn written_files(
    alloc: Global,
    tree: &Tree,
    written: &ClassFileList,
    files: Vec<NamedFile>,
    names: &[Text],
) -> Result<Vec<NamedFile>, NoMemory>
    requires files { AreFilesOf files.items tree.now names.now }
    requires count { length written.now ≡ length tree.now.folder }
    requires fits { AllByRecursion FitsCounts written.now }
    ensures { IfOk result (λ outs. AreWrittenFiles tree.now written.now files.items outs.items) }
{
    a_tree_is_a_hierarchy(tree);
    let mut outs = Vec::with_capacity(alloc, files.len())?;
    let mut next = 0;
    for file in files {
        if is_class_file(&file.name) {
            outs.push(written_file(tree, written, &names[next], file)?)?;
            next += 1;
        } else {
            outs.push(file)?;
        }
    }
    Ok(outs)
}

// What is written of a class file: the class of this name in the written folder, in the memory of the one that was read.
fn written_file(
    tree: &Tree,
    written: &ClassFileList,
    name: &Text,
    file: NamedFile,
) -> Result<NamedFile, NoMemory>
    requires { StandsWritten tree.now written.now name.now file }
    ensures { IfOk result (IsWrittenFile tree.now written.now file) }
{
    let Some(Place::Folder(number)) = tree.place(name) else {
        unreachable!()
    };
    let mut bytes = file.bytes.into_vec();
    bytes.clear();
    push_class(&mut bytes, &written.as_slice()[number])?;
    Ok(NamedFile {
        name: file.name,
        bytes: ByteList::from_vec(bytes),
    })
}
