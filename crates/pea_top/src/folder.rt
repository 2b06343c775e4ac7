//! The files of a folder in memory.
ghost use Rattle.std.specs.Prelude.{◌≡◌, IfOk};
ghost use Rattle.pea_top.specs.Folders.{names_class_file};

use class_model::{ByteList, NoMemory};
use host_tree::FileName;
use std::alloc::Global;

/// A file with its name.
#[derive(Drop)]
pub struct NamedFile {
    pub name: FileName,
    pub bytes: ByteList,
}

/// Whether a name is that of a class file.
pub(crate) fn is_class_file(name: &FileName) -> bool
    ensures { result ≡ names_class_file name.now }
{
    name.as_str().as_bytes().ends_with(b".class")
}

/// The name of a file.
pub(crate) fn file_name(alloc: Global, name: &str) -> Result<FileName, NoMemory>
    ensures { IfOk result (λ file. file ≡ name.now) }
{
    Ok(FileName::new(String::from_str(alloc, name)?))
}
