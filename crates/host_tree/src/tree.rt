//! Files in memory.
ghost use Rattle.std.specs.Prelude.{◌≡◌, ℕ, List, None, Some, map, take, IfOk, OnOk, OnErr, string_bytes};
ghost use Rattle.std.specs.Option.{option_copied, option_map};
ghost use Rattle.std.specs.BTreeMap.{keys, get_by_text};
ghost use Rattle.host_tree.specs.Host.{SameFiles, SameElsewhere, IsListing};
ghost use Rattle.host_tree.specs.Tree.{tree_files};

use crate::file_name::{FileName, FileNameList};
use class_model::{ByteList, NoMemory};
use std::alloc::Global;
use std::collections::BTreeMap;

/// The bytes under each name.
type NamedFiles = BTreeMap<String, ByteList>;

/// Files by their root and name. A root with no file is as good as a root that is not there.
#[derive(Drop)]
pub struct FileTree {
    roots: BTreeMap<String, NamedFiles>,
}

impl FileTree {
    /// No files.
    pub fn new(alloc: Global) -> Self
        ensures { (root name : List ℕ) → tree_files result root name ≡ None }
    {
        FileTree {
            roots: BTreeMap::new(alloc),
        }
    }

    /// The bytes of a file.
    pub fn get(&self, root: &str, name: &str) -> Option<&[u8]>
        ensures { option_copied result ≡ tree_files self.now root.now name.now }
    {
        let files = self.roots.get(root)?;
        let bytes = files.get(name)?;
        Some(bytes.as_slice())
    }

    /// Puts a file under a name, in the place of one that is there.
    pub fn put(
        &mut self,
        alloc: Global,
        root: &str,
        name: &str,
        bytes: &[u8],
    ) -> Result<(), NoMemory>
        ensures ok { OnOk result (tree_files self.new root.now name.now ≡ Some bytes.now) }
        ensures elsewhere { SameElsewhere root.now name.now (tree_files self.old)
            (tree_files self.new) }
        ensures err { OnErr result (SameFiles (tree_files self.old) (tree_files self.new)) }
    {
        let name = String::from_str(alloc, name)?;
        let bytes = ByteList::from_vec(Vec::from_slice(alloc, bytes)?);
        match self.roots.get_mut(root) {
            Some(files) => {
                files.insert(name, bytes)?;
            }
            None => {
                let mut files = BTreeMap::new(alloc);
                files.insert(name, bytes)?;
                self.roots.insert(String::from_str(alloc, root)?, files)?;
            }
        }
        Ok(())
    }

    /// The names of a root, `most` of them where they are more.
    pub fn list(&self, alloc: Global, root: &str, most: u64) -> Result<FileNameList, NoMemory>
        ensures { IfOk result (IsListing (tree_files self.now root.now) most) }
    {
        match self.roots.get(root) {
            Some(files) => first_names(alloc, files, most),
            None => Ok(FileNameList::new(alloc)),
        }
    }
}

/// The names of a folder, `most` of them where they are more.
fn first_names(alloc: Global, files: &NamedFiles, most: u64) -> Result<FileNameList, NoMemory>
    ensures { IfOk result (IsListing (get_by_text files.now) most) }
{
    let mut names = FileNameList::new(alloc);
    let mut left = most;
    for name in files.keys() {
        if left == 0 {
            break;
        }
        left -= 1;
        names.push(FileName::new(String::from_str(alloc, name.as_str())?))?;
    }
    Ok(names)
}
