//! The regular files below a folder.
ghost use Rattle.std.specs.Prelude.{◌≡◌, ◌<◌, ◌≤◌, ◌↔◌, length, vec_len, IfOk, IsTrue, string_bytes};
ghost use Rattle.host_tree.specs.Paths.{path_below};

use crate::file_name::{FileName, FileNameList};
use std::alloc::{AllocError, Global};
use std::fs::DirEntry;
use std::io::ErrorKind;
use std::rt::Files;
use std::{fs, io};

/// How many entries a walk may meet.
const MOST_ENTRIES: u64 = 1_000_000;

/// A walk over a folder and those below it: how many names are wanted, the folders that are still to
/// be entered, the names found, how many entries were met and how many of them were symbolic links, and
/// whether the root is there.
#[derive(Drop)]
struct Walk {
    alloc: Global,
    most: u64,
    folders: Vec<String>,
    names: Vec<FileName>,
    entries: u64,
    links: u64,
    is_there: bool,
}

/// What a walk found.
#[derive(Drop)]
pub struct Listing {
    /// The names of the regular files, relative to the root.
    pub names: FileNameList,
    /// How many symbolic links were passed over.
    pub links: u64,
    /// Whether the root is there.
    pub is_there: bool,
}

/// The names of the regular files below a folder, relative to it, `most` of them where they are
/// more. A folder that is not there has none. Symbolic links below it are not followed.
pub fn list_files<R: Files + AllocGlobal + Clone + Drop>(
    rt: &R,
    alloc: Global,
    root: &str,
    most: u64,
) -> io::Result<Listing>
    ensures { IfOk result (λ listing. length listing.names ≤ most) }
{
    let mut walk = Walk::from_root(alloc, most)?;
    // A turn for the root, one for each folder that is met, and one that finds no folder left.
    for _ in 0..MOST_ENTRIES + 2 {
        match walk.next_folder() {
            Some(folder) => walk.enter(rt, root, folder.as_str())?,
            None => {
                return Ok(Listing {
                    names: FileNameList::from_vec(walk.names),
                    links: walk.links,
                    is_there: walk.is_there,
                });
            }
        }
    }
    Err(too_many_entries())
}

/// The path of a name below a folder.
pub fn path_below(alloc: Global, folder: &str, name: &str) -> Result<String, AllocError>
    ensures { IfOk result (λ path. string_bytes path ≡ path_below folder.now name.now) }
{
    if folder.is_empty() {
        return String::from_str(alloc, name);
    }
    let mut path = String::from_str(alloc, folder)?;
    path.push('/')?;
    path.push_str(name)?;
    Ok(path)
}

fn too_many_entries() -> io::Error {
    io::Error::new(ErrorKind::Other, "the folder has too many entries")
}

impl Walk {
    /// A walk that is to enter the root.
    fn from_root(alloc: Global, most: u64) -> Result<Self, AllocError>
        ensures { IfOk result (λ walk. (walk.most ≡ most) × (vec_len walk.names ≡ 0)) }
    {
        let mut folders = Vec::new(alloc);
        folders.push(String::new(alloc))?;
        Ok(Walk {
            alloc,
            most,
            folders,
            names: Vec::new(alloc),
            entries: 0,
            links: 0,
            is_there: true,
        })
    }

    /// Whether it has as many names as are wanted.
    fn is_full(&self) -> bool
        ensures { IsTrue result ↔ (self.now.most ≤ vec_len self.now.names) }
    {
        self.names.len() as u64 >= self.most
    }

    /// The next folder to enter, while more names are wanted.
    fn next_folder(&mut self) -> Option<String>
        ensures { self.new ≡ record self.old { folders = self.new.folders } }
    {
        if self.is_full() {
            None
        } else {
            self.folders.pop()
        }
    }

    /// Goes over the entries of a folder.
    fn enter<R: Files + AllocGlobal + Clone + Drop>(
        &mut self,
        rt: &R,
        root: &str,
        folder: &str,
    ) -> io::Result<()>
        requires { vec_len self.old.names ≤ self.old.most }
        ensures most { self.new.most ≡ self.old.most }
        ensures bound { vec_len self.new.names ≤ self.new.most }
    {
        let path = path_below(self.alloc, root, folder)?;
        let path = if path.is_empty() { "." } else { path.as_str() };
        let entries = match fs::read_dir(rt, path) {
            Ok(entries) => entries,
            Err(error) if folder.is_empty() && error.kind() == ErrorKind::NotFound => {
                self.is_there = false;
                return Ok(());
            }
            Err(error) => return Err(error),
        };
        for entry in entries {
            if self.is_full() {
                break;
            }
            self.meet(folder, &entry?)?;
        }
        Ok(())
    }

    /// Keeps the name of a file, or of a folder that is to be entered.
    fn meet<R: Files + Drop>(&mut self, folder: &str, entry: &DirEntry<R>) -> io::Result<()>
        requires { vec_len self.old.names < self.old.most }
        ensures most { self.new.most ≡ self.old.most }
        ensures bound { vec_len self.new.names ≤ self.new.most }
    {
        if self.entries >= MOST_ENTRIES {
            return Err(too_many_entries());
        }
        self.entries += 1;
        let kind = entry.file_type()?;
        let name = path_below(self.alloc, folder, entry.file_name())?;
        if kind.is_dir() {
            self.folders.push(name)?;
        } else if kind.is_file() {
            self.names.push(FileName::new(name))?;
        } else if kind.is_symlink() {
            self.links = self.links.saturating_add(1);
        }
        Ok(())
    }
}
