//! The host that is the system.
ghost use Rattle.std.specs.Prelude.{◌≡◌, ℕ, ◌≢◌, [], None, false};
ghost use Rattle.host_tree.specs.declared.call.HostCall.{HostCall};
ghost use Rattle.host_tree.specs.Counts.{Rose, CountsOnly};
ghost use Rattle.host_tree.specs.Faults.{count_of};

use crate::call::{HostCall, HostFail};
use crate::faults::Faults;
use crate::file_name::FileNameList;
use crate::host::Host;
use crate::progress::{Progress, ProgressLine};
use crate::stream::{read_first, write_all};
use crate::walk::{Listing, list_files, path_below};
use class_model::ByteList;
use std::alloc::Global;
use std::fs::OpenFile;
use std::io::{ErrorKind, IsTerminal};
use std::rt::{Clock, Files};
use std::{fs, io};

/// The files of the system, and its standard output. A root is the path of a folder, and the empty
/// root is the working folder. A walk lists regular files alone, follows no symbolic link below the root, and fails behind
/// 1,000,000 entries; a file that is not found is `Absent`, and counted as a fault of reading; a write makes the folders above
/// its file. Explanations go to standard error, and so does why a call failed; one that can't be written is lost. Progress is shown there
/// in one line, where it is a terminal and the work takes longer than a second; whatever is written or printed erases the line first.
#[derive(Drop)]
pub struct RealHost<R> {
    rt: R,
    faults: Faults,
    line: ProgressLine,
}

impl<R: Files + Print + Eprint + Clock + AllocGlobal + Clone + Drop> RealHost<R> {
    /// The system, with no faults, and its standard error. The work begins now.
    pub fn new<E: IsTerminal>(rt: R, errors: &E) -> Self
        ensures { (of : HostCall) → ⟦<RealHost<R> as Host>⟧.faults result of ≡ 0 }
    {
        let line = ProgressLine::new(&rt, errors.is_terminal());
        RealHost {
            rt,
            faults: Faults::none(),
            line,
        }
    }

    /// Erases the line of progress, as the work is at its end.
    pub fn end_progress(&mut self)
        ensures { (of : HostCall)
            → ⟦<RealHost<R> as Host>⟧.faults self.new of
            ≡ ⟦<RealHost<R> as Host>⟧.faults self.old of }
    {
        self.line.erase(&self.rt);
    }

    /// Why a call failed, which is counted and explained unless memory ran out.
    fn fail(&mut self, call: HostCall, root: &str, name: &str, error: &io::Error) -> HostFail
        ensures failed { result ≡ HostFail.Failed
            → Rose (count_of self.old.faults call) (count_of self.new.faults call) }
        ensures counts { CountsOnly call (count_of self.old.faults) (count_of self.new.faults) }
        ensures not_absent { result ≢ HostFail.Absent }
    {
        if error.kind() == ErrorKind::OutOfMemory {
            return HostFail::NoMemory;
        }
        self.line.erase(&self.rt);
        explain_fault(&self.rt, call, root, name, error);
        self.faults.raise(call);
        HostFail::Failed
    }
}

/// Tells the user which call failed, of which path, and why.
fn explain_fault<R: Eprint>(rt: &R, call: HostCall, root: &str, name: &str, error: &io::Error) {
    // A path below the working folder has no root before it.
    let slash = if root.is_empty() { "" } else { "/" };
    let _ = match call {
        HostCall::List => eprintln!(rt;
            "pea: cannot list the files of the folder '{root}': {error}"
        ),
        HostCall::Read => eprintln!(rt; "pea: cannot read the file '{root}{slash}{name}': {error}"),
        HostCall::Write => eprintln!(rt;
            "pea: cannot write the file '{root}{slash}{name}': {error}"
        ),
        HostCall::Print => eprintln!(rt; "pea: cannot print to standard output: {error}"),
    };
    if call == HostCall::List && error.kind() == ErrorKind::NotADirectory {
        let _ = eprintln!(rt;
            "  it is a file; for a jar take scripts/jar.sh, or scripts/library.sh to make a library of it"
        );
    }
    if call == HostCall::List && error.kind() == ErrorKind::InvalidData {
        let _ = eprintln!(rt; "  a name of a file or folder in it is no UTF-8");
    }
}

/// Tells the user of a root that is not there, and of symbolic links that were passed over.
fn explain_listing<R: Eprint>(rt: &R, root: &str, listing: &Listing) {
    if !listing.is_there {
        let _ = eprintln!(rt;
            "pea: note: there is no folder '{root}'; it counts as one without files"
        );
    }
    let links = listing.links;
    if links > 0 {
        let _ = eprintln!(rt; "pea: note: {links} symbolic links below '{root}' were passed over");
    }
}

/// The first bytes of a file.
fn read_file<R: Files>(
    rt: &R,
    alloc: Global,
    root: &str,
    name: &str,
    most: u64,
) -> io::Result<ByteList> {
    let path = path_below(alloc, root, name)?;
    let mut file = fs::open(rt, path.as_str())?;
    let expected = file.metadata()?.len();
    read_first(&mut file, alloc, expected, most)
}

/// Makes a file, in the place of one that is there.
fn write_file<R: Files>(
    rt: &R,
    alloc: Global,
    root: &str,
    name: &str,
    bytes: &[u8],
) -> io::Result<()> {
    let path = path_below(alloc, root, name)?;
    let mut file = create(rt, path.as_str())?;
    write_all(&mut file, bytes)
}

/// Opens an empty file, and makes the folders that it is to stand in.
fn create<R: Files>(rt: &R, path: &str) -> io::Result<R::File> {
    match fs::create(rt, path) {
        Ok(file) => return Ok(file),
        Err(error) if error.kind() == ErrorKind::NotFound => {}
        Err(error) => return Err(error),
    }
    if let Some((folder, _)) = path.rsplit_once('/') {
        fs::create_dir_all(rt, folder)?;
    }
    fs::create(rt, path)
}

impl<R: Files + Print + Eprint + Clock + AllocGlobal + Clone + Drop> Host for RealHost<R> {
    ghost tells = { false };

    ghost file = { λ _ _ _. None };

    ghost printed = { λ _. [] };

    ghost faults = { λ host. count_of host.faults };

    fn list(&mut self, alloc: Global, root: &str, most: u64) -> Result<FileNameList, HostFail> {
        match list_files(&self.rt, alloc, root, most) {
            Ok(listing) => {
                self.line.erase(&self.rt);
                explain_listing(&self.rt, root, &listing);
                Ok(listing.names)
            }
            Err(error) => Err(self.fail(HostCall::List, root, "", &error)),
        }
    }

    fn read(
        &mut self,
        alloc: Global,
        root: &str,
        name: &str,
        most: u64,
    ) -> Result<ByteList, HostFail> {
        match read_file(&self.rt, alloc, root, name, most) {
            Ok(bytes) => Ok(bytes),
            Err(error) if error.kind() == ErrorKind::NotFound => {
                self.line.erase(&self.rt);
                explain_fault(&self.rt, HostCall::Read, root, name, &error);
                self.faults.raise(HostCall::Read);
                Err(HostFail::Absent)
            }
            Err(error) => Err(self.fail(HostCall::Read, root, name, &error)),
        }
    }

    fn write(
        &mut self,
        alloc: Global,
        root: &str,
        name: &str,
        bytes: &[u8],
    ) -> Result<(), HostFail> {
        self.line.erase(&self.rt);
        match write_file(&self.rt, alloc, root, name, bytes) {
            Ok(()) => Ok(()),
            Err(error) => Err(self.fail(HostCall::Write, root, name, &error)),
        }
    }

    fn print(&mut self, _alloc: Global, bytes: &[u8]) -> Result<(), HostFail> {
        self.line.erase(&self.rt);
        match write_all(&mut io::writer(&self.rt), bytes) {
            Ok(()) => Ok(()),
            Err(error) => Err(self.fail(HostCall::Print, "", "", &error)),
        }
    }

    fn explain(&mut self, bytes: &[u8]) {
        self.line.erase(&self.rt);
        if let Ok(text) = str::from_utf8(bytes) {
            let _ = self.rt.eprint(text);
        }
    }

    fn show_progress(&mut self, progress: Progress) {
        self.line.show(&self.rt, progress);
    }
}
