//! A host whose files are gone between their listing and their reads.
ghost use Rattle.std.specs.Prelude.{[], None, false};
ghost use Rattle.host_tree.specs.Faults.{count_of};

use class_model::ByteList;
use host_tree::{FileName, FileNameList, Host, HostFail, Progress};
use std::alloc::Global;

/// Lists one file of each root but of `empty`, and finds none, as where others change a folder. It tells nothing, and remembers whether it
/// was asked to write or to print.
#[derive(Drop)]
pub(crate) struct Vanishing {
    pub(crate) reads: u64,
    pub(crate) is_written: bool,
    pub(crate) is_printed: bool,
}

impl Host for Vanishing {
    ghost tells = { false };

    ghost file = { λ _ _ _. None };

    ghost printed = { λ _. [] };

    ghost faults = { λ host. count_of (record { list = 0; read = host.reads; write = 0; print = 0 }) };

    fn list(&mut self, alloc: Global, root: &str, _most: u64) -> Result<FileNameList, HostFail> {
        let mut names = FileNameList::new(alloc);
        if root != "empty" {
            names.push(FileName::new(String::from_str(alloc, "a.txt")?))?;
        }
        Ok(names)
    }

    fn read(
        &mut self,
        _alloc: Global,
        _root: &str,
        _name: &str,
        _most: u64,
    ) -> Result<ByteList, HostFail> {
        self.reads = self.reads.saturating_add(1);
        Err(HostFail::Absent)
    }

    fn write(
        &mut self,
        _alloc: Global,
        _root: &str,
        _name: &str,
        _bytes: &[u8],
    ) -> Result<(), HostFail> {
        self.is_written = true;
        Ok(())
    }

    fn print(&mut self, _alloc: Global, _bytes: &[u8]) -> Result<(), HostFail> {
        self.is_printed = true;
        Ok(())
    }

    fn explain(&mut self, _bytes: &[u8]) {}

    fn show_progress(&mut self, _progress: Progress) {}
}
