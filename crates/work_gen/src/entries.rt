//! Constants of pools as tables.
ghost use Rattle.std.specs.Prelude.{◌≡◌, ◌+◌, ◌≤◌, ◌++◌, true, length, map, IfOk, OnOk};
ghost use Rattle.std.specs.List.{list_all};
ghost use Rattle.work_gen.specs.Entries.{constant_of, entry_of, is_plain};

use class_model::{Const, NoMemory, Pool, Text};
use std::alloc::Global;

/// A constant, a Utf8 constant by its text.
#[derive(Clone, Copy)]
pub(crate) enum Entry<'a> {
    Utf8(&'a [u8]),
    Class(u16),
    NameAndType(u16, u16),
    Fieldref(u16, u16),
    Methodref(u16, u16),
}

/// Appends constants to a pool. Their texts are plain.
pub(crate) fn push_entries(
    alloc: Global,
    pool: &mut Pool,
    entries: &[Entry<'_>],
) -> Result<(), NoMemory>
    requires plain { list_all is_plain entries.now ≡ true }
    requires few { length pool.old + length entries.now ≤ 65535 }
    ensures { OnOk result (pool.new ≡ pool.old ++ map entry_of entries.now) }
{
    for entry in entries {
        pool.push(constant_of(alloc, *entry)?)?;
    }
    Ok(())
}

// The constant of an entry.
fn constant_of(alloc: Global, entry: Entry<'_>) -> Result<Const, NoMemory>
    requires { is_plain entry ≡ true }
    ensures { IfOk result (λ constant. constant ≡ constant_of entry.entry) }
{
    match entry {
        Entry::Utf8(text) => Ok(Const::Utf8(Text::of_plain(alloc, text)?)),
        Entry::Class(name) => Ok(Const::Class(name)),
        Entry::NameAndType(name, desc) => Ok(Const::NameAndType(name, desc)),
        Entry::Fieldref(class, member) => Ok(Const::Fieldref(class, member)),
        Entry::Methodref(class, member) => Ok(Const::Methodref(class, member)),
    }
}
