//! Prepared methods, each at the number of its class and its own.
ghost use Rattle.std.specs.Prelude.{◌≡◌, ◌<◌, length};
ghost use Rattle.machine_code.specs.Inner.PreparedTables.{HasOnly, IsPut, IsPutIn, KeepsOnly, slot_at, slot_in};

use crate::prepared_method::PreparedMethod;
use class_model::{MethodAt, NoMemory};
use std::alloc::Global;

/// The methods of one class; of one that is taken out or was never prepared there is none.
pub(crate) type Slots = Vec<Option<Box<PreparedMethod>>>;

/// Takes a method out.
pub(crate) fn take_out(table: &mut Vec<Slots>, at: MethodAt) -> Option<Box<PreparedMethod>>
    ensures taken { result ≡ slot_at table.old.items at }
    ensures rest { KeepsOnly table.old.items table.new.items }
{
    if at.class < table.len() {
        take_from(&mut table[at.class], at.method)
    } else {
        None
    }
}

// Takes the method of a number out.
fn take_from(slots: &mut Slots, method: usize) -> Option<Box<PreparedMethod>>
    ensures taken { result ≡ slot_in slots.old.items method }
    ensures rest { HasOnly slots.old.items slots.new.items }
{
    if method < slots.len() {
        slots[method].take()
    } else {
        None
    }
}

/// Puts a method in, where there is room for it. It does not allocate.
pub(crate) fn put_in(table: &mut Vec<Slots>, at: MethodAt, method: Box<PreparedMethod>)
    ensures { IsPutIn table.old.items table.new.items at method }
{
    if at.class < table.len() {
        put_at(&mut table[at.class], at.method, method);
    }
}

// Puts the method of a number in.
fn put_at(slots: &mut Slots, number: usize, method: Box<PreparedMethod>)
    ensures { IsPut slots.old.items slots.new.items number method }
{
    if number < slots.len() {
        slots[number] = Some(method);
    }
}

/// Makes room for a method.
///
/// # Errors
/// `NoMemory`, where memory runs out.
pub(crate) fn make_room(alloc: Global, table: &mut Vec<Slots>, at: MethodAt) -> Result<(), NoMemory>
    ensures { KeepsOnly table.old.items table.new.items }
{
    add_classes(alloc, table, at.class)?;
    add_methods_of(table, at)
}

// Makes room for a method of a class that is there.
fn add_methods_of(table: &mut Vec<Slots>, at: MethodAt) -> Result<(), NoMemory>
    ensures { KeepsOnly table.old.items table.new.items }
{
    if at.class < table.len() {
        add_methods(&mut table[at.class], at.method)?;
    }
    Ok(())
}

// Appends classes without methods, until there is one of this number.
fn add_classes(alloc: Global, table: &mut Vec<Slots>, class: usize) -> Result<(), NoMemory>
    ensures { KeepsOnly table.old.items table.new.items }
{
    while table.len() <= class {
        table.push(Vec::new(alloc))?;
    }
    Ok(())
}

// Appends empty slots, until there is one of this number.
fn add_methods(slots: &mut Slots, method: usize) -> Result<(), NoMemory>
    ensures { HasOnly slots.old.items slots.new.items }
{
    while slots.len() <= method {
        slots.push(None)?;
    }
    Ok(())
}
