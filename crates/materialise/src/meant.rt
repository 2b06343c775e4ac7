//! What constants of another class's pool mean, added to a constant pool.
ghost use Rattle.std.specs.Prelude.{[], ◌∷◌, Some, IfOk, OnOk};
ghost use Rattle.std.specs.Result.{IsErrOf};
ghost use Rattle.class_model.specs.PoolChecks.{class_at, descriptor_at, name_at, utf8_at};
ghost use Rattle.flow_code.specs.declared.reason.Reason.{Reason};
ghost use Rattle.making_code.specs.Constants.{needs_at, needs_itself, needs_of_class, needs_of_constant, needs_of_reference, needs_of_string};
ghost use Rattle.materialise.specs.Growing.{Grows, IsFull};
ghost use Rattle.materialise.specs.Indices.{IsIndexOfLast, kind_needed};
ghost use Rattle.pool_edit.specs.Edits.{Continues};

use crate::constants::{Reference, add, add_class, add_member, add_string};
use class_model::{Const, Pool, Text};
use flow_code::KeptFault;
use pool_edit::{PoolEdit, an_edit_goes_back_to_what_it_was};

/// Adds what the constant at an index of another class's pool means, with what that names. It gives its index; 0 where nothing is
/// needed, as of a constant that only stays in its own class.
///
/// # Errors
/// `Kept(PoolFull)`, exactly where it does not fit; `NoMemory`, where memory runs out. Constants may have been added then.
pub fn add_meant(pool: &mut PoolEdit, from: &Pool, index: u16) -> Result<u16, KeptFault>
    ensures ok { OnOk result (Grows pool.old (needs_at from.now index) pool.new) }
    ensures index { IfOk result (IsIndexOfLast pool.new (needs_at from.now index)) }
    ensures full { (reason : Reason)
        → IsErrOf result (KeptFault.Kept reason)
        → IsFull pool.old (needs_at from.now index) reason }
    ensures more { Continues pool.old pool.new }
{
    an_edit_goes_back_to_what_it_was();
    match from.get(index) {
        Some(constant) => add_meant_constant(pool, from, constant),
        None => Ok(0),
    }
}

// Adds what a constant of another class's pool means.
fn add_meant_constant(pool: &mut PoolEdit, from: &Pool, constant: &Const) -> Result<u16, KeptFault>
    ensures ok { OnOk result
        (Grows pool.old (needs_of_constant from.now (Some constant.now)) pool.new) }
    ensures index { IfOk result
        (IsIndexOfLast pool.new (needs_of_constant from.now (Some constant.now))) }
    ensures full { (reason : Reason)
        → IsErrOf result (KeptFault.Kept reason)
        → IsFull pool.old (needs_of_constant from.now (Some constant.now)) reason }
    ensures more { Continues pool.old pool.new }
{
    an_edit_goes_back_to_what_it_was();
    match constant {
        Const::Class(name) => add_class_of(pool, from, *name),
        Const::String(text) => add_string_of(pool, from, *text),
        Const::Fieldref(class, member) => {
            add_member_of(pool, from, Reference::Field, *class, *member)
        }
        Const::Methodref(class, member) => {
            add_member_of(pool, from, Reference::Method, *class, *member)
        }
        Const::InterfaceMethodref(class, member) => {
            add_member_of(pool, from, Reference::InterfaceMethod, *class, *member)
        }
        Const::Integer(number) => add_itself(pool, Const::Integer(*number)),
        Const::Float(bits) => add_itself(pool, Const::Float(*bits)),
        Const::Long(number) => add_itself(pool, Const::Long(*number)),
        Const::Double(bits) => add_itself(pool, Const::Double(*bits)),
        Const::Utf8(_) => Ok(0),
        Const::NameAndType(_, _) => Ok(0),
        Const::MethodHandle(_, _) => Ok(0),
        Const::MethodType(_) => Ok(0),
        Const::InvokeDynamic(_, _) => Ok(0),
    }
}

// Adds a constant that names no other one.
fn add_itself(pool: &mut PoolEdit, value: Const) -> Result<u16, KeptFault>
    ensures ok { OnOk result (Grows pool.old (needs_itself value ∷ []) pool.new) }
    ensures index { IfOk result (IsIndexOfLast pool.new (needs_itself value ∷ [])) }
    ensures full { (reason : Reason)
        → IsErrOf result (KeptFault.Kept reason)
        → IsFull pool.old (needs_itself value ∷ []) reason }
    ensures more { Continues pool.old pool.new }
{
    an_edit_goes_back_to_what_it_was();
    add(pool, value)
}

// Adds a class, by the index that another class's pool has of its name.
fn add_class_of(pool: &mut PoolEdit, from: &Pool, name: u16) -> Result<u16, KeptFault>
    ensures ok { OnOk result (Grows pool.old (needs_of_class (utf8_at from.now name)) pool.new) }
    ensures index { IfOk result (IsIndexOfLast pool.new (needs_of_class (utf8_at from.now name))) }
    ensures full { (reason : Reason)
        → IsErrOf result (KeptFault.Kept reason)
        → IsFull pool.old (needs_of_class (utf8_at from.now name)) reason }
    ensures more { Continues pool.old pool.new }
{
    an_edit_goes_back_to_what_it_was();
    match from.utf8(name) {
        Some(name) => add_class(pool, name),
        None => Ok(0),
    }
}

// Adds a string, by the index that another class's pool has of its text.
fn add_string_of(pool: &mut PoolEdit, from: &Pool, text: u16) -> Result<u16, KeptFault>
    ensures ok { OnOk result (Grows pool.old (needs_of_string (utf8_at from.now text)) pool.new) }
    ensures index { IfOk result (IsIndexOfLast pool.new (needs_of_string (utf8_at from.now text))) }
    ensures full { (reason : Reason)
        → IsErrOf result (KeptFault.Kept reason)
        → IsFull pool.old (needs_of_string (utf8_at from.now text)) reason }
    ensures more { Continues pool.old pool.new }
{
    an_edit_goes_back_to_what_it_was();
    match from.utf8(text) {
        Some(text) => add_string(pool, text),
        None => Ok(0),
    }
}

// Adds a reference to a member, by the indices that another class's pool has of its class and of its name and descriptor.
fn add_member_of(
    pool: &mut PoolEdit,
    from: &Pool,
    kind: Reference,
    class: u16,
    member: u16,
) -> Result<u16, KeptFault>
    ensures ok { OnOk result (Grows pool.old
        (needs_of_reference (kind_needed kind) (class_at from.now class)
        (name_at from.now member) (descriptor_at from.now member))
        pool.new) }
    ensures index { IfOk result (IsIndexOfLast pool.new
        (needs_of_reference (kind_needed kind) (class_at from.now class)
        (name_at from.now member) (descriptor_at from.now member))) }
    ensures full { (reason : Reason)
        → IsErrOf result (KeptFault.Kept reason)
        → IsFull pool.old
        (needs_of_reference (kind_needed kind) (class_at from.now class)
        (name_at from.now member) (descriptor_at from.now member))
        reason }
    ensures more { Continues pool.old pool.new }
{
    an_edit_goes_back_to_what_it_was();
    let Some(class) = from.class_name(class) else {
        return Ok(0);
    };
    let Some((name_index, desc_index)) = from.name_and_type(member) else {
        return Ok(0);
    };
    let Some(name) = from.utf8(name_index) else {
        return Ok(0);
    };
    let Some(desc) = from.utf8(desc_index) else {
        return Ok(0);
    };
    add_member(pool, kind, class, name, desc)
}
