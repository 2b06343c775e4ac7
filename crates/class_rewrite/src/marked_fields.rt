//! The fields of a folder whose flags are cleared.
ghost use Rattle.std.specs.Prelude.{◌≡◌, ◌<◌, ℕ, IfOk, Some, false, get_or, length, slice_get, zero};
ghost use Rattle.class_model.specs.declared.class_file.Field.{Field};
ghost use Rattle.class_rewrite.specs.Inner.Marking.{AreFieldsMarked, IsListed, MarksFields, NoneMarked, cleared_flags};
ghost use Rattle.class_rewrite.specs.declared.outcome.FieldAt.{FieldAt};
ghost use Rattle.member_link.specs.Machine.Replaced.{map_numbered, without_flags};

use crate::marks::MarkList;
use crate::outcome::FieldAt;
use class_model::{ACC_FINAL, ACC_PRIVATE, Field, FieldList, ListOf, NoMemory};
use class_tree::Tree;
use std::alloc::Global;

/// Marks of fields, by the number of their class.
pub(crate) type FieldMarks = Vec<MarkList>;

/// The marks of these fields.
pub(crate) fn marked_fields(
    alloc: Global,
    tree: &Tree,
    fields: &[FieldAt],
) -> Result<FieldMarks, NoMemory>
    ensures { IfOk result
        (λ rows. AreFieldsMarked tree.now.folder (IsListed fields.now) rows.items) }
{
    let mut rows = unmarked_fields(alloc, tree)?;
    mark_fields(fields, &mut rows);
    Ok(rows)
}

// No field is marked.
fn unmarked_fields(alloc: Global, tree: &Tree) -> Result<FieldMarks, NoMemory>
    ensures { IfOk result (λ rows. NoneMarked tree.now.folder rows.items) }
{
    let mut rows = Vec::new(alloc);
    for class in tree.folder().as_slice() {
        rows.push(MarkList::new(alloc, class.fields.len())?)?;
    }
    Ok(rows)
}

// Marks these fields.
fn mark_fields(fields: &[FieldAt], rows: &mut FieldMarks)
    ensures { MarksFields (IsListed fields.now) rows.old.items rows.new.items }
{
    for place in 0..fields.len() {
        mark_listed(fields, place, rows);
    }
}

// Marks the one at a place.
fn mark_listed(fields: &[FieldAt], place: usize, rows: &mut FieldMarks)
    requires { place < length fields.now }
    ensures { (one : FieldAt)
        → slice_get fields.now place ≡ Some one
        → MarksFields (λ class number. (class ≡ one.class) × (number ≡ one.field))
        rows.old.items rows.new.items }
{
    let Some(at) = fields.get(place) else {
        unreachable!()
    };
    mark_field(*at, rows);
}

// Marks a field.
fn mark_field(at: FieldAt, rows: &mut FieldMarks)
    ensures { MarksFields (λ class number. (class ≡ at.class) × (number ≡ at.field))
        rows.old.items rows.new.items }
{
    if at.class < rows.len() {
        rows[at.class].mark(at.field);
    }
}

/// The fields of a class, where final is cleared of those that are marked first, and private of those that are marked then.
pub(crate) fn cleared_fields(
    alloc: Global,
    fields: &[Field],
    finals: &MarkList,
    privates: &MarkList,
) -> Result<FieldList, NoMemory>
    ensures { IfOk result (λ cleared. cleared
        ≡ map_numbered (λ (number : ℕ) (field : Field). record field {
          flags = without_flags field.flags
              (cleared_flags (get_or finals.now number false) (get_or privates.now number false));
        }) zero fields.now) }
{
    let mut cleared = ListOf::new(alloc);
    for (number, field) in fields.iter().enumerate() {
        cleared.push(cleared_field(alloc, field, finals.has(number), privates.has(number))?)?;
    }
    Ok(cleared)
}

// A field without these flags.
fn cleared_field(
    alloc: Global,
    field: &Field,
    is_final: bool,
    is_private: bool,
) -> Result<Field, NoMemory>
    ensures { IfOk result (λ cleared. cleared ≡ record field.now {
      flags = without_flags field.now.flags (cleared_flags is_final is_private);
    }) }
{
    let mut cleared = field.copy(alloc)?;
    cleared.flags = without(field.flags, is_final, is_private);
    Ok(cleared)
}

// Flags without these.
fn without(flags: u16, is_final: bool, is_private: bool) -> u16
    ensures { result ≡ without_flags flags (cleared_flags is_final is_private) }
{
    let from_final = if is_final { ACC_FINAL } else { 0 };
    let from_private = if is_private { ACC_PRIVATE } else { 0 };
    flags - (flags & ((from_final + from_private) & (ACC_PRIVATE + ACC_FINAL)))
}
