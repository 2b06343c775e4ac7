//! The fields of objects.
ghost use Rattle.std.specs.Prelude.{◌≡◌, ◌++◌, map, IfOk, OnOk};
ghost use Rattle.class_tree.specs.Headers.{IsThere, headers_of};
ghost use Rattle.class_tree.specs.Layouts.{own_fields};
ghost use Rattle.field_constructors.specs.Constructors.{field_descs};
ghost use Rattle.field_constructors.specs.Inner.FieldWords.{instance_fields_of};

use crate::folder_numbers::folder_number;
use class_model::{ACC_STATIC, Header, NoMemory, Text, has};
use class_tree::{Place, Tree, a_tree_is_a_hierarchy, chain};
use std::alloc::Global;

/// The descriptors of the fields of an object of a class, those of the highest class first.
///
/// # Errors
/// `NoMemory`, where memory runs out.
pub fn field_texts(alloc: Global, tree: &Tree, class: &Text) -> Result<Vec<Text>, NoMemory>
    requires { IsThere (headers_of tree.now) class.now }
    ensures { IfOk result (λ fields. fields.items ≡ field_descs (headers_of tree.now) class.now) }
{
    a_tree_is_a_hierarchy(tree);
    let upwards = chain(alloc, tree, class)?;
    let mut fields = Vec::new(alloc);
    let mut left = upwards.len();
    while left > 0 {
        left -= 1;
        add_own(tree, &upwards.as_slice()[left], &mut fields)?;
    }
    Ok(fields)
}

// Adds the descriptors of the instance fields that a class declares.
fn add_own(tree: &Tree, class: &Text, fields: &mut Vec<Text>) -> Result<(), NoMemory>
    ensures { OnOk result (fields.new.items
        ≡ fields.old.items ++ map (λ field. field.desc) (own_fields (headers_of tree.now) class.now)) }
{
    a_tree_is_a_hierarchy(tree);
    let Some(number) = folder_number(tree, class) else {
        return Ok(());
    };
    match tree.header(Place::Folder(number)) {
        Some(header) => add_instance_fields(header, fields),
        None => Ok(()),
    }
}

// Adds the descriptors of the instance fields of a header.
fn add_instance_fields(header: &Header, fields: &mut Vec<Text>) -> Result<(), NoMemory>
    ensures { OnOk result (fields.new.items
        ≡ fields.old.items ++ map (λ field. field.desc) (instance_fields_of header.now)) }
{
    for field in header.fields.as_slice() {
        if !has(field.flags, ACC_STATIC) {
            fields.push(field.desc.copy()?)?;
        }
    }
    Ok(())
}
