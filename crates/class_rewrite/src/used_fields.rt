//! The fields that written code reads or stores into, as far as flags of theirs are cleared for that.
ghost use Rattle.std.specs.Prelude.{◌≡◌, ◌≢◌, ◌↔◌, bytes_eq, IfOk, OnOk, IsTrue};
ghost use Rattle.std.specs.List.{list_any};
ghost use Rattle.class_model.specs.Members.{FINAL, PRIVATE, has};
ghost use Rattle.class_rewrite.specs.Inner.Meanings.{AreItemsOf, IsMeant, Meaning};
ghost use Rattle.class_rewrite.specs.Inner.Outcomes.{AreFieldsOf};
ghost use Rattle.class_rewrite.specs.Inner.UsedFields.{Adds, AreUsedFields, IsFolderField, IsOfSite, NamesFinal, NamesPrivate, OfSome, StoresFinal, UsesPrivate, instance_field_of};
ghost use Rattle.class_rewrite.specs.Inner.WrittenCodes.{AreUsed};
ghost use Rattle.class_tree.specs.Headers.{IsThere, headers_of};
ghost use Rattle.class_tree.specs.Layouts.{chain};
ghost use Rattle.class_tree.specs.Names.{object};
ghost use Rattle.plan_flow.specs.Written.Routes.{Routes};

use crate::method_laws::what_is_meant_can_be_written;
use crate::outcome::{FieldAt, FieldAtList};
use class_model::{
    ACC_FINAL, ACC_PRIVATE, ACC_STATIC, Instr, ListOf, NoMemory, Pool, Text,
    constants_compare_by_value, has,
};
use class_tree::{Place, Tree, a_tree_is_a_hierarchy, chain};
use code_drafts::Setting;
use code_layout::EmitItem;
use flow_code::Flat;
use member_link::{Found, a_look_up_finds_one_field, find_field, member_at};
use std::alloc::Global;
use type_rules::{a_grown_class_has_a_grown_header, a_grown_class_keeps_its_instructions};

/// The final fields of its sites' objects that written code stores into, and the private fields of other classes that it reads or stores into.
pub(crate) struct UsedFields {
    pub(crate) finals: FieldAtList,
    pub(crate) privates: FieldAtList,
}

// Written out: a derived drop would be spelled out, field by field, in each function that drops one, and be proved there.
impl Drop for UsedFields {
    fn drop(self) {
        let UsedFields {
            finals: _,
            privates: _,
        } = self;
    }
}

impl UsedFields {
    /// The final fields, and the private ones.
    pub(crate) fn into_parts(self) -> (FieldAtList, FieldAtList)
        ensures finals { result.0 ≡ self.finals }
        ensures privates { result.1 ≡ self.privates }
    {
        let UsedFields { finals, privates } = self;
        (finals, privates)
    }
}

// An instance field that a class of the folder declares.
#[derive(Clone, Copy)]
struct FolderField {
    at: FieldAt,
    flags: u16,
}

/// Those of emitted items, whose constants a pool has.
///
/// # Errors
/// `NoMemory`, where memory runs out.
pub(crate) fn used_fields(
    alloc: Global,
    setting: &Setting<'_>,
    pool: &Pool,
    items: &[EmitItem],
) -> Result<UsedFields, NoMemory>
    ensures { IfOk result (λ used. (m : Meaning) (routes : Routes)
        → IsMeant setting.now m
        → AreItemsOf setting.now m routes pool.now items.now
        → AreUsed setting.now m routes used.finals used.privates) }
{
    fields_of_written_code_are_those_of_its_items();
    fields_of_items(alloc, setting, pool, items)
}

// The fields that the items of written code use are those that it uses.
fn fields_of_written_code_are_those_of_its_items()
    ensures { AreUsedFields }
{
    what_is_meant_can_be_written();
    a_look_up_finds_one_field();
    constants_compare_by_value();
    a_grown_class_has_a_grown_header();
    a_grown_class_keeps_its_instructions();
}

// The fields that items use.
fn fields_of_items(
    alloc: Global,
    setting: &Setting<'_>,
    pool: &Pool,
    items: &[EmitItem],
) -> Result<UsedFields, NoMemory>
    ensures finals { IfOk result (λ used. AreFieldsOf
        (OfSome (StoresFinal setting.now.classes setting.now.flat pool.now) items.now) used.finals) }
    ensures privates { IfOk result (λ used. AreFieldsOf
        (OfSome (UsesPrivate setting.now.classes setting.now.flat pool.now) items.now)
        used.privates) }
{
    let mut used = UsedFields {
        finals: ListOf::new(alloc),
        privates: ListOf::new(alloc),
    };
    for item in items {
        note_instr(alloc, setting, pool, &item.instr, &mut used)?;
    }
    Ok(used)
}

// Notes the field that an instruction names, if it does.
fn note_instr(
    alloc: Global,
    setting: &Setting<'_>,
    pool: &Pool,
    instr: &Instr,
    used: &mut UsedFields,
) -> Result<(), NoMemory>
    ensures finals { OnOk result (Adds
        (StoresFinal setting.now.classes setting.now.flat pool.now instr.now)
        used.old.finals used.new.finals) }
    ensures privates { OnOk result (Adds
        (UsesPrivate setting.now.classes setting.now.flat pool.now instr.now)
        used.old.privates used.new.privates) }
{
    match instr {
        Instr::PutField(index) => note_field(alloc, setting, pool, *index, true, used),
        Instr::GetField(index) => note_field(alloc, setting, pool, *index, false, used),
        _ => Ok(()),
    }
}

// Notes the field that a constant names, if it is an instance field of the folder.
fn note_field(
    alloc: Global,
    setting: &Setting<'_>,
    pool: &Pool,
    index: u16,
    stored: bool,
    used: &mut UsedFields,
) -> Result<(), NoMemory>
    ensures finals { OnOk result (Adds
        (λ class number. IsTrue stored
        × NamesFinal setting.now.classes setting.now.flat pool.now index class number)
        used.old.finals used.new.finals) }
    ensures privates { OnOk result (Adds
        (NamesPrivate setting.now.classes setting.now.flat pool.now index)
        used.old.privates used.new.privates) }
{
    match field_of_folder(setting.tree(), pool, index) {
        Some(field) => {
            note_private(setting, field, &mut used.privates)?;
            note_final(alloc, setting, field, stored, &mut used.finals)
        }
        None => Ok(()),
    }
}

// Notes a private field of another class.
fn note_private(
    setting: &Setting<'_>,
    field: FolderField,
    privates: &mut FieldAtList,
) -> Result<(), NoMemory>
    ensures { OnOk result (Adds
        (λ class number. (class ≡ field.at.class) × (number ≡ field.at.field)
        × IsTrue (has field.flags PRIVATE) × (field.at.class ≢ setting.now.flat.host.class))
        privates.old privates.new) }
{
    if has(field.flags, ACC_PRIVATE) && field.at.class != setting.flat().host().class {
        privates.push(field.at)
    } else {
        Ok(())
    }
}

// Notes a final field of a site's object, if it is stored into.
fn note_final(
    alloc: Global,
    setting: &Setting<'_>,
    field: FolderField,
    stored: bool,
    finals: &mut FieldAtList,
) -> Result<(), NoMemory>
    ensures { OnOk result (Adds
        (λ class number. (class ≡ field.at.class) × (number ≡ field.at.field)
        × IsTrue stored × IsTrue (has field.flags FINAL)
        × IsOfSite setting.now.classes setting.now.flat field.at.class)
        finals.old finals.new) }
{
    if !stored || !has(field.flags, ACC_FINAL) {
        return Ok(());
    }
    if is_of_site(alloc, setting.tree(), setting.flat(), field.at.class)? {
        finals.push(field.at)
    } else {
        Ok(())
    }
}

// The instance field of the folder that a constant of a pool names.
fn field_of_folder(tree: &Tree, pool: &Pool, index: u16) -> Option<FolderField>
    ensures { IsFolderField tree.now pool.now index result }
{
    a_tree_is_a_hierarchy(tree);
    a_look_up_finds_one_field();
    let _folder = tree.folder();
    let member = member_at(pool, index)?;
    let found = find_field(tree, member.class, member.name, member.desc)?;
    match found.place {
        Place::Folder(class) => instance_field(class, found),
        Place::Library(_) => None,
    }
}

// A field that is found, if it is none of its class.
fn instance_field(class: usize, found: Found) -> Option<FolderField>
    ensures { result ≡ instance_field_of class found }
{
    if has(found.flags, ACC_STATIC) {
        return None;
    }
    Some(FolderField {
        at: FieldAt {
            class,
            field: found.member,
        },
        flags: found.flags,
    })
}

// Whether a class of the folder is in the chain of the class of a site.
fn is_of_site(alloc: Global, tree: &Tree, flat: &Flat, class: usize) -> Result<bool, NoMemory>
    ensures { IfOk result (λ is. IsTrue is ↔ IsOfSite tree.now flat.now class) }
{
    a_tree_is_a_hierarchy(tree);
    let _folder = tree.folder();
    let Some(header) = tree.header(Place::Folder(class)) else {
        return Ok(false);
    };
    for site in flat.sites().as_slice() {
        if is_on_chain(alloc, tree, &site.class, &header.name)? {
            return Ok(true);
        }
    }
    Ok(false)
}

// Whether a class is in the chain of another one.
fn is_on_chain(alloc: Global, tree: &Tree, low: &Text, name: &Text) -> Result<bool, NoMemory>
    requires there { IsThere (headers_of tree.now) name.now }
    requires other { name.now ≢ object }
    ensures { IfOk result (λ is.
        is ≡ list_any (bytes_eq name.now) (chain (headers_of tree.now) low.now)) }
{
    a_tree_is_a_hierarchy(tree);
    let Some(_place) = tree.place(low) else {
        return Ok(false);
    };
    let names = chain(alloc, tree, low)?;
    Ok(stands_in(name, names.as_slice()))
}

// Whether a name is one of these.
fn stands_in(name: &Text, names: &[Text]) -> bool
    ensures { result ≡ list_any (bytes_eq name.now) names.now }
{
    names.iter().any(|other| other.bytes() == name.bytes())
}
