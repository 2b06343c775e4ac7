//! Method handles that make objects (JVM Specification SE 8, 4.4.8).
ghost use Rattle.std.specs.Prelude.{◌≡◌};
ghost use Rattle.std.specs.List.{list_any};
ghost use Rattle.std.specs.Option.{option_copied};
ghost use Rattle.class_model.specs.Pool.{constant_at};
ghost use Rattle.member_link.specs.Machine.Acting.{is_handled};
ghost use Rattle.member_link.specs.Machine.Programs.{Program};
ghost use Rattle.member_link.specs.References.{reference_at};
ghost use Rattle.member_link.specs.Signatures.{reference_of};
ghost use Rattle.member_link.specs.TreePrograms.{IsProgram};
ghost use Rattle.machine_run.specs.Inner.ActWords.{has_maker, is_initialiser, is_text, makes_object};

use class_model::{ClassFile, Const, INIT, Pool, Text};
use class_tree::Tree;

// The kind of a method handle that makes an object.
const NEW_INVOKE_SPECIAL: u8 = 8;

/// Whether a class of the folder has a method handle that makes an object by the instance initialiser of a class with a descriptor.
/// It does not allocate.
pub(crate) fn is_handled(tree: &Tree, class: &Text, desc: &Text) -> bool
    ensures { (P : Program) → IsProgram tree.now P → result ≡ is_handled P class.now desc.now }
{
    has_maker_in(tree.folder().as_slice(), class, desc)
}

// Whether a class file has such a handle.
fn has_maker_in(files: &[ClassFile], class: &Text, desc: &Text) -> bool
    ensures { result ≡ list_any (has_maker class.now desc.now) files.now }
{
    let mut rest = files;
    while let Some((file, more)) = rest.split_first() {
        if has_maker(&file.pool, class, desc) {
            return true;
        }
        rest = more;
    }
    false
}

// Whether a pool has such a handle.
fn has_maker(pool: &Pool, class: &Text, desc: &Text) -> bool
    ensures { result ≡ list_any (makes_object pool.now class.now desc.now) pool.now }
{
    for index in 0..pool.count() {
        if makes_object(pool, index, class, desc) {
            return true;
        }
    }
    false
}

// Whether the constant at an index is such a handle.
fn makes_object(pool: &Pool, index: u16, class: &Text, desc: &Text) -> bool
    ensures { result ≡ makes_object pool.now class.now desc.now (constant_at pool.now index) }
{
    match pool.get(index) {
        Some(Const::MethodHandle(kind, reference)) => {
            NEW_INVOKE_SPECIAL == *kind && is_initialiser(pool, *reference, class, desc)
        }
        _ => false,
    }
}

// Whether the constant at an index refers to the instance initialiser of a class with a descriptor.
fn is_initialiser(pool: &Pool, index: u16, class: &Text, desc: &Text) -> bool
    ensures { result
        ≡ is_initialiser class.now desc.now (reference_of pool.now (constant_at pool.now index)) }
{
    match pool.get(index) {
        Some(
            Const::Fieldref(named, member)
            | Const::Methodref(named, member)
            | Const::InterfaceMethodref(named, member),
        ) => is_initialiser_at(pool, *named, *member, class, desc),
        _ => false,
    }
}

// Whether a class index and a NameAndType index name it.
fn is_initialiser_at(pool: &Pool, named: u16, member: u16, class: &Text, desc: &Text) -> bool
    ensures { result
        ≡ is_initialiser class.now desc.now (reference_at pool.now named member) }
{
    match pool.name_and_type(member) {
        Some((name, descriptor)) => {
            is_text(class.bytes(), pool.class_name(named))
                && is_text(INIT, pool.utf8(name))
                && is_text(desc.bytes(), pool.utf8(descriptor))
        }
        None => false,
    }
}

// Whether a text that may be there is this one.
fn is_text(text: &[u8], found: Option<&Text>) -> bool
    ensures { result ≡ is_text text.now (option_copied found.entry) }
{
    match found {
        Some(found) => text == found.bytes(),
        None => false,
    }
}
