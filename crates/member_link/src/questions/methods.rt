//! Methods by the class that declares them (JVM Specification SE 8, 4.6).
ghost use Rattle.std.specs.Prelude.{◌≡◌, is_some};
ghost use Rattle.std.specs.List.{list_any};
ghost use Rattle.std.specs.Option.{option_copied};
ghost use Rattle.member_link.specs.Machine.Programs.{Program, code_at, has_flag, method_of, place_of_method};
ghost use Rattle.member_link.specs.Inner.QuestionWords.{file_method, is_code, runs_code};
ghost use Rattle.member_link.specs.TreePrograms.{IsProgram};

use crate::questions::members::member_named;
use crate::reference::Reference;
use class_model::{ACC_NATIVE, Attr, Method, MethodAt, has};
use class_tree::{MemberKind, Place, Tree};

/// Whether a flag is set of the method of a class; of a method that is not there none is. It does not allocate.
pub fn has_method_flag(tree: &Tree, method: &Reference, mask: u16) -> bool
    ensures { (P : Program) → IsProgram tree.now P
        → result ≡ has_flag (method_of P method.now) mask }
{
    match member_named(
        tree,
        MemberKind::Method,
        &method.class,
        &method.name,
        &method.desc,
    ) {
        Some(found) => has(found.flags, mask),
        None => false,
    }
}

/// The place of a method of the folder. It does not allocate.
pub fn place_of_method(tree: &Tree, method: &Reference) -> Option<MethodAt>
    ensures { (P : Program) → IsProgram tree.now P → result ≡ place_of_method P method.now }
{
    match tree.place(&method.class)? {
        Place::Folder(class) => {
            let number = tree.method(Place::Folder(class), &method.name, &method.desc)?;
            Some(MethodAt {
                class,
                method: number,
            })
        }
        Place::Library(_) => None,
    }
}

/// Whether a method of the folder is there, has code and is not native. It does not allocate.
pub fn has_code(tree: &Tree, at: MethodAt) -> bool
    ensures { (P : Program) → IsProgram tree.now P → result ≡ is_some (code_at P at) }
{
    match method_at(tree, at) {
        Some(method) => runs_code(method),
        None => false,
    }
}

// Whether a method is not native and has a Code attribute.
fn runs_code(method: &Method) -> bool
    ensures { result ≡ runs_code method.now }
{
    !has(method.flags, ACC_NATIVE) && has_code_attribute(method)
}

// The method at its numbers.
fn method_at(tree: &Tree, at: MethodAt) -> Option<&Method>
    ensures { option_copied result ≡ file_method tree.now at }
{
    tree.folder().get(at.class)?.methods.get(at.method)
}

// Whether a method has a Code attribute.
fn has_code_attribute(method: &Method) -> bool
    ensures { result ≡ list_any is_code method.now.attrs }
{
    method.attrs.as_slice().iter().any(|attr| is_code(attr))
}

// Whether an attribute is a Code attribute.
fn is_code(attr: &Attr) -> bool
    ensures { result ≡ is_code attr.now }
{
    matches!(attr, Attr::Code { .. })
}
