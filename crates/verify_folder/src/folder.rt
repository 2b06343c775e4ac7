//! A folder verifies.
ghost use Rattle.std.specs.Prelude.{◌≡◌, ◌<◌, ◌+◌, length, is_some, slice_get, Some};
ghost use Rattle.class_model.specs.MethodCode.{code_of};
ghost use Rattle.class_tree.specs.Headers.{headers_of};
ghost use Rattle.member_link.specs.Linked.{IsLinked};
ghost use Rattle.verify_folder.specs.Verifying.{FolderIsTyped, FolderVerifies, TypesFirst, AreFirstTyped, FirstVerify, FirstAreTyped};
ghost use Rattle.verify_folder.specs.Inner.Verifying.{ClassIsTyped, ClassVerifies};

use crate::method::{check_method, verify_method};
use class_model::{Attr, ClassFile, MethodAt};
use class_tree::Tree;
use std::alloc::Global;
use type_rules::{TypedClass, TypedFolder, VerifyFault, code_of};

/// Verifies each method with code of a linked folder (JVM Specification SE 8, 4.10.1): the frames that type them. There are no
/// others.
///
/// # Errors
/// `Unverified` where no frames type a method, with the first failure: class by class, in byte order of their names, and
/// method by method, as `verify_method`. `NoMemory`, where memory runs out.
pub fn verify_all(alloc: Global, tree: &Tree) -> Result<TypedFolder, VerifyFault>
    requires { IsLinked tree.now }
    ensures { FolderVerifies tree.now result }
{
    let mut typed = TypedFolder::new(alloc);
    for place in 0..tree.folder().len() {
        verify_next(alloc, tree, place, &mut typed)?;
    }
    Ok(typed)
}

/// Verifies each method with code of a linked folder, as `verify_all`, and keeps no frames.
///
/// # Errors
/// As `verify_all`.
pub fn check_all(alloc: Global, tree: &Tree) -> Result<(), VerifyFault>
    requires { IsLinked tree.now }
    ensures { FolderIsTyped tree.now result }
{
    for place in 0..tree.folder().len() {
        check_next(alloc, tree, place)?;
    }
    Ok(())
}

/// Verifies one class of a linked folder, behind those before it, and appends its frames to theirs: a step of `verify_all`, for a
/// caller that does something else between two classes.
///
/// # Errors
/// As `verify_all`: the first failure of the folder is in this class.
pub fn verify_next(
    alloc: Global,
    tree: &Tree,
    place: usize,
    typed: &mut TypedFolder,
) -> Result<(), VerifyFault>
    requires linked { IsLinked tree.now }
    requires within { place < length tree.now.folder }
    requires typed { TypesFirst tree.now place typed.old }
    ensures { FirstVerify tree.now (place + 1) typed.new result }
{
    let class = &tree.folder().as_slice()[place];
    typed.push(verify_class(alloc, tree, place, class)?)?;
    Ok(())
}

/// Verifies one class of a linked folder, as `verify_next`, and keeps no frames: a step of `check_all`.
///
/// # Errors
/// As `verify_next`.
pub fn check_next(alloc: Global, tree: &Tree, place: usize) -> Result<(), VerifyFault>
    requires linked { IsLinked tree.now }
    requires within { place < length tree.now.folder }
    requires typed { AreFirstTyped tree.now place }
    ensures { FirstAreTyped tree.now (place + 1) result }
{
    let class = &tree.folder().as_slice()[place];
    check_class(alloc, tree, place, class)
}

// Verifies each method with code of the class at a place. Their frames are not kept.
fn check_class(
    alloc: Global,
    tree: &Tree,
    place: usize,
    class: &ClassFile,
) -> Result<(), VerifyFault>
    requires linked { IsLinked tree.now }
    requires stands { slice_get tree.now.folder place ≡ Some class.now }
    ensures { ClassIsTyped (headers_of tree.now) class.now result }
{
    for (number, method) in class.methods.as_slice().iter().enumerate() {
        if has_code(method.attrs.as_slice()) {
            let at = MethodAt {
                class: place,
                method: number,
            };
            check_method(alloc, tree, at)?;
        }
    }
    Ok(())
}

// Verifies each method with code of the class at a place.
fn verify_class(
    alloc: Global,
    tree: &Tree,
    place: usize,
    class: &ClassFile,
) -> Result<TypedClass, VerifyFault>
    requires linked { IsLinked tree.now }
    requires stands { slice_get tree.now.folder place ≡ Some class.now }
    ensures { ClassVerifies (headers_of tree.now) class.now result }
{
    let mut typed = TypedClass::new(alloc);
    for (number, method) in class.methods.as_slice().iter().enumerate() {
        let frames = if has_code(method.attrs.as_slice()) {
            let at = MethodAt {
                class: place,
                method: number,
            };
            Some(verify_method(alloc, tree, at)?)
        } else {
            None
        };
        typed.push(frames)?;
    }
    Ok(typed)
}

// Whether code is among a method's attributes.
fn has_code(attrs: &[Attr]) -> bool
    ensures { result ≡ is_some (code_of attrs.now) }
{
    code_of(attrs).is_some()
}
