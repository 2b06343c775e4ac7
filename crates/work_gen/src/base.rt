//! The smallest library that linking accepts.
ghost use Rattle.std.specs.Prelude.{◌≡◌, ◌∷◌, [], ◌++◌, IfOk, OnOk};
ghost use Rattle.class_model.specs.ModifiedUtf8.{IsText};
ghost use Rattle.work_gen.specs.BaseLibrary.{IsBaseLibrary};
ghost use Rattle.work_gen.specs.Values as values;

use crate::classes::{keeper, memberless, object, throwable};
use class_model::{
    ACC_ABSTRACT, ACC_FINAL, ACC_INTERFACE, ACC_PUBLIC, ACC_SUPER, ListOf, NoMemory,
};
use class_tree::{ClassFileList, METHOD_HANDLE, OBJECT, THROWABLE, machine_throwables};
use std::alloc::Global;

pub(crate) const INTERFACE: u16 = ACC_PUBLIC | ACC_INTERFACE | ACC_ABSTRACT;

pub(crate) const OPEN: u16 = ACC_PUBLIC | ACC_SUPER;

pub(crate) const FINAL: u16 = ACC_PUBLIC | ACC_SUPER | ACC_FINAL;

/// The class files of the smallest library that linking accepts (JVM Specification SE 8, 4.10.1 and 6.5), of version
/// 52.0: what the machine knows of `java/lang`, `java/lang/invoke` and `java/io`, and the class `L`, whose native
/// methods `use` and `keep` take any object.
///
/// # Errors
/// `NoMemory` where memory runs out.
pub fn base_library(alloc: Global) -> Result<ClassFileList, NoMemory>
    ensures { IfOk result (λ classes. IsBaseLibrary classes) }
{
    let mut classes = named_classes(alloc)?;
    for name in machine_throwables() {
        classes.push(throwable(alloc, THROWABLE, name)?)?;
    }
    Ok(classes)
}

// The classes but for the throwables that instructions raise.
fn named_classes(alloc: Global) -> Result<ClassFileList, NoMemory>
    ensures { IfOk result (λ classes. classes ≡ values.named_classes) }
{
    let mut classes = ListOf::new(alloc);
    push_named(alloc, &mut classes)?;
    Ok(classes)
}

// Appends the classes but for the throwables that instructions raise.
fn push_named(alloc: Global, classes: &mut ClassFileList) -> Result<(), NoMemory>
    ensures { OnOk result (classes.new ≡ classes.old ++ values.named_classes) }
{
    classes.push(object(alloc)?)?;
    push_memberless(alloc, classes, INTERFACE, b"java/lang/Cloneable")?;
    push_memberless(alloc, classes, INTERFACE, b"java/io/Serializable")?;
    push_memberless(alloc, classes, FINAL, b"java/lang/String")?;
    push_memberless(alloc, classes, FINAL, b"java/lang/Class")?;
    push_memberless(alloc, classes, OPEN, METHOD_HANDLE)?;
    push_memberless(alloc, classes, OPEN, b"java/lang/invoke/MethodType")?;
    classes.push(keeper(alloc)?)?;
    classes.push(throwable(alloc, OBJECT, THROWABLE)?)
}

// Appends a class without members, below `java/lang/Object`.
fn push_memberless(
    alloc: Global,
    classes: &mut ClassFileList,
    flags: u16,
    name: &[u8],
) -> Result<(), NoMemory>
    requires { IsText name.now }
    ensures { OnOk result
        (classes.new ≡ classes.old ++ values.memberless flags name.now ∷ []) }
{
    classes.push(memberless(alloc, flags, name)?)
}
