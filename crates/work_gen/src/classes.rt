//! The kinds of classes of the library.
ghost use Rattle.std.specs.Prelude.{◌≡◌, [], ◌∷◌, ◌++◌, codes, length, Some, None, IfOk, OnOk};
ghost use Rattle.class_model.specs.Methods.{code};
ghost use Rattle.class_model.specs.ModifiedUtf8.{IsText};
ghost use Rattle.class_model.specs.Names.{init};
ghost use Rattle.class_model.specs.declared.class_file.Attr.TheVariants.{Code};
ghost use Rattle.class_model.specs.declared.pool.Const.TheVariants.{Methodref, NameAndType, Utf8};
ghost use Rattle.class_tree.specs.Names.{object};
ghost use Rattle.work_gen.specs.BaseLibrary.{no_parameters, takes_object};
ghost use Rattle.work_gen.specs.Values as values;

use crate::parts::{class_of, code_of, method_of, native, push_class, push_text};
use class_model::opcodes::{ALOAD_0, INVOKESPECIAL, RETURN};
use class_model::{
    ACC_NATIVE, ACC_PROTECTED, ACC_PUBLIC, ACC_STATIC, ACC_SUPER, ClassFile, CodePart, Const, INIT,
    ListOf, MethodList, NoMemory, Pool,
};
use class_tree::OBJECT;
use std::alloc::Global;

const NO_PARAMETERS: &[u8] = b"()V";

const CODE: &[u8] = b"Code";

// The index of the superclass, behind the class itself.
const SUPER: u16 = 4;

// The constants of a class and of its superclass.
fn pool_of(alloc: Global, name: &[u8], super_name: &[u8]) -> Result<Pool, NoMemory>
    requires name { IsText name.now }
    requires super_name { IsText super_name.now }
    ensures { IfOk result (λ pool. pool ≡ values.class_and_super name.now super_name.now) }
{
    let mut pool = Pool::new(alloc);
    push_class(alloc, &mut pool, name)?;
    push_class(alloc, &mut pool, super_name)?;
    Ok(pool)
}

/// A class without members, below `java/lang/Object`.
pub(crate) fn memberless(alloc: Global, flags: u16, name: &[u8]) -> Result<ClassFile, NoMemory>
    requires { IsText name.now }
    ensures { IfOk result (λ class. class ≡ values.memberless flags name.now) }
{
    let pool = pool_of(alloc, name, OBJECT)?;
    Ok(class_of(alloc, pool, flags, SUPER, ListOf::new(alloc)))
}

/// A throwable: its constructor calls that of its superclass.
pub(crate) fn throwable(
    alloc: Global,
    super_name: &[u8],
    name: &[u8],
) -> Result<ClassFile, NoMemory>
    requires super_name { IsText super_name.now }
    requires name { IsText name.now }
    ensures { IfOk result (λ class. class ≡ values.thrown super_name.now name.now) }
{
    let code = code_of(alloc, 1, &[ALOAD_0, INVOKESPECIAL, 0, 9, RETURN])?;
    let methods = constructors(alloc, 5, 6, 7, code)?;
    match thrown_pool(alloc, super_name, name) {
        Ok(pool) => Ok(class_of(alloc, pool, ACC_PUBLIC | ACC_SUPER, SUPER, methods)),
        // let go by a call, so that its drop is proved once
        Err(fault) => {
            drop(methods);
            Err(fault)
        }
    }
}

// The constants of a throwable.
fn thrown_pool(alloc: Global, super_name: &[u8], name: &[u8]) -> Result<Pool, NoMemory>
    requires super_name { IsText super_name.now }
    requires name { IsText name.now }
    ensures { IfOk result (λ pool. pool ≡ values.thrown_pool super_name.now name.now) }
{
    let mut pool = pool_of(alloc, name, super_name)?;
    push_constructor(alloc, &mut pool)?;
    Ok(pool)
}

// Appends the constants of a throwable's constructor.
fn push_constructor(alloc: Global, pool: &mut Pool) -> Result<(), NoMemory>
    requires { length pool.old ≡ 5 }
    ensures { OnOk result (pool.new ≡ pool.old ++ Some (Utf8 init) ∷ Some (Utf8 no_parameters)
        ∷ Some (Utf8 code) ∷ Some (NameAndType 5 6) ∷ Some (Methodref 4 8) ∷ []) }
{
    push_text(alloc, pool, INIT)?;
    push_text(alloc, pool, NO_PARAMETERS)?;
    push_text(alloc, pool, CODE)?;
    pool.push(Const::NameAndType(5, 6))?;
    pool.push(Const::Methodref(SUPER, 8))
}

// A list of a public constructor alone.
fn constructors(
    alloc: Global,
    name: u16,
    desc: u16,
    attr: u16,
    part: CodePart,
) -> Result<MethodList, NoMemory>
    ensures { IfOk result (λ methods. methods
        ≡ values.method 0x0001 name desc (Code attr part ∷ []) ∷ []) }
{
    let only = method_of(alloc, ACC_PUBLIC, name, desc, attr, part)?;
    let mut methods = ListOf::new(alloc);
    methods.push(only)?;
    Ok(methods)
}

/// The class `java/lang/Object`: its constructor returns.
pub(crate) fn object(alloc: Global) -> Result<ClassFile, NoMemory>
    ensures { IfOk result (λ class. class ≡ values.root) }
{
    let methods = object_methods(alloc)?;
    match object_pool(alloc) {
        Ok(pool) => Ok(class_of(alloc, pool, ACC_PUBLIC | ACC_SUPER, 0, methods)),
        Err(fault) => {
            drop(methods);
            Err(fault)
        }
    }
}

// The methods of `java/lang/Object`.
fn object_methods(alloc: Global) -> Result<MethodList, NoMemory>
    ensures { IfOk result (λ methods. methods ≡ values.root_methods) }
{
    let code = code_of(alloc, 0, &[RETURN])?;
    let mut methods = constructors(alloc, 3, 4, 5, code)?;
    methods.push(native(alloc, ACC_PROTECTED | ACC_NATIVE, 6, 7))?;
    methods.push(native(alloc, ACC_PROTECTED | ACC_NATIVE, 8, 4))?;
    Ok(methods)
}

// The constants of `java/lang/Object`.
fn object_pool(alloc: Global) -> Result<Pool, NoMemory>
    ensures { IfOk result (λ pool. pool ≡ values.root_pool) }
{
    let mut pool = Pool::new(alloc);
    push_object(alloc, &mut pool)?;
    Ok(pool)
}

// Appends the constants of `java/lang/Object`.
fn push_object(alloc: Global, pool: &mut Pool) -> Result<(), NoMemory>
    requires { pool.old ≡ None ∷ [] }
    ensures { OnOk result (pool.new ≡ values.root_pool) }
{
    push_class(alloc, pool, OBJECT)?;
    push_text(alloc, pool, INIT)?;
    push_text(alloc, pool, NO_PARAMETERS)?;
    push_text(alloc, pool, CODE)?;
    push_text(alloc, pool, b"clone")?;
    push_text(alloc, pool, b"()Ljava/lang/Object;")?;
    push_text(alloc, pool, b"finalize")
}

/// The class `L`, whose static methods take any object.
pub(crate) fn keeper(alloc: Global) -> Result<ClassFile, NoMemory>
    ensures { IfOk result (λ class. class ≡ values.keeper) }
{
    let flags = ACC_PUBLIC | ACC_STATIC | ACC_NATIVE;
    let mut methods = ListOf::new(alloc);
    methods.push(native(alloc, flags, 5, 7))?;
    methods.push(native(alloc, flags, 6, 7))?;
    match keeper_pool(alloc) {
        Ok(pool) => Ok(class_of(alloc, pool, ACC_PUBLIC | ACC_SUPER, SUPER, methods)),
        Err(fault) => {
            drop(methods);
            Err(fault)
        }
    }
}

// The constants of the class `L`.
fn keeper_pool(alloc: Global) -> Result<Pool, NoMemory>
    ensures { IfOk result (λ pool. pool ≡ values.class_and_super (codes "L") object
        ++ Some (Utf8 (codes "use")) ∷ Some (Utf8 (codes "keep"))
        ∷ Some (Utf8 takes_object) ∷ []) }
{
    let mut pool = pool_of(alloc, b"L", OBJECT)?;
    push_text(alloc, &mut pool, b"use")?;
    push_text(alloc, &mut pool, b"keep")?;
    push_text(alloc, &mut pool, b"(Ljava/lang/Object;)V")?;
    Ok(pool)
}
