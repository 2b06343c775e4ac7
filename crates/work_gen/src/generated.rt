//! Generated work: methods of four kinds, and a script that calls each of them.
ghost use Rattle.std.specs.Prelude.{◌≡◌, ◌<◌, ◌≤◌, ◌++◌, length, IfOk, OnOk};
ghost use Rattle.std.specs.List.{AllByRecursion};
ghost use Rattle.class_bytes.specs.Counts.{FitsCounts};
ghost use Rattle.class_tree.specs.Headers.{IsClassFile};
ghost use Rattle.work_gen.specs.Generated as generated;
ghost use Rattle.work_gen.specs.Generated.{IsWork};

use crate::choices::{Choice, Kind, choices_of};
use crate::entries::{Entry, push_entries};
use crate::kinds::{code_of_kind, point_init, point_y};
use crate::laws::generated_classes_are_class_files;
use crate::parts::method_of;
use class_model::{
    ACC_PUBLIC, ACC_STATIC, ACC_SUPER, ByteList, ClassFile, Const, Field, FieldList, INIT, ListOf,
    MethodList, NoMemory, Pool, Text,
};
use class_tree::{ClassFileList, OBJECT, THROWABLE};
use std::alloc::Global;

/// Class files, and a script that runs them.
#[derive(Drop)]
pub struct Work {
    pub folder: ClassFileList,
    /// The text of the script, in bytes.
    pub script: ByteList,
}

/// Generated work: the class `G` with so many methods of four kinds, which draws from the number choose, the class `P` whose objects they make,
/// and a script that calls each method once, with an argument that the draws choose too (this project's profile). It needs the library of
/// `base_library`. Both are of version 52.0, and `G` comes first. Each is read from its bytes.
///
/// # Errors
/// `NoMemory` where memory runs out.
pub fn generate(alloc: Global, number: u32, size: u32) -> Result<Work, NoMemory>
    requires number { number ≤ 2147483647 }
    requires size { size ≤ 1000 }
    ensures is { IfOk result (λ work. IsWork number size work) }
    ensures fits { IfOk result (λ work. AllByRecursion FitsCounts work.folder) }
    ensures class_files { IfOk result (λ work. AllByRecursion IsClassFile work.folder) }
{
    generated_classes_are_class_files();
    let chosen = choices_of(alloc, number, size)?;
    Ok(Work {
        folder: folder_of(alloc, chosen.as_slice())?,
        script: script_of(alloc, chosen.as_slice())?,
    })
}

// The class files of these choices.
fn folder_of(alloc: Global, chosen: &[Choice]) -> Result<ClassFileList, NoMemory>
    requires { length chosen.now ≤ 1000 }
    ensures { IfOk result (λ folder. folder ≡ generated.generated_folder chosen.now) }
{
    let mut folder = ListOf::new(alloc);
    folder.push(work_class(alloc, chosen)?)?;
    folder.push(point_class(alloc)?)?;
    Ok(folder)
}

// The class with a method for each choice.
fn work_class(alloc: Global, chosen: &[Choice]) -> Result<ClassFile, NoMemory>
    requires { length chosen.now ≤ 1000 }
    ensures { IfOk result (λ class. class ≡ generated.work chosen.now) }
{
    let methods = work_methods(alloc, chosen)?;
    match work_pool(alloc, chosen) {
        Ok(pool) => Ok(class_with(
            alloc,
            pool,
            ACC_PUBLIC | ACC_SUPER,
            ListOf::new(alloc),
            methods,
        )),
        Err(fault) => {
            drop(methods);
            Err(fault)
        }
    }
}

// The methods of these choices.
fn work_methods(alloc: Global, chosen: &[Choice]) -> Result<MethodList, NoMemory>
    requires { length chosen.now ≤ 1000 }
    ensures { IfOk result (λ methods. methods ≡ generated.work_methods chosen.now) }
{
    let mut methods = ListOf::new(alloc);
    let mut name = 30;
    for choice in chosen {
        let part = code_of_kind(alloc, choice.kind)?;
        methods.push(method_of(alloc, ACC_PUBLIC | ACC_STATIC, name, 6, 5, part)?)?;
        name += 1;
    }
    Ok(methods)
}

// The constants of the class with a method for each choice: those that all methods have, and the names of the methods.
fn work_pool(alloc: Global, chosen: &[Choice]) -> Result<Pool, NoMemory>
    requires { length chosen.now ≤ 1000 }
    ensures { IfOk result (λ pool. pool ≡ generated.work_pool chosen.now) }
{
    let mut pool = Pool::new(alloc);
    push_entries(alloc, &mut pool, WORK_ENTRIES)?;
    let mut number: u16 = 0;
    for _ in chosen {
        pool.push(method_name(alloc, number)?)?;
        number += 1;
    }
    Ok(pool)
}

// The name of the method of this number.
fn method_name(alloc: Global, number: u16) -> Result<Const, NoMemory>
    requires { number ≤ 1000 }
    ensures { IfOk result (λ name. name ≡ generated.name_constant number) }
{
    let name = format!(in alloc; "m{number}")?;
    Ok(Const::Utf8(Text::of_plain(alloc, name.as_bytes())?))
}

// The class of the objects.
fn point_class(alloc: Global) -> Result<ClassFile, NoMemory>
    ensures { IfOk result (λ class. class ≡ generated.point) }
{
    let fields = point_fields(alloc)?;
    let methods = point_methods(alloc)?;
    let mut pool = Pool::new(alloc);
    push_entries(alloc, &mut pool, POINT_ENTRIES)?;
    Ok(class_with(alloc, pool, ACC_SUPER, fields, methods))
}

// The fields of the objects.
fn point_fields(alloc: Global) -> Result<FieldList, NoMemory>
    ensures { IfOk result (λ fields. fields ≡ generated.point.fields) }
{
    let mut fields = ListOf::new(alloc);
    fields.push(field_of(alloc, 11))?;
    fields.push(field_of(alloc, 15))?;
    Ok(fields)
}

// An int field of this name.
fn field_of(alloc: Global, name: u16) -> Field
    ensures { result ≡ generated.field name 12 }
{
    Field {
        flags: 0,
        name,
        desc: 12,
        attrs: ListOf::new(alloc),
    }
}

// The methods of the objects.
fn point_methods(alloc: Global) -> Result<MethodList, NoMemory>
    ensures { IfOk result (λ methods. methods ≡ generated.point.methods) }
{
    let mut methods = ListOf::new(alloc);
    let part = point_init(alloc)?;
    methods.push(method_of(alloc, 0, 5, 6, 7, part)?)?;
    let part = point_y(alloc)?;
    methods.push(method_of(alloc, 0, 15, 18, 7, part)?)?;
    Ok(methods)
}

// A class file of version 52.0 with these fields and methods. Its own constant is the second, and its superclass the fourth.
fn class_with(
    alloc: Global,
    pool: Pool,
    flags: u16,
    fields: FieldList,
    methods: MethodList,
) -> ClassFile
    ensures { result ≡ generated.class_with pool flags fields methods }
{
    ClassFile {
        major: 52,
        minor: 0,
        pool,
        flags,
        this_class: 2,
        super_class: 4,
        interfaces: ListOf::new(alloc),
        fields,
        methods,
        attrs: ListOf::new(alloc),
    }
}

// The script that calls each method once.
fn script_of(alloc: Global, chosen: &[Choice]) -> Result<ByteList, NoMemory>
    requires { length chosen.now ≤ 1000 }
    ensures { IfOk result (λ script. script ≡ generated.generated_script chosen.now) }
{
    let mut text = Vec::new(alloc);
    let mut number: u16 = 0;
    for choice in chosen {
        push_call(alloc, &mut text, number, *choice)?;
        number += 1;
    }
    text.extend_from_slice(b"stop\n")?;
    Ok(ListOf::from_vec(text))
}

// Appends the call of the method of this number, and the answer to what it calls.
fn push_call(alloc: Global, text: &mut Vec<u8>, number: u16, choice: Choice) -> Result<(), NoMemory>
    ensures { OnOk result
        (text.new.items ≡ text.old.items ++ generated.call_text number choice) }
{
    let argument = choice.argument;
    let call = format!(in alloc; "call G m{number} (I)I i:{argument}\n")?;
    text.extend_from_slice(call.as_bytes())?;
    text.extend_from_slice(answer_of(choice).as_bytes())?;
    Ok(())
}

// The answer to what a call of this choice calls, if it calls anything.
fn answer_of(choice: Choice) -> &'static str
    ensures { result.now ≡ generated.answer_text choice }
{
    match choice.kind {
        Kind::Branches if choice.argument == 1 => "return\n",
        _ => "",
    }
}

const POINT_ENTRIES: &[Entry<'static>] = &[
    Entry::Utf8(b"P"),
    Entry::Class(1),
    Entry::Utf8(OBJECT),
    Entry::Class(3),
    Entry::Utf8(INIT),
    Entry::Utf8(b"(II)V"),
    Entry::Utf8(b"Code"),
    Entry::Utf8(b"()V"),
    Entry::NameAndType(5, 8),
    Entry::Methodref(4, 9),
    Entry::Utf8(b"x"),
    Entry::Utf8(b"I"),
    Entry::NameAndType(11, 12),
    Entry::Fieldref(2, 13),
    Entry::Utf8(b"y"),
    Entry::NameAndType(15, 12),
    Entry::Fieldref(2, 16),
    Entry::Utf8(b"()I"),
];

const WORK_ENTRIES: &[Entry<'static>] = &[
    Entry::Utf8(b"G"),
    Entry::Class(1),
    Entry::Utf8(OBJECT),
    Entry::Class(3),
    Entry::Utf8(b"Code"),
    Entry::Utf8(b"(I)I"),
    Entry::Utf8(b"P"),
    Entry::Class(7),
    Entry::Utf8(INIT),
    Entry::Utf8(b"(II)V"),
    Entry::NameAndType(9, 10),
    Entry::Methodref(8, 11),
    Entry::Utf8(b"x"),
    Entry::Utf8(b"I"),
    Entry::NameAndType(13, 14),
    Entry::Fieldref(8, 15),
    Entry::Utf8(b"y"),
    Entry::Utf8(b"()I"),
    Entry::NameAndType(17, 18),
    Entry::Methodref(8, 19),
    Entry::Utf8(b"L"),
    Entry::Class(21),
    Entry::Utf8(b"use"),
    Entry::Utf8(b"(Ljava/lang/Object;)V"),
    Entry::NameAndType(23, 24),
    Entry::Methodref(22, 25),
    Entry::Utf8(b"StackMapTable"),
    Entry::Utf8(THROWABLE),
    Entry::Class(28),
];
