use crate::value_tests::{Shown, shows};
use class_model::{ClassFault, FileRule, Pool};
use pool_bytes::{read_pool, write_pool};
use std::alloc::Global;
use std::process::Abort;
use std::test::Fail;

// The class `A` under `java/lang/Object`, whose pool stands from 8 to 39.
const CLASS_A: &[u8] = b"\xCA\xFE\xBA\xBE\0\0\0\x34\
    \0\x05\x07\0\x02\x01\0\x01A\x07\0\x04\x01\0\x10java/lang/Object\
    \0\x21\0\x01\0\x03\0\0\0\0\0\0\0\0";

// A pool with constants of each kind; those at 14 and 16 take two indices.
const EACH: &[u8] = b"\0\x1F\x01\0\x01A\x07\0\x01\x01\0\x01f\x01\0\x01I\x0C\0\x03\0\x04\
    \x09\0\x02\0\x05\x01\0\x03()V\x0C\0\x03\0\x07\x0A\0\x02\0\x08\x0B\0\x02\0\x08\x08\0\x01\
    \x03\xFF\xFF\xFF\xFE\x04\x3F\x80\0\0\x05\xFF\xFF\xFF\xFF\xFF\xFF\xFF\xFE\
    \x06\x3F\xF0\0\0\0\0\0\0\x0F\x01\0\x06\x10\0\x07\x12\0\0\0\x08\x01\0\x06<init>\
    \x0C\0\x15\0\x07\x0A\0\x02\0\x16\x01\0\x08<clinit>\x0C\0\x18\0\x07\x01\0\x01[\
    \x01\0\x02<f\x0C\0\x1B\0\x04\x01\0\x03()I\x12\xFF\xFF\0\x08";

// What some of these are.
const SHOWN: [Shown; 16] = [
    (1, "Some(Utf8(Text { bytes: [65] }))"),
    (2, "Some(Class(1))"),
    (5, "Some(NameAndType(3, 4))"),
    (6, "Some(Fieldref(2, 5))"),
    (9, "Some(Methodref(2, 8))"),
    (10, "Some(InterfaceMethodref(2, 8))"),
    (11, "Some(String(1))"),
    (12, "Some(Integer(-2))"),
    // the bits of 1
    (13, "Some(Float(1065353216))"),
    (14, "Some(Long(-2))"),
    (15, "None"),
    // the bits of 1
    (16, "Some(Double(4607182418800017408))"),
    (18, "Some(MethodHandle(1, 6))"),
    (19, "Some(MethodType(7))"),
    (20, "Some(InvokeDynamic(0, 8))"),
    (30, "Some(InvokeDynamic(65535, 8))"),
];

#[test]
fn behind_other_bytes(rt: HostRuntime) -> Result<(), Fail> {
    let (pool, end) = read_pool(rt.alloc(), CLASS_A, 8)?;
    let is_so = is_written(rt.alloc(), &pool, CLASS_A.get(8..39).unwrap_or(&[]))?;
    assert!(rt; pool.count() == 5 && end == 39 && is_so);
    is_short_behind(&rt, CLASS_A, 53);
    is_short_behind(&rt, CLASS_A, usize::MAX);
    Ok(())
}

// Whether a pool is written as these bytes.
fn is_written(alloc: Global, pool: &Pool, bytes: &[u8]) -> Result<bool, Fail> {
    Ok(write_pool(alloc, pool)?.as_slice() == bytes)
}

// Checks that no pool is at a place behind the bytes.
fn is_short_behind(rt: &(impl Abort + AllocGlobal), bytes: &[u8], at: usize) {
    let told = read_pool(rt.alloc(), bytes, at).err();
    let wanted = ClassFault::Malformed {
        at: at as u64,
        rule: FileRule::Short,
    };
    assert!(rt; told == Some(wanted), "{told:?} at {at}");
}

#[test]
fn each_constant(rt: HostRuntime) -> Result<(), Fail> {
    let (pool, end) = read_pool(rt.alloc(), EACH, 0)?;
    assert!(rt; end == EACH.len());
    has_each(&rt, &pool)
}

// Checks what a pool shows and is written as, and a copy of it.
fn has_each(rt: &(impl Abort + AllocGlobal), pool: &Pool) -> Result<(), Fail> {
    shows(rt, pool, 31, &SHOWN)?;
    let copy = pool.copy(rt.alloc())?;
    let is_so = is_written(rt.alloc(), pool, EACH)? && is_written(rt.alloc(), &copy, EACH)?;
    assert!(rt; is_so);
    Ok(())
}
