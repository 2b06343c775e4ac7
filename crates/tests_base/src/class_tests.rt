use class_bytes::{read_class, read_header, write_class};
use class_model::ClassFile;
use std::alloc::Global;
use std::fmt::Write;
use std::process::Abort;
use std::test::Fail;

// The class `A` under `B`, which is its own interface, with a field, a method and an attribute.
const BYTES: &[u8] = b"\xCA\xFE\xBA\xBE\0\0\0\x34\0\x0D\
    \x01\0\x01A\x07\0\x01\x01\0\x01B\x07\0\x03\x01\0\x01f\x01\0\x01I\x03\0\0\0\x07\
    \x01\0\x0DConstantValue\x01\0\x01m\x01\0\x03()V\x01\0\x04Code\x01\0\x01S\
    \0\x21\0\x02\0\x04\0\x01\0\x02\
    \0\x01\0\x19\0\x05\0\x06\0\x01\0\x08\0\0\0\x02\0\x07\
    \0\x01\0\x09\0\x09\0\x0A\0\x01\0\x0B\0\0\0\x1D\0\x01\0\0\0\0\0\x02\0\xB1\
    \0\x01\0\0\0\x01\0\x01\0\x04\0\x01\0\x0C\0\0\0\x01\x09\
    \0\x01\0\x0C\0\0\0\x02\x01\x02";

const CLASS: &str = "52.0 13 33 2 4 ListOf { items: [2] } \
    ListOf { items: [Field { flags: 25, name: 5, desc: 6, attrs: ListOf { items: [\
    Raw { name: 8, bytes: ListOf { items: [0, 7] } }] } }] } \
    ListOf { items: [Method { flags: 9, name: 9, desc: 10, attrs: ListOf { items: [\
    Code { name: 11, part: CodePart { max_stack: 1, max_locals: 0, \
    code: ListOf { items: [0, 177] }, \
    handlers: ListOf { items: [Handler { start: 0, end: 1, at: 1, catch_type: 4 }] }, \
    attrs: ListOf { items: [InnerAttr { name: 12, bytes: ListOf { items: [9] } }] } } }] } }] } \
    ListOf { items: [Raw { name: 12, bytes: ListOf { items: [1, 2] } }] }";

const HEADER: &str = "Header { name: Text { bytes: [65] }, flags: 33, \
    super_name: Some(Text { bytes: [66] }), \
    interfaces: ListOf { items: [Text { bytes: [65] }] }, \
    fields: ListOf { items: [\
    Member { flags: 25, name: Text { bytes: [102] }, desc: Text { bytes: [73] } }] }, \
    methods: ListOf { items: [\
    Member { flags: 9, name: Text { bytes: [109] }, desc: Text { bytes: [40, 41, 86] } }] } }";

#[test]
fn values_of_a_class(rt: HostRuntime) -> Result<(), Fail> {
    let class = class_text(rt.alloc(), BYTES)?;
    assert!(rt; class.as_str() == CLASS, "{class}");
    let header = header_text(rt.alloc(), BYTES)?;
    assert!(rt; header.as_str() == HEADER, "{header}");
    let is_so = is_written_back(rt.alloc(), BYTES)?;
    assert!(rt; is_so);
    Ok(())
}

// A copy of the class file as text.
fn class_text(alloc: Global, bytes: &[u8]) -> Result<String, Fail> {
    let class = read_class(alloc, bytes)?;
    copy_text(alloc, &class)
}

fn copy_text(alloc: Global, class: &ClassFile) -> Result<String, Fail> {
    let copy = class.copy(alloc)?;
    text_of(alloc, &copy)
}

// The versions, the count of the pool, the flags, the class and its superclass; the interfaces, fields, methods and attributes.
fn text_of(alloc: Global, class: &ClassFile) -> Result<String, Fail> {
    let mut text = String::new(alloc);
    write!(
        text,
        "{}.{} {} ",
        class.major,
        class.minor,
        class.pool.count()
    )?;
    write!(
        text,
        "{} {} {} ",
        class.flags, class.this_class, class.super_class
    )?;
    write!(text, "{:?} {:?} ", class.interfaces, class.fields)?;
    write!(text, "{:?} {:?}", class.methods, class.attrs)?;
    Ok(text)
}

fn header_text(alloc: Global, bytes: &[u8]) -> Result<String, Fail> {
    let header = read_header(alloc, bytes)?;
    Ok(format!(in alloc; "{header:?}")?)
}

// Whether the class file is written as the bytes that it was read from.
fn is_written_back(alloc: Global, bytes: &[u8]) -> Result<bool, Fail> {
    let class = read_class(alloc, bytes)?;
    Ok(write_class(alloc, &class)?.as_slice() == bytes)
}
