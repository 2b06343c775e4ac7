ghost use Rattle.std.specs.Prelude.{◌≡◌, [], ◌∷◌, IfOk};
ghost use Rattle.class_bytes.specs.Counts.{FitsPart, FitsField, FitsMethod, FitsCounts};

use crate::value_tests::{push, push_text};
use class_bytes::write_class;
use class_model::{
    Attr, ByteList, ClassFile, CodePart, Const, Field, Handler, InnerAttr, ListOf, Method, Pool,
};
use std::alloc::Global;
use std::test::Fail;

// The bytes of the class file that `class` makes: the head, the field, the method and the attribute.
const BYTES: &[u8] = b"\xCA\xFE\xBA\xBE\0\x01\0\x34\
    \0\x04\x01\0\x01A\x07\0\x01\x01\0\x04Code\0\x21\0\x02\0\0\0\x01\0\x02\
    \0\x01\0\x0A\0\x01\0\x01\0\x01\0\x01\0\0\0\x03\x01\x02\x03\
    \0\x01\0\x09\0\x01\0\x01\0\x01\0\x03\0\0\0\x1D\0\x02\0\x03\0\0\0\x02\0\xB1\
    \0\x01\0\0\0\x01\0\x01\0\x02\0\x01\0\x01\0\0\0\x01\x09\
    \0\x01\0\x01\0\0\0\0";

// A list of one item.
fn list_of<T: Drop>(alloc: Global, item: T) -> Result<ListOf<T>, Fail>
    ensures { IfOk result (λ list. list ≡ item ∷ []) }
{
    let mut list = ListOf::new(alloc);
    list.push(item)?;
    Ok(list)
}

fn pool(alloc: Global) -> Result<Pool, Fail> {
    let mut pool = Pool::new(alloc);
    push_text(alloc, &mut pool, b"A")?;
    push(&mut pool, Const::Class(1))?;
    push_text(alloc, &mut pool, b"Code")?;
    Ok(pool)
}

fn field(alloc: Global) -> Result<Field, Fail>
    ensures { IfOk result FitsField }
{
    let bytes = Vec::from_slice(alloc, &[1, 2, 3])?;
    let attr = Attr::Raw {
        name: 1,
        bytes: ByteList::from_vec(bytes),
    };
    Ok(Field {
        flags: 0x0A,
        name: 1,
        desc: 1,
        attrs: list_of(alloc, attr)?,
    })
}

fn code(alloc: Global) -> Result<CodePart, Fail>
    ensures { IfOk result FitsPart }
{
    let handler = Handler {
        start: 0,
        end: 1,
        at: 1,
        catch_type: 2,
    };
    let bytes = Vec::from_slice(alloc, &[9])?;
    let attr = InnerAttr {
        name: 1,
        bytes: ByteList::from_vec(bytes),
    };
    let bytes = Vec::from_slice(alloc, &[0x00, 0xB1])?;
    Ok(CodePart {
        max_stack: 2,
        max_locals: 3,
        code: ByteList::from_vec(bytes),
        handlers: list_of(alloc, handler)?,
        attrs: list_of(alloc, attr)?,
    })
}

fn method(alloc: Global) -> Result<Method, Fail>
    ensures { IfOk result FitsMethod }
{
    let attr = Attr::Code {
        name: 3,
        part: code(alloc)?,
    };
    Ok(Method {
        flags: 9,
        name: 1,
        desc: 1,
        attrs: list_of(alloc, attr)?,
    })
}

fn class(alloc: Global) -> Result<ClassFile, Fail>
    ensures { IfOk result FitsCounts }
{
    let attr = Attr::Raw {
        name: 1,
        bytes: ByteList::new(alloc),
    };
    Ok(ClassFile {
        major: 52,
        minor: 1,
        pool: pool(alloc)?,
        flags: 0x21,
        this_class: 2,
        super_class: 0,
        interfaces: list_of(alloc, 2)?,
        fields: list_of(alloc, field(alloc)?)?,
        methods: list_of(alloc, method(alloc)?)?,
        attrs: list_of(alloc, attr)?,
    })
}

#[test]
fn members_and_attributes(rt: HostRuntime) -> Result<(), Fail> {
    let class = class(rt.alloc())?;
    let written = write_class(rt.alloc(), &class)?;
    assert!(rt; is_same(written.as_slice(), BYTES));
    Ok(())
}

fn is_same(bytes: &[u8], wanted: &[u8]) -> bool {
    bytes == wanted
}
