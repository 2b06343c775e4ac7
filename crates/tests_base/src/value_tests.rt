use class_model::{
    ByteList, Const, Descriptor, ListOf, NoMemory, Pool, Text, TextFault, is_field_descriptor,
    is_reference_name, method_shape, parse_descriptor, parse_field_type, push_u2, push_u4,
};
use std::alloc::Global;
use std::process::Abort;
use std::test::Fail;

// ---- constants

/// An index, and what a pool shows there.
pub(crate) type Shown = (u16, &'static str);

// A long, a double and an integer.
const WIDE: [Shown; 7] = [
    (0, "None"),
    (1, "Some(Long(-1))"),
    (2, "None"),
    (3, "Some(Double(2))"),
    (4, "None"),
    (5, "Some(Integer(7))"),
    (6, "None"),
];

#[test]
fn pools(rt: HostRuntime) -> Result<(), Fail> {
    let mut pool = Pool::new(rt.alloc());
    shows(&rt, &pool, 1, &[(0, "None")])?;
    push(&mut pool, Const::Long(-1))?;
    push(&mut pool, Const::Double(2))?;
    push(&mut pool, Const::Integer(7))?;
    shows(&rt, &pool, 6, &WIDE)
}

/// Checks the count of a pool, and what it shows at these indices.
pub(crate) fn shows(
    rt: &(impl Abort + AllocGlobal),
    pool: &Pool,
    count: u16,
    rows: &[Shown],
) -> Result<(), Fail> {
    for (index, wanted) in rows {
        let told = format!(in rt.alloc(); "{:?}", pool.get(*index))?;
        let is_so = pool.count() == count && told.as_str() == *wanted;
        assert!(rt; is_so, "{told} at {index} of {count}");
    }
    Ok(())
}

/// Appends a constant to a pool of few.
pub(crate) fn push(pool: &mut Pool, constant: Const) -> Result<(), Fail> {
    if pool.count() < 300 && constant.units() <= 2 {
        pool.push(constant)?;
    }
    Ok(())
}

/// Appends a text.
pub(crate) fn push_text(alloc: Global, pool: &mut Pool, bytes: &[u8]) -> Result<(), Fail> {
    push(pool, Const::Utf8(Text::of_bytes(alloc, bytes)?))
}

// ---- texts and descriptors

// Bytes, and whether they are modified UTF-8.
type Bytes = (&'static [u8], bool);

const BYTES: [Bytes; 4] = [
    (b"A", true),
    (b"\xC0\x80", true),
    (b"\0", false),
    (b"\xC1\x81", false),
];

#[test]
fn texts(rt: HostRuntime) -> Result<(), Fail> {
    compare_bytes(&rt, &BYTES)?;
    let text = Text::of_plain(rt.alloc(), b"a/B")?;
    let long = vec![in rt.alloc(); b'a'; 65_536]?;
    let is_long = Text::of_bytes(rt.alloc(), &long).err() == Some(TextFault::BadText);
    let longest = long.get(1..).unwrap_or(&[]);
    assert!(rt; text.bytes() == b"a/B".as_slice() && is_long && is_copied(rt.alloc(), longest)?);
    Ok(())
}

fn compare_bytes(rt: &(impl Abort + AllocGlobal), rows: &[Bytes]) -> Result<(), Fail> {
    for (bytes, good) in rows {
        let is_so = match Text::of_bytes(rt.alloc(), bytes) {
            Ok(text) => *good && text.bytes() == *bytes,
            Err(fault) => !*good && fault == TextFault::BadText,
        };
        assert!(rt; is_so, "at {bytes:?}");
    }
    Ok(())
}

// Whether bytes are a text, a copy of it is equal, and another text is not.
fn is_copied(alloc: Global, bytes: &[u8]) -> Result<bool, Fail> {
    let text = Text::of_bytes(alloc, bytes)?;
    let other = Text::of_bytes(alloc, b"a")?;
    let copy = text.copy()?;
    let is_equal = copy == text && copy.bytes() == text.bytes();
    Ok(is_equal && text.bytes() == bytes && copy != other)
}

// A text, and what it is as a descriptor of a field, and of a method.
type Described = (&'static str, &'static str, &'static str);

const DESCRIBED: [Described; 4] = [
    ("S", "Short is Int", "BadName"),
    ("[J", "Named(Text { bytes: [91, 74] }) is Ref", "BadName"),
    (
        "(I[JLP;)V",
        "BadName",
        "Descriptor { params: ListOf { items: [Int, Named(Text { bytes: [91, 74] }), \
         Named(Text { bytes: [80] })] }, result: None }",
    ),
    ("(I", "BadName", "BadName"),
];

#[test]
fn descriptors(rt: HostRuntime) -> Result<(), Fail> {
    compare_descriptors(&rt, &DESCRIBED)?;
    // bytes that are no text
    let shape = format!(in rt.alloc(); "{:?}", method_shape(b"(L\xFF;)V"))?;
    let is_field = is_field_descriptor(b"L\xFF;") && !is_reference_name(b"L\xFF;");
    let is_shape = shape.as_str() == "Some(MethodShape { units: 1, is_void: true })";
    assert!(rt; is_field && is_shape, "{shape}");
    Ok(())
}

fn compare_descriptors(rt: &(impl Abort + AllocGlobal), rows: &[Described]) -> Result<(), Fail> {
    for (text, as_field, as_method) in rows {
        let text = Text::of_bytes(rt.alloc(), text.as_bytes())?;
        let field = field_text(rt.alloc(), &text)?;
        let method = method_text(rt.alloc(), &text)?;
        let is_so = field.as_str() == *as_field && method.as_str() == *as_method;
        assert!(rt; is_so, "{field} and {method}");
    }
    Ok(())
}

fn field_text(alloc: Global, text: &Text) -> Result<String, Fail> {
    Ok(match parse_field_type(alloc, text) {
        Ok(field_type) => format!(in alloc; "{field_type:?} is {:?}", field_type.kind())?,
        Err(fault) => format!(in alloc; "{fault:?}")?,
    })
}

fn method_text(alloc: Global, text: &Text) -> Result<String, Fail> {
    match parse_descriptor(alloc, text) {
        Ok(descriptor) => copy_text(alloc, &descriptor),
        Err(fault) => Ok(format!(in alloc; "{fault:?}")?),
    }
}

fn copy_text(alloc: Global, descriptor: &Descriptor) -> Result<String, Fail> {
    let copy = descriptor.copy(alloc)?;
    Ok(format!(in alloc; "{copy:?}")?)
}

// ---- lists and items

#[test]
fn lists(rt: HostRuntime) -> Result<(), Fail> {
    let mut list: ListOf<u16> = ListOf::new(rt.alloc());
    assert!(rt; list.is_empty() && gets_two(&mut list)?);
    let bytes = ByteList::from_vec(Vec::from_slice(rt.alloc(), &[1, 2])?);
    assert!(rt; bytes.into_vec().as_slice() == [1, 2].as_slice());
    let mut out = Vec::new(rt.alloc());
    push_u2(&mut out, 0x1234)?;
    push_u4(&mut out, 0x0102_0304)?;
    assert!(rt; out.as_slice() == [0x12, 0x34, 1, 2, 3, 4].as_slice());
    Ok(())
}

// Whether two items are pushed and found.
fn gets_two(list: &mut ListOf<u16>) -> Result<bool, NoMemory> {
    list.push(3)?;
    list.push(500)?;
    let is_end = list.len() == 2 && list.get(2).is_none();
    Ok(is_end && list.get(1) == Some(&500) && list.as_slice() == [3, 500].as_slice())
}
