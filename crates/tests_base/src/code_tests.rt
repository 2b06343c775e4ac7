use class_model::{ClassFault, CodeIndex, FileRule, Placed};
use code_bytes::decode;
use std::alloc::Global;
use std::fmt::Write;
use std::process::Abort;
use std::test::Fail;

// A code, and its instructions: offset, length and instruction.
type Listing = (&'static [u8], &'static str);

const LISTINGS: [Listing; 5] = [
    (
        b"\x10\x80\x10\x7F\x11\x80\0\x11\x01\x02\x12\xFF\x13\xFF\x01\x14\0\x02",
        "0+2 Const(Int(-128)); 2+2 Const(Int(127)); 4+3 Const(Int(-32768)); 7+3 Const(Int(258)); \
         10+2 Ldc(255); 12+3 Ldc(65281); 15+3 Ldc2(2); ",
    ),
    (
        b"\xB2\x01\x02\xB3\x01\x03\xB4\x01\x04\xB5\x01\x05\xB6\xFF\xFE\xB7\xFF\xFE\xB8\xFF\xFE\
          \xB9\x02\x03\xFF\0\xBA\x02\x03\0\0",
        "0+3 GetStatic(258); 3+3 PutStatic(259); 6+3 GetField(260); 9+3 PutField(261); \
         12+3 Invoke(182, 65534, 0); 15+3 Invoke(183, 65534, 0); 18+3 Invoke(184, 65534, 0); \
         21+5 Invoke(185, 515, 255); 26+5 Dynamic(515); ",
    ),
    (
        b"\xAA\xF0\xF1\xF2\0\0\0\0\xFF\xFF\xFF\xFF\0\0\0\x01\0\0\0\0\0\
          \0\0\0\0\0\0\0",
        "0+28 Table { low: -1, other: 0, targets: ListOf { items: [0, 0, 0] } }; ",
    ),
    (
        b"\xAB\x0F\x0E\x0D\0\0\0\0\0\0\0\x02\xFF\xFF\xFF\xFB\0\0\0\0\0\
          \0\0\x07\0\0\0\0",
        "0+28 Lookup { other: 0, pairs: ListOf { items: [Pair { key: -5, to: 0 }, Pair { key: 7, to: 0 }] } }; ",
    ),
    (b"\x57\xB1", "0+1 Shuffle(87); 1+1 Return(None); "),
];

#[test]
fn instructions_of_codes(rt: HostRuntime) -> Result<(), Fail> {
    compare_listings(&rt, &LISTINGS)?;
    let told = decode(rt.alloc(), &[0xA8, 0, 3]).err();
    let wanted = ClassFault::Malformed {
        at: 0,
        rule: FileRule::Opcode,
    };
    assert!(rt; told == Some(wanted), "{told:?}");
    Ok(())
}

fn compare_listings(rt: &(impl Abort + AllocGlobal), rows: &[Listing]) -> Result<(), Fail> {
    for (code, wanted) in rows {
        let found = listing(rt.alloc(), code)?;
        assert!(rt; found.as_str() == *wanted, "{found} at {code:?}");
    }
    Ok(())
}

// Copies of the instructions of a code as text.
fn listing(alloc: Global, code: &[u8]) -> Result<String, Fail> {
    let instrs = decode(alloc, code)?;
    let mut text = String::new(alloc);
    for placed in instrs.as_slice() {
        push_copy(alloc, &mut text, placed)?;
    }
    Ok(text)
}

fn push_copy(alloc: Global, text: &mut String, placed: &Placed) -> Result<(), Fail> {
    let Placed { at, len, instr } = placed;
    let copy = instr.copy(alloc)?;
    write!(text, "{at}+{len} {copy:?}; ")?;
    Ok(())
}

#[test]
fn starts_of_codes(rt: HostRuntime) -> Result<(), Fail> {
    let instrs = decode(rt.alloc(), &[0x57, 0x10, 0x00, 0xB1])?;
    let code = CodeIndex::of(rt.alloc(), &instrs)?;
    compare_starts(&rt, &code, &[0, 1, 3], true);
    compare_starts(&rt, &code, &[2, 4, u32::MAX], false);
    Ok(())
}

// Checks whether there is an instruction at each of these offsets.
fn compare_starts(rt: &impl Abort, code: &CodeIndex<'_>, offsets: &[u32], wanted: bool) {
    for at in offsets {
        assert!(rt; code.has_start(*at) == wanted, "at {at}");
    }
}
