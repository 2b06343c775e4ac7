ghost use Rattle.std.specs.Prelude.{◌<◌};
ghost use Rattle.code_bytes.specs.Encoding.{HasSpelling};

use class_model::{Imm, Instr, Kind, ListOf, Pair};
use code_bytes::{code_len, encode_one};
use std::alloc::Global;
use std::process::Abort;

// The instruction at this offset is written as these bytes, and counted as they are.
fn written(rt: &(impl Abort + AllocGlobal), instr: Instr, at: u32, bytes: &[u8])
    requires { HasSpelling at instr }
{
    let is_so = is_written(rt.alloc(), &instr, at, bytes);
    assert!(rt; is_so, "{instr:?} at {at}");
}

fn is_written(alloc: Global, instr: &Instr, at: u32, bytes: &[u8]) -> bool
    requires { HasSpelling at instr.now }
{
    let is_counted = code_len(instr, at) as usize == bytes.len();
    match encode_one(alloc, instr, at) {
        Ok(out) => is_counted && out.as_slice() == bytes,
        Err(_) => false,
    }
}

// A tableswitch of the keys -1 and 0, with the targets 40, 50 and 0.
fn table_written(rt: &(impl Abort + AllocGlobal), at: u32, bytes: &[u8])
    requires { at < 100 }
{
    let targets = Vec::from_slice(rt.alloc(), &[50, 0]).expect(rt, "memory");
    let instr = Instr::Table {
        low: -1,
        other: 40,
        targets: ListOf::from_vec(targets),
    };
    written(rt, instr, at, bytes);
}

// A lookupswitch of the keys -5 and 7, with the targets 40, 50 and 0.
fn lookup_written(rt: &(impl Abort + AllocGlobal), at: u32, bytes: &[u8])
    requires { at < 100 }
{
    let pairs = [Pair { key: -5, to: 50 }, Pair { key: 7, to: 0 }];
    let pairs = Vec::from_array(rt.alloc(), pairs).expect(rt, "memory");
    let instr = Instr::Lookup {
        other: 40,
        pairs: ListOf::from_vec(pairs),
    };
    written(rt, instr, at, bytes);
}

#[test]
fn constants(rt: HostRuntime) {
    written(&rt, Instr::Const(Imm::Null), 0, &[0x01]);
    written(&rt, Instr::Const(Imm::Int(-1)), 0, &[0x02]);
    written(&rt, Instr::Const(Imm::Int(5)), 0, &[0x08]);
    written(&rt, Instr::Const(Imm::Int(6)), 0, &[0x10, 6]);
    written(&rt, Instr::Const(Imm::Int(-2)), 0, &[0x10, 0xFE]);
    written(&rt, Instr::Const(Imm::Int(127)), 0, &[0x10, 0x7F]);
    written(&rt, Instr::Const(Imm::Int(-128)), 0, &[0x10, 0x80]);
    written(&rt, Instr::Const(Imm::Int(128)), 0, &[0x11, 0, 0x80]);
    written(&rt, Instr::Const(Imm::Int(-129)), 0, &[0x11, 0xFF, 0x7F]);
    written(&rt, Instr::Const(Imm::Int(32_767)), 0, &[0x11, 0x7F, 0xFF]);
    written(&rt, Instr::Const(Imm::Int(-32_768)), 0, &[0x11, 0x80, 0]);
    written(&rt, Instr::Const(Imm::Long(1)), 0, &[0x0A]);
    written(&rt, Instr::Const(Imm::Float(0x4000_0000)), 0, &[0x0D]);
    written(
        &rt,
        Instr::Const(Imm::Double(0x3FF0_0000_0000_0000)),
        0,
        &[0x0F],
    );
    written(&rt, Instr::Ldc(255), 0, &[0x12, 0xFF]);
    written(&rt, Instr::Ldc(256), 0, &[0x13, 1, 0]);
    written(&rt, Instr::Ldc2(1), 0, &[0x14, 0, 1]);
}

#[test]
fn locals(rt: HostRuntime) {
    written(&rt, Instr::Load(Kind::Int, 3), 0, &[0x1D]);
    written(&rt, Instr::Load(Kind::Ref, 3), 0, &[0x2D]);
    written(&rt, Instr::Load(Kind::Long, 4), 0, &[0x16, 4]);
    written(&rt, Instr::Load(Kind::Ref, 255), 0, &[0x19, 0xFF]);
    written(&rt, Instr::Load(Kind::Int, 256), 0, &[0xC4, 0x15, 1, 0]);
    written(&rt, Instr::Load(Kind::Int, 300), 0, &[0xC4, 0x15, 1, 0x2C]);
    written(&rt, Instr::Store(Kind::Float, 0), 0, &[0x43]);
    written(&rt, Instr::Store(Kind::Double, 4), 0, &[0x39, 4]);
    written(&rt, Instr::Store(Kind::Ref, 256), 0, &[0xC4, 0x3A, 1, 0]);
    written(&rt, Instr::Iinc(255, 127), 0, &[0x84, 0xFF, 0x7F]);
    written(&rt, Instr::Iinc(255, -128), 0, &[0x84, 0xFF, 0x80]);
    written(&rt, Instr::Iinc(256, 1), 0, &[0xC4, 0x84, 1, 0, 0, 1]);
    written(&rt, Instr::Iinc(1, 128), 0, &[0xC4, 0x84, 0, 1, 0, 0x80]);
    written(
        &rt,
        Instr::Iinc(1, -129),
        0,
        &[0xC4, 0x84, 0, 1, 0xFF, 0x7F],
    );
}

#[test]
fn jumps(rt: HostRuntime) {
    written(&rt, Instr::If(0x99, 2), 5, &[0x99, 0xFF, 0xFD]);
    written(&rt, Instr::If2(0xA4, 8), 5, &[0xA4, 0, 3]);
    written(&rt, Instr::IfSame(0xA5, 5), 5, &[0xA5, 0, 0]);
    written(&rt, Instr::IfNull(0xC7, 32_772), 5, &[0xC7, 0x7F, 0xFF]);
    written(&rt, Instr::Goto(32_768), 1, &[0xA7, 0x7F, 0xFF]);
    written(&rt, Instr::Goto(32_769), 1, &[0xC8, 0, 0, 0x80, 0]);
    written(&rt, Instr::Goto(1), 32_769, &[0xA7, 0x80, 0]);
    written(&rt, Instr::Goto(1), 32_770, &[0xC8, 0xFF, 0xFF, 0x7F, 0xFF]);
}

// The bytes of a switch at the offsets from 0 on.
const TABLES: [&[u8]; 4] = [
    b"\xAA\0\0\0\0\0\0\x28\xFF\xFF\xFF\xFF\0\0\0\0\0\0\0\x32\0\0\0\0",
    b"\xAA\0\0\0\0\0\x27\xFF\xFF\xFF\xFF\0\0\0\0\0\0\0\x31\xFF\xFF\xFF\xFF",
    b"\xAA\0\0\0\0\x26\xFF\xFF\xFF\xFF\0\0\0\0\0\0\0\x30\xFF\xFF\xFF\xFE",
    b"\xAA\0\0\0\x25\xFF\xFF\xFF\xFF\0\0\0\0\0\0\0\x2F\xFF\xFF\xFF\xFD",
];

const LOOKUPS: [&[u8]; 4] = [
    b"\xAB\0\0\0\0\0\0\x28\0\0\0\x02\xFF\xFF\xFF\xFB\0\0\0\x32\0\0\0\x07\0\0\0\0",
    b"\xAB\0\0\0\0\0\x27\0\0\0\x02\xFF\xFF\xFF\xFB\0\0\0\x31\0\0\0\x07\xFF\xFF\xFF\xFF",
    b"\xAB\0\0\0\0\x26\0\0\0\x02\xFF\xFF\xFF\xFB\0\0\0\x30\0\0\0\x07\xFF\xFF\xFF\xFE",
    b"\xAB\0\0\0\x25\0\0\0\x02\xFF\xFF\xFF\xFB\0\0\0\x2F\0\0\0\x07\xFF\xFF\xFF\xFD",
];

#[test]
fn switches(rt: HostRuntime) {
    tables_written(&rt, &TABLES);
    lookups_written(&rt, &LOOKUPS);
}

fn tables_written(rt: &(impl Abort + AllocGlobal), rows: &[&[u8]]) {
    for (at, bytes) in rows.iter().enumerate() {
        let at = u32::try_from(at).unwrap_or(u32::MAX);
        assert!(rt; at < 100);
        table_written(rt, at, bytes);
    }
}

fn lookups_written(rt: &(impl Abort + AllocGlobal), rows: &[&[u8]]) {
    for (at, bytes) in rows.iter().enumerate() {
        let at = u32::try_from(at).unwrap_or(u32::MAX);
        assert!(rt; at < 100);
        lookup_written(rt, at, bytes);
    }
}

#[test]
fn others(rt: HostRuntime) {
    written(&rt, Instr::Nop, 0, &[0x00]);
    written(&rt, Instr::ArrayLoad(0x2E), 0, &[0x2E]);
    written(&rt, Instr::ArrayStore(0x56), 0, &[0x56]);
    written(&rt, Instr::Shuffle(0x57), 0, &[0x57]);
    written(&rt, Instr::Pure(0x60), 0, &[0x60]);
    written(&rt, Instr::Divide(0x6C), 0, &[0x6C]);
    written(&rt, Instr::FloatAsk(0x98), 0, &[0x98]);
    written(&rt, Instr::Return(None), 0, &[0xB1]);
    written(&rt, Instr::Return(Some(Kind::Ref)), 0, &[0xB0]);
    written(&rt, Instr::GetStatic(258), 0, &[0xB2, 1, 2]);
    written(&rt, Instr::PutField(258), 0, &[0xB5, 1, 2]);
    written(&rt, Instr::Invoke(0xB6, 258, 0), 0, &[0xB6, 1, 2]);
    written(&rt, Instr::Invoke(0xB9, 258, 3), 0, &[0xB9, 1, 2, 3, 0]);
    written(&rt, Instr::Dynamic(258), 0, &[0xBA, 1, 2, 0, 0]);
    written(&rt, Instr::NewArray(11), 0, &[0xBC, 11]);
    written(&rt, Instr::NewMulti(258, 2), 0, &[0xC5, 1, 2, 2]);
    written(&rt, Instr::Length, 0, &[0xBE]);
    written(&rt, Instr::InstanceOf(258), 0, &[0xC1, 1, 2]);
    written(&rt, Instr::Leave, 0, &[0xC3]);
}
