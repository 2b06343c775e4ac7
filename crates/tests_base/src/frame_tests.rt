ghost use Rattle.std.specs.Prelude.{◌≡◌, IsTrue, IfOk};
ghost use Rattle.std.specs.List.{AllByRecursion};
ghost use Rattle.std.specs.Option.{is_some};
ghost use Rattle.map_frames.specs.Writing.{index_of, is_by_unit, FitsType, FitsFrame, PlacesIncrease, FitsTable};

use crate::value_tests::{push, push_text};
use class_model::{
    ClassFault, Const, FileRule, Frame, Instr, ListOf, LocalTypeList, NoMemory, Placed,
    PlacedFrame, PlacedFrameList, PlacedList, Pool, Text, VType, VTypeList,
};
use map_frames::{IndexOfText, NamedIndex, check_frames, frame_bytes, read_frames};
use std::alloc::Global;
use std::process::Abort;
use std::test::Fail;

const MAX_LOCALS: u16 = 6;

const MAX_STACK: u16 = 4;

// ---- whether a table can be written

fn is_indexed(classes: &[NamedIndex], name: &Text) -> bool
    ensures { result ≡ is_some (index_of classes.now name.now) }
{
    match classes {
        [] => false,
        [first, others @ ..] => first.class == *name || is_indexed(others, name),
    }
}

fn fits_type(classes: &[NamedIndex], kind: &VType) -> bool
    ensures { IsTrue result → FitsType classes.now kind.now }
{
    match kind {
        VType::Object(name) => is_indexed(classes, name),
        VType::Uninit(at) => *at <= 65_535,
        _ => true,
    }
}

fn fits_types(classes: &[NamedIndex], types: &[VType]) -> bool
    ensures { IsTrue result → AllByRecursion (FitsType classes.now) types.now }
{
    match types {
        [] => true,
        [first, others @ ..] => fits_type(classes, first) && fits_types(classes, others),
    }
}

fn is_by_unit(units: &[VType]) -> bool
    ensures { result ≡ is_by_unit units.now }
{
    match units {
        [] => true,
        [first, others @ ..] if matches!(first, VType::Long | VType::Double) => match others {
            [second, behind @ ..] => matches!(second, VType::Top) && is_by_unit(behind),
            [] => false,
        },
        [_, others @ ..] => is_by_unit(others),
    }
}

// The units as a list that lends them as a slice.
fn units_of(alloc: Global, locals: &LocalTypeList) -> Result<VTypeList, Fail>
    ensures { IfOk result (λ units. units ≡ locals.now) }
{
    let mut units = ListOf::new(alloc);
    while let Some(unit) = locals.get(units.len()) {
        units.push(unit.copy()?)?;
    }
    Ok(units)
}

fn fits_frame(alloc: Global, classes: &[NamedIndex], frame: &Frame) -> Result<bool, Fail>
    ensures { IfOk result (λ fits. IsTrue fits → FitsFrame classes.now frame.now) }
{
    let units = units_of(alloc, &frame.locals)?;
    let locals = units.as_slice();
    let stack = frame.stack.as_slice();
    let is_short = locals.len() <= 65_535 && stack.len() <= 65_535;
    Ok(is_short && is_by_unit(locals) && fits_types(classes, locals) && fits_types(classes, stack))
}

fn fits_frames(
    alloc: Global,
    classes: &[NamedIndex],
    from: u32,
    frames: &[PlacedFrame],
) -> Result<bool, Fail>
    ensures places { IfOk result (λ fit. IsTrue fit → PlacesIncrease from frames.now) }
    ensures each { IfOk result (λ fit.
        IsTrue fit → AllByRecursion (λ placed. FitsFrame classes.now placed.frame) frames.now) }
{
    Ok(match frames {
        [] => true,
        [first, others @ ..] => {
            from <= first.at
                && first.at <= 65_535
                && fits_frame(alloc, classes, &first.frame)?
                && fits_frames(alloc, classes, first.at + 1, others)?
        }
    })
}

fn fits_table(alloc: Global, classes: &[NamedIndex], frames: &[PlacedFrame]) -> Result<bool, Fail>
    ensures { IfOk result (λ fits. IsTrue fits → FitsTable classes.now frames.now) }
{
    Ok(frames.len() <= 65_535 && fits_frames(alloc, classes, 0, frames)?)
}

// ---- tables that are read and written

// A has the index 5, and again 9, and B has 0x0102.
const CLASSES: [(u8, u16); 3] = [(b'A', 5), (b'B', 0x0102), (b'A', 9)];

fn class_index(alloc: Global, rows: &[(u8, u16)]) -> Result<IndexOfText, Fail> {
    let mut classes = ListOf::new(alloc);
    for (name, index) in rows {
        let class = Text::of_bytes(alloc, &[*name])?;
        classes.push(NamedIndex {
            class,
            index: *index,
        })?;
    }
    Ok(classes)
}

// A pool with these classes, and at 4 a class whose name is no text.
fn pool(alloc: Global) -> Result<Pool, Fail> {
    let mut pool = Pool::new(alloc);
    push_text(alloc, &mut pool, b"A")?;
    push_text(alloc, &mut pool, b"B")?;
    push(&mut pool, Const::Integer(7))?;
    push(&mut pool, Const::Class(3))?;
    push(&mut pool, Const::Class(1))?;
    for _ in 6..258 {
        push(&mut pool, Const::Integer(7))?;
    }
    push(&mut pool, Const::Class(2))?;
    Ok(pool)
}

// Instructions at the last offset, at those below 600, and a new at 0x0304, in an order that no code has.
fn code(alloc: Global) -> Result<PlacedList, Fail> {
    let mut code = ListOf::new(alloc);
    code.push(placed(65_535, Instr::Nop))?;
    for at in 0..600 {
        code.push(placed(at, Instr::Nop))?;
    }
    code.push(placed(0x0304, Instr::New(5)))?;
    Ok(code)
}

fn placed(at: u32, instr: Instr) -> Placed {
    Placed { at, len: 1, instr }
}

// A frame with an int among its locals and an empty stack.
fn entry(alloc: Global) -> Result<Frame, Fail> {
    let mut locals = LocalTypeList::new(alloc);
    locals.push(VType::Int)?;
    locals.fill(usize::from(MAX_LOCALS));
    let stack = ListOf::new(alloc);
    Ok(Frame { locals, stack })
}

// Tables whose frames are of the first kind that fits. The first has frames of each kind, each behind a frame
// with other locals.
const TABLES: [&[u8]; 3] = [
    b"\0\x3A\0\0\0\x3F\0\xFB\0\x40\0\x7F\x02\0\xF7\0\x40\x04\xFA\0\0\x41\x07\x01\x02\
      \0\x41\x08\x03\x04\xFE\0\0\x01\x02\x05\xFA\0\0\xFC\0\0\x05\xF9\0\x01\
      \xFD\0\0\x02\x05\xF8\0\x02\xFF\0\0\0\x04\x01\x02\x05\x01\0\0\xFF\0\x03\0\0\0\0\
      \xFE\0\0\x01\0\x02\xF9\0\x04\xFF\0\0\0\x03\x04\x03\x01\0\0\xF9\0\x05\
      \xFF\0\0\0\x01\x01\0\0\xFC\0\0\x02\xFA\0\0\xFD\0\x01\x04\x03\xF9\0\0\xFD\0\x02\0\x02\
      \xF9\0\0\xFE\0\x03\x05\x06\x07\0\x05\xF8\0\0\xFF\0\x04\0\x05\x01\x02\x02\x02\x02\0\0\
      \xFF\0\0\0\x01\x01\0\0\xFF\0\x05\0\x01\x02\0\0\
      \xFF\0\0\0\x02\x01\x02\0\0\xFF\0\x06\0\x02\x01\x05\0\0\
      \xFA\0\0\xFF\0\x07\0\x02\x01\x02\0\x01\x05\xFA\0\0\xFF\0\x08\0\x01\x01\0\x02\x03\x04\
      \xFA\0\0\xFF\0\x09\0\x02\x04\x03\0\x02\x07\0\x05\x01\
      \xFF\0\0\0\x03\x01\0\x02\0\0\xFC\0\x01\x02\xFF\0\0\0\0\0\0\0\0\xFB\0\x40\
      \0\xFC\0\x05\x01\x7F\x01\0\xFC\0\0\x04\xFA\0\x08",
    b"\0\x01\xFB\xFF\xFF",
    b"\0\0",
];

// A table of one frame, which is the entry frame at 10.
const AT_TEN: &[u8] = b"\0\x01\x0A";

// A table with an object of the class whose name is no text.
const NO_TEXT: &[u8] = b"\0\x01\x40\x07\0\x04";

#[test]
fn tables(rt: HostRuntime) -> Result<(), Fail> {
    let pool = pool(rt.alloc())?;
    let code = code(rt.alloc())?;
    let entry = entry(rt.alloc())?;
    compare_tables(&rt, &pool, &code, &entry, &TABLES)?;
    compare_two(&rt, &pool, &code, &entry)
}

fn compare_tables(
    rt: &(impl Abort + AllocGlobal),
    pool: &Pool,
    code: &PlacedList,
    entry: &Frame,
    tables: &[&[u8]],
) -> Result<(), Fail> {
    for bytes in tables {
        let frames = frames_in(rt.alloc(), pool, code, entry, bytes)?;
        let is_so = is_written(rt.alloc(), entry, &frames, bytes)?;
        assert!(rt;
            is_so && are_copied(rt.alloc(), frames.as_slice())?,
            "at {bytes:?}"
        );
    }
    Ok(())
}

fn compare_two(
    rt: &(impl Abort + AllocGlobal),
    pool: &Pool,
    code: &PlacedList,
    entry: &Frame,
) -> Result<(), Fail> {
    let frames = frames_in(rt.alloc(), pool, code, entry, AT_TEN)?;
    assert!(rt;
        is_at_ten(frames.as_slice(), entry) && is_written(rt.alloc(), entry, &frames, AT_TEN)?
    );
    let told = frames_in(rt.alloc(), pool, code, entry, NO_TEXT).err();
    let wanted = ClassFault::Malformed {
        at: 2,
        rule: FileRule::FrameType,
    };
    assert!(rt; told == Some(wanted), "{told:?}");
    Ok(())
}

// Whether a copy of each frame is the same.
fn are_copied(alloc: Global, frames: &[PlacedFrame]) -> Result<bool, NoMemory> {
    for placed in frames {
        let copy = placed.frame.copy(alloc)?;
        if !copy.is_same(&placed.frame) {
            return Ok(false);
        }
    }
    Ok(true)
}

// Whether there is one frame, which is this at 10.
fn is_at_ten(frames: &[PlacedFrame], entry: &Frame) -> bool {
    match frames {
        [placed] => placed.at == 10 && placed.frame.is_same(entry),
        _ => false,
    }
}

// The frames of a table, which is checked too.
fn frames_in(
    alloc: Global,
    pool: &Pool,
    code: &PlacedList,
    entry: &Frame,
    bytes: &[u8],
) -> Result<PlacedFrameList, ClassFault> {
    check_frames(alloc, pool, entry, MAX_LOCALS, MAX_STACK, code, bytes)?;
    read_frames(alloc, pool, entry, MAX_LOCALS, MAX_STACK, code, bytes)
}

// Whether frames can be written, with these classes, and are written as these bytes.
fn is_written(
    alloc: Global,
    entry: &Frame,
    frames: &PlacedFrameList,
    bytes: &[u8],
) -> Result<bool, Fail> {
    let classes = class_index(alloc, &CLASSES)?;
    Ok(
        fits_table(alloc, classes.as_slice(), frames.as_slice())?
            && frame_bytes(alloc, entry, frames, &classes)?.as_slice() == bytes,
    )
}
