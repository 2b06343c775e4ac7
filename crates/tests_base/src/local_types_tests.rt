use class_model::{LocalTypeList, NoMemory, VType};
use std::alloc::Global;
use std::fmt::Write;
use std::process::Abort;
use std::test::Fail;

// What is done to a list: by `p` units of a type are pushed up to a number of units, by `f` it is filled up with `Top`, and
// by `s` the unit at a place is set. A type is a number, that of `Top` is 0.
type Step = (u8, usize, u32);

// Around the ends of parts.
const PUSHED: [Step; 9] = [
    (b'f', 0, 0),
    (b'p', 1, 1),
    (b'p', 255, 2),
    (b'p', 256, 3),
    (b'p', 257, 4),
    (b'f', 257, 0),
    (b'f', 600, 0),
    (b'p', 601, 0),
    (b'p', 602, 5),
];

// How many units these make, and from which on they have which type.
const BEHIND_PUSHED: &str = "602: 0=1 1=2 255=3 256=4 257=T 601=5";

const SET: [Step; 9] = [
    (b's', 0, 6),
    (b's', 2, 7),
    (b's', 254, 8),
    (b's', 255, 9),
    (b's', 256, 1),
    (b's', 257, 2),
    (b's', 512, 3),
    (b's', 599, 4),
    (b's', 602, 5),
];

const BEHIND_SET: &str =
    "602: 0=6 1=2 2=7 3=2 254=8 255=9 256=1 257=2 258=T 512=3 513=T 599=4 600=T 601=5";

// Of a copy of 300 units of the type 1.
const COPIED: [Step; 6] = [
    (b's', 0, 2),
    (b's', 255, 3),
    (b's', 256, 4),
    (b's', 257, 5),
    (b's', 299, 6),
    (b'p', 301, 7),
];

const BEHIND_COPIED: &str = "301: 0=2 1=1 255=3 256=4 257=5 258=1 299=6 300=7";

fn unit(number: u32) -> VType {
    match number {
        0 => VType::Top,
        _ => VType::Uninit(number),
    }
}

fn change(list: &mut LocalTypeList, what: u8, number: usize, kind: u32) -> Result<(), NoMemory> {
    match what {
        b'p' => {
            while list.len() < number {
                list.push(unit(kind))?;
            }
        }
        b'f' => list.fill(number),
        _ => {
            if number < list.len() {
                list.set(number, unit(kind))?;
            }
        }
    }
    Ok(())
}

fn text_of(alloc: Global, list: &LocalTypeList) -> Result<String, Fail> {
    let mut text = format!(in alloc; "{}:", list.len())?;
    for at in 0..list.len() {
        let unit = list.get(at);
        if unit != list.get(at.wrapping_sub(1)) {
            push_unit(&mut text, at, unit)?;
        }
    }
    Ok(text)
}

fn push_unit(text: &mut String, at: usize, unit: Option<&VType>) -> Result<(), Fail> {
    match unit {
        Some(VType::Top) => write!(text, " {at}=T")?,
        Some(VType::Uninit(number)) => write!(text, " {at}={number}")?,
        _ => write!(text, " {at}=?")?,
    }
    Ok(())
}

// Changes a list by each of these steps, and compares the units behind them.
fn compare(
    rt: &(impl Abort + AllocGlobal),
    list: &mut LocalTypeList,
    rows: &[Step],
    wanted: &str,
) -> Result<(), Fail> {
    for (what, number, kind) in rows {
        change(list, *what, *number, *kind)?;
    }
    let told = text_of(rt.alloc(), list)?;
    assert!(rt; told.as_str() == wanted, "{told}");
    Ok(())
}

#[test]
fn units_are_found(rt: HostRuntime) -> Result<(), Fail> {
    let mut list = LocalTypeList::new(rt.alloc());
    assert!(rt; list.is_empty());
    compare(&rt, &mut list, &PUSHED, BEHIND_PUSHED)?;
    compare(&rt, &mut list, &SET, BEHIND_SET)
}

#[test]
fn copies_keep_their_types(rt: HostRuntime) -> Result<(), Fail> {
    let mut list = LocalTypeList::new(rt.alloc());
    change(&mut list, b'p', 300, 1)?;
    let mut copy = list.copy(rt.alloc())?;
    assert!(rt; copy == list);
    compare(&rt, &mut copy, &COPIED, BEHIND_COPIED)?;
    compare(&rt, &mut list, &[], "300: 0=1")?;
    assert!(rt; copy != list);
    Ok(())
}

#[test]
fn tops_are_compared(rt: HostRuntime) -> Result<(), Fail> {
    let mut few = LocalTypeList::new(rt.alloc());
    change(&mut few, b'p', 2, 1)?;
    let mut written = few.copy(rt.alloc())?;
    assert!(rt; compares_tops(&mut few, &mut written)?);
    Ok(())
}

// Whether two units filled with Top equal those with 298 written ones only where as many are filled, and only until others are pushed.
fn compares_tops(few: &mut LocalTypeList, written: &mut LocalTypeList) -> Result<bool, NoMemory> {
    change(written, b'p', 300, 1)?;
    for at in 2..300 {
        change(written, b's', at, 0)?;
    }
    few.fill(65_535);
    let is_short = *few != *written;
    written.fill(65_535);
    let is_same = *few == *written && written.listed() == 300 && few.listed() == 2;
    change(few, b'p', 65_536, 0)?;
    let is_long = *few != *written;
    change(written, b'p', 65_536, 1)?;
    Ok(is_short && is_same && is_long && *few != *written)
}
