use class_model::ListOf;
use host_tree::{FileNameList, Host, HostCall, HostFail, MemoryHost, RealHost};
use std::alloc::Global;
use std::fs;
use std::process::Abort;
use std::test::Fail;

/// The folder of the test of real files.
const ROOT: &str = "tree_of_a_test";

/// What is written: the first so many of these bytes.
const BYTES: &[u8] = &[1, 2, 3, 4, 5, 6, 7, 8, 9];

/// A call with a name, how many bytes or names are asked for, and the answer.
type Step = (HostCall, &'static str, u64, &'static str);

/// Calls of any host, of a root without other files.
const STEPS: [Step; 12] = [
    (HostCall::Write, "a/b/C.class", 2, "done"),
    (HostCall::Write, "D.class", 8, "done"),
    (HostCall::Write, "a/b/C.class", 5, "done"),
    (HostCall::List, "", 10, "2"),
    (HostCall::List, "", 1, "1"),
    (HostCall::List, "", 0, "0"),
    (HostCall::Read, "a/b/C.class", 100, "[1, 2, 3, 4, 5]"),
    (HostCall::Read, "D.class", 3, "[1, 2, 3]"),
    (HostCall::Read, "D.class", 0, "[]"),
    (HostCall::Read, "C.class", 100, "Absent"),
    (HostCall::Read, "a/b/C.clas", 100, "Absent"),
    (HostCall::Read, "a/b/C.class2", 100, "Absent"),
];

/// Those of a root that is not there.
const NOWHERE: [Step; 1] = [(HostCall::List, "", 10, "0")];

/// Of the host in memory.
const TOLD: [Step; 4] = [
    (HostCall::Read, "a", 100, "Absent"),
    (HostCall::Read, "E.class", 9, "Absent"),
    (HostCall::Print, "one ", 0, "done"),
    (HostCall::Print, "two", 0, "done"),
];

/// Of one that refuses the first five. A read of a name that is not there is told.
const REFUSED: [Step; 6] = [
    (HostCall::List, "", 9, "Failed"),
    (HostCall::Read, "C.class", 9, "Failed"),
    (HostCall::Write, "C.class", 3, "Failed"),
    (HostCall::Print, "lost", 0, "Failed"),
    (HostCall::Read, "D.class", 9, "Absent"),
    (HostCall::Read, "C.class", 9, "[7]"),
];

/// Of the real one.
const REAL: [Step; 3] = [
    (HostCall::Read, "a", 9, "Failed"),
    (HostCall::Read, "F.class", 9, "Absent"),
    (HostCall::Print, "", 0, "done"),
];

/// Compares the answers of calls, through the bound.
fn compare<H: Host>(
    rt: &(impl Abort + AllocGlobal),
    host: &mut H,
    root: &str,
    rows: &[Step],
) -> Result<(), Fail> {
    for (call, name, most, wanted) in rows {
        let told = answer(rt.alloc(), host, *call, root, name, *most)?;
        assert!(rt; told.as_str() == *wanted, "{told} at {call:?} of {name}");
    }
    Ok(())
}

fn answer<H: Host>(
    alloc: Global,
    host: &mut H,
    call: HostCall,
    root: &str,
    name: &str,
    most: u64,
) -> Result<String, Fail> {
    match call {
        HostCall::List => match host.list(alloc, root, most) {
            Ok(names) => Ok(format!(in alloc; "{}", names.len())?),
            Err(fault) => Ok(format!(in alloc; "{fault:?}")?),
        },
        HostCall::Read => match host.read(alloc, root, name, most) {
            Ok(bytes) => Ok(format!(in alloc; "{:?}", bytes.as_slice())?),
            Err(fault) => Ok(format!(in alloc; "{fault:?}")?),
        },
        HostCall::Write => {
            let count = usize::try_from(most).unwrap_or(0);
            let bytes = BYTES.get(..count).unwrap_or(&[]);
            done(alloc, host.write(alloc, root, name, bytes))
        }
        HostCall::Print => done(alloc, host.print(alloc, name.as_bytes())),
    }
}

fn done(alloc: Global, came: Result<(), HostFail>) -> Result<String, Fail> {
    Ok(match came {
        Ok(()) => String::from_str(alloc, "done")?,
        Err(fault) => format!(in alloc; "{fault:?}")?,
    })
}

/// Compares the answers of any host, and the names that it lists.
fn writes_and_reads<H: Host>(
    rt: &(impl Abort + AllocGlobal),
    host: &mut H,
    root: &str,
) -> Result<(), Fail> {
    compare(rt, host, root, &STEPS)?;
    compare(rt, host, "nowhere", &NOWHERE)?;
    assert!(rt; has_both(rt.alloc(), host, root)?);
    Ok(())
}

/// Whether both names of a root are listed.
fn has_both<H: Host>(alloc: Global, host: &mut H, root: &str) -> Result<bool, HostFail> {
    let names = host.list(alloc, root, 10)?;
    Ok(has_name(&names, "a/b/C.class") && has_name(&names, "D.class"))
}

fn has_name(names: &FileNameList, wanted: &str) -> bool {
    for name in names.as_slice() {
        if name.as_str() == wanted {
            return true;
        }
    }
    false
}

/// Whether a file of a host has these bytes.
fn is_file(host: &MemoryHost, root: &str, name: &str, wanted: &[u8]) -> bool {
    match host.file(root, name) {
        Some(bytes) => bytes == wanted,
        None => false,
    }
}

/// Whether calls of each kind have failed so often.
fn has_faults(host: &MemoryHost, wanted: u64) -> bool {
    let is_so = host.faults(HostCall::List) == wanted && host.faults(HostCall::Read) == wanted;
    is_so && host.faults(HostCall::Write) == wanted && host.faults(HostCall::Print) == wanted
}

#[test]
fn memory_tells(rt: HostRuntime) -> Result<(), Fail> {
    let mut host = MemoryHost::new(rt.alloc(), ListOf::new(rt.alloc()))?;
    tells(&rt, &mut host)
}

fn tells(rt: &(impl Abort + AllocGlobal), host: &mut MemoryHost) -> Result<(), Fail> {
    host.put(rt.alloc(), "out", "D.class", b"old")?;
    host.put(rt.alloc(), "in", "D.class", b"other")?;
    writes_and_reads(rt, host, "out")?;
    compare(rt, host, "out", &TOLD)?;
    let is_so = host.printed() == b"one two".as_slice() && has_faults(host, 0);
    assert!(rt; is_so && is_file(host, "in", "D.class", b"other"));
    assert!(rt; host.file("out", "E.class").is_none());
    Ok(())
}

#[test]
fn memory_refuses(rt: HostRuntime) -> Result<(), Fail> {
    let fail = Vec::from_slice(rt.alloc(), &[0, 1, 2, 3, 4])?;
    let mut host = MemoryHost::new(rt.alloc(), ListOf::from_vec(fail))?;
    host.put(rt.alloc(), "in", "C.class", &[7])?;
    compare(&rt, &mut host, "in", &REFUSED)?;
    assert!(rt; has_faults(&host, 1) && host.printed().is_empty());
    Ok(())
}

#[test]
fn real_files(rt: HostRuntime) -> Result<(), Fail> {
    let mut host = RealHost::new(rt, &rt.stderr());
    let _ = fs::remove_dir_all(&rt, ROOT);
    writes_and_reads(&rt, &mut host, ROOT)?;
    compare(&rt, &mut host, ROOT, &REAL)?;
    fs::remove_dir_all(&rt, ROOT)?;
    Ok(())
}
