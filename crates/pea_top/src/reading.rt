//! Reading the input and the library.
ghost use Rattle.std.specs.Prelude.{◌≡◌, ◌⊎◌, Some, None, IsTrue, IsSome, IfSome, IfOk, IfErr, IsErrOf};
ghost use Rattle.std.specs.List.{AllByRecursion};
ghost use Rattle.host_tree.specs.declared.call.HostCall.{HostCall};
ghost use Rattle.host_tree.specs.Host.{Folder, SameFiles};
ghost use Rattle.class_tree.specs.Headers.{IsClassFile, IsLibraryClass};
ghost use Rattle.host_tree.specs.Counts.{NeverFalls, Rose, CountsOnly};
ghost use Rattle.class_bytes.specs.Counts.{FitsCounts};
ghost use Rattle.class_model.specs.ClassOf.{ClassOf};
ghost use Rattle.class_model.specs.Spelling.{class_bytes};
ghost use Rattle.pea_top.specs.Answer.{Refusal, IsRefusedClass};
ghost use Rattle.pea_top.specs.Folders.{AreNames, names_class_file};
ghost use Rattle.pea_top.specs.Inner.Reading.{IsReadOrWhy, IsLibraryOrWhy, IsInputOrWhy, status_of};
ghost use Rattle.pea_top.specs.Inner.ReadFiles.{AreClassesOf, IsReadClass};
ghost use Rattle.pea_top.specs.Inner.ReadingSteps.{IsCallStop, IsFileOrWhy, IsHeaderOrWhy, IsWhyNot, stop_at};
ghost use Rattle.pea_top.specs.declared.reading.ReadStop.TheVariants.{NoMemory as no_memory};

use crate::folder::{NamedFile, is_class_file};
use crate::progress::show_done;
use crate::sharing::SharedTexts;
use crate::status::Status;
use class_bytes::{push_class, read_class, read_header};
use class_model::{
    ByteList, ClassFault, ClassFile, FileRule, Header, NoMemory, a_class_file_has_no_fault,
    a_library_file_is_told_once, another_version_is_no_class_file,
};
use class_tree::{ClassFileList, HeaderList};
use explain::Side;
use host_tree::{FileName, Host, HostCall, HostFail, Progress};
use std::alloc::{AllocError, AllocFailed, Global};

/// What a command reads.
#[derive(Drop)]
pub(crate) struct Input {
    /// All files of the input, in byte order of their names.
    pub files: Vec<NamedFile>,
    /// Its class files, in the same order.
    pub classes: ClassFileList,
    /// The headers of the library's class files, in byte order of file names.
    pub headers: HeaderList,
}

/// Why the input was not read.
#[derive(Drop)]
pub(crate) enum ReadStop {
    /// A call of this kind failed.
    Fault(HostCall),
    NoMemory,
    /// This file breaks a rule, first at this place in bytes.
    Malformed {
        name: FileName,
        at: u64,
        rule: FileRule,
        file: Refused,
    },
    /// This file is of a version that is not read.
    Version {
        name: FileName,
        major: u16,
        minor: u16,
        side: Side,
    },
}

/// A file that is refused, for what is explained of it.
#[derive(Drop)]
pub(crate) struct Refused {
    pub side: Side,
    pub bytes: ByteList,
}

impl From<AllocError> for ReadStop {
    ghost from_gives = { λ _ stop. stop ≡ no_memory };

    fn from(_: AllocError) -> Self {
        ReadStop::NoMemory
    }
}

impl From<NoMemory> for ReadStop {
    ghost from_gives = { λ _ stop. stop ≡ no_memory };

    fn from(_: NoMemory) -> Self {
        ReadStop::NoMemory
    }
}

impl<T: Drop> From<AllocFailed<T>> for ReadStop {
    ghost from_gives = { λ _ stop. stop ≡ no_memory };

    fn from(_: AllocFailed<T>) -> Self {
        ReadStop::NoMemory
    }
}

/// The status of a command whose reading stops.
pub(crate) fn status_of(stop: ReadStop) -> Status
    ensures { result ≡ status_of stop }
{
    match stop {
        ReadStop::Fault(call) => Status::HostFault(call),
        ReadStop::NoMemory => Status::NoMemory,
        ReadStop::Malformed { name, at, rule, .. } => Status::Malformed { name, at, rule },
        ReadStop::Version {
            name,
            major,
            minor,
            ..
        } => Status::Version { name, major, minor },
    }
}

/// The files of the input, each class file read and written again, and the headers of the library. Both are listed
/// before a file is read.
pub(crate) fn read_input<H: Host>(
    alloc: Global,
    host: &mut H,
    folder: &str,
    library: &str,
) -> Result<Input, ReadStop>
    ensures files { IsTrue H.tells → SameFiles (H.file host.old) (H.file host.new) }
    ensures printed { IsTrue H.tells → H.printed host.new ≡ H.printed host.old }
    ensures counts { (call : HostCall)
        → NeverFalls (H.faults host.old call) (H.faults host.new call) }
    ensures print_count { H.faults host.new HostCall.Print ≡ H.faults host.old HostCall.Print }
    ensures write_count { H.faults host.new HostCall.Write ≡ H.faults host.old HostCall.Write }
    ensures found { IsTrue H.tells
        → IsInputOrWhy (H.file host.old folder.now) (H.file host.old library.now) result }
    ensures pairs { IfOk result (λ input. AreClassesOf input.files.items input.classes) }
    ensures classes { IfOk result (λ input. AllByRecursion IsClassFile input.classes) }
    ensures headers { IfOk result (λ input. AllByRecursion IsLibraryClass input.headers) }
    ensures fault { (call : HostCall)
        → IsErrOf result (ReadStop.Fault call)
        → ((call ≡ HostCall.List) ⊎ (call ≡ HostCall.Read)) }
    ensures cause { (call : HostCall)
        → IsErrOf result (ReadStop.Fault call)
        → Rose (H.faults host.old call) (H.faults host.new call) }
{
    let names = list_names(alloc, host, folder)?;
    let library_names = list_names(alloc, host, library)?;
    let (files, classes) = read_files(alloc, host, folder, names)?;
    let headers = read_library(alloc, host, library, library_names)?;
    Ok(Input {
        files,
        classes,
        headers,
    })
}

/// The names of a folder, in byte order.
fn list_names<H: Host>(alloc: Global, host: &mut H, root: &str) -> Result<Vec<FileName>, ReadStop>
    ensures files { IsTrue H.tells → SameFiles (H.file host.old) (H.file host.new) }
    ensures printed { IsTrue H.tells → H.printed host.new ≡ H.printed host.old }
    ensures counts { CountsOnly HostCall.List (H.faults host.old) (H.faults host.new) }
    ensures names { IsTrue H.tells
        → IfOk result (λ names. AreNames (H.file host.old root.now) names.items) }
    ensures stop { IfErr result
        (IsCallStop HostCall.List
        (Rose (H.faults host.old HostCall.List) (H.faults host.new HostCall.List))) }
{
    let mut names = match host.list(alloc, root, u64::MAX) {
        Ok(names) => names.into_vec(),
        Err(HostFail::Failed) => return Err(ReadStop::Fault(HostCall::List)),
        Err(HostFail::NoMemory) => return Err(ReadStop::NoMemory),
        Err(HostFail::Absent) => unreachable!(),
    };
    names.sort()?;
    Ok(names)
}

/// The files with these names, which are those of the folder in byte order, and its class files.
fn read_files<H: Host>(
    alloc: Global,
    host: &mut H,
    root: &str,
    names: Vec<FileName>,
) -> Result<(Vec<NamedFile>, ClassFileList), ReadStop>
    requires { IsTrue H.tells → AreNames (H.file host.old root.now) names.items }
    ensures files { IsTrue H.tells → SameFiles (H.file host.old) (H.file host.new) }
    ensures printed { IsTrue H.tells → H.printed host.new ≡ H.printed host.old }
    ensures counts { CountsOnly HostCall.Read (H.faults host.old) (H.faults host.new) }
    ensures found { IsTrue H.tells → IsReadOrWhy (H.file host.old root.now) result }
    ensures pairs { IfOk result (λ read. AreClassesOf read.0.items read.1) }
    ensures classes { IfOk result (λ read. AllByRecursion IsClassFile read.1) }
    ensures cause { (call : HostCall)
        → IsErrOf result (ReadStop.Fault call)
        → (call ≡ HostCall.Read)
        × Rose (H.faults host.old HostCall.Read) (H.faults host.new HostCall.Read) }
{
    let of = names.len() as u64;
    let mut files = Vec::with_capacity(alloc, names.len())?;
    let mut classes = ClassFileList::new(alloc);
    for name in names {
        let read = files.len() as u64;
        let (file, class) = read_file(alloc, host, root, name, Progress::Input { read, of })?;
        files.push(file)?;
        if let Some(class) = class {
            classes.push(class)?;
        }
    }
    Ok((files, classes))
}

/// The file with this name, which the folder has, and its class where it is a class file. It shows the progress before it.
fn read_file<H: Host>(
    alloc: Global,
    host: &mut H,
    root: &str,
    name: FileName,
    progress: Progress,
) -> Result<(NamedFile, Option<ClassFile>), ReadStop>
    requires { IsTrue H.tells → IsSome (H.file host.old root.now name) }
    ensures files { IsTrue H.tells → SameFiles (H.file host.old) (H.file host.new) }
    ensures printed { IsTrue H.tells → H.printed host.new ≡ H.printed host.old }
    ensures counts { CountsOnly HostCall.Read (H.faults host.old) (H.faults host.new) }
    ensures found { IsTrue H.tells → IsFileOrWhy (H.file host.old root.now) name result }
    ensures pair { IfOk result (λ read. IsReadClass read.0 read.1) }
    ensures class_file { IfOk result (λ read. IfSome read.1 IsClassFile) }
    ensures cause { (call : HostCall)
        → IsErrOf result (ReadStop.Fault call)
        → (call ≡ HostCall.Read)
        × Rose (H.faults host.old HostCall.Read) (H.faults host.new HostCall.Read) }
{
    show_done(host, progress);
    let bytes = read_bytes(alloc, host, root, name.as_str())?;
    file_of(alloc, name, bytes)
}

/// All bytes of a file that the folder has.
fn read_bytes<H: Host>(
    alloc: Global,
    host: &mut H,
    root: &str,
    name: &str,
) -> Result<ByteList, ReadStop>
    requires { IsTrue H.tells → IsSome (H.file host.old root.now name.now) }
    ensures files { IsTrue H.tells → SameFiles (H.file host.old) (H.file host.new) }
    ensures printed { IsTrue H.tells → H.printed host.new ≡ H.printed host.old }
    ensures counts { CountsOnly HostCall.Read (H.faults host.old) (H.faults host.new) }
    ensures bytes { IsTrue H.tells
        → IfOk result (λ bytes. H.file host.old root.now name.now ≡ Some bytes) }
    ensures stop { IfErr result
        (IsCallStop HostCall.Read
        (Rose (H.faults host.old HostCall.Read) (H.faults host.new HostCall.Read))) }
{
    match read_whole(alloc, host, root, name) {
        Ok(bytes) => Ok(bytes),
        Err(HostFail::NoMemory) => Err(ReadStop::NoMemory),
        Err(HostFail::Failed | HostFail::Absent) => Err(ReadStop::Fault(HostCall::Read)),
    }
}

/// All bytes of a file.
pub(crate) fn read_whole<H: Host>(
    alloc: Global,
    host: &mut H,
    root: &str,
    name: &str,
) -> Result<ByteList, HostFail>
    ensures files { IsTrue H.tells → SameFiles (H.file host.old) (H.file host.new) }
    ensures printed { IsTrue H.tells → H.printed host.new ≡ H.printed host.old }
    ensures counts { CountsOnly HostCall.Read (H.faults host.old) (H.faults host.new) }
    ensures bytes { IsTrue H.tells
        → IfOk result (λ bytes. H.file host.old root.now name.now ≡ Some bytes) }
    ensures failed { IsErrOf result HostFail.Failed
        → Rose (H.faults host.old HostCall.Read) (H.faults host.new HostCall.Read) }
    ensures absent { IsTrue H.tells
        → IsErrOf result HostFail.Absent
        → H.file host.old root.now name.now ≡ None }
    ensures absent_untold { IsErrOf result HostFail.Absent
        → IsTrue H.tells ⊎ Rose (H.faults host.old HostCall.Read) (H.faults host.new HostCall.Read) }
{
    match host.read(alloc, root, name, u64::MAX) {
        // A vector holds fewer than 2^63 bytes, so these are all.
        Ok(bytes) => Ok(ByteList::from_vec(bytes.into_vec())),
        Err(fail) => Err(fail),
    }
}

/// The file of this name and these bytes. A class file is read and written again.
fn file_of(
    alloc: Global,
    name: FileName,
    bytes: ByteList,
) -> Result<(NamedFile, Option<ClassFile>), ReadStop>
    ensures file { (folder : Folder) → folder name ≡ Some bytes → IsFileOrWhy folder name result }
    ensures pair { IfOk result (λ read. IsReadClass read.0 read.1) }
    ensures class_file { IfOk result (λ read. IfSome read.1 IsClassFile) }
    ensures no_fault { (call : HostCall) → ¬ IsErrOf result (ReadStop.Fault call) }
{
    if !is_class_file(&name) {
        return Ok((NamedFile { name, bytes }, None));
    }
    match class_of(alloc, &bytes) {
        Ok(class) => {
            let bytes = written_again(bytes, &class)?;
            Ok((NamedFile { name, bytes }, Some(class)))
        }
        Err(fault) => Err(stop_of(Side::Input, name, bytes, fault)),
    }
}

/// The class file that these bytes are read as.
pub(crate) fn class_of(alloc: Global, bytes: &ByteList) -> Result<ClassFile, ClassFault>
    ensures class { IfOk result (λ class. ClassOf bytes.now class) }
    ensures class_file { IfOk result IsClassFile }
    ensures fits { IfOk result FitsCounts }
    ensures spelled { IfOk result (λ class. bytes.now ≡ class_bytes class) }
    ensures not_refused { IfOk result (λ _. (why : Refusal) → ¬ IsRefusedClass bytes.now why) }
    ensures fault { IfErr result (IsWhyNot bytes.now) }
{
    a_class_file_has_no_fault();
    another_version_is_no_class_file();
    read_class(alloc, bytes.as_slice())
}

/// Why reading stops at a file of this name and these bytes.
fn stop_of(side: Side, name: FileName, bytes: ByteList, fault: ClassFault) -> ReadStop
    ensures { result ≡ stop_at side name bytes fault }
{
    match fault {
        ClassFault::Malformed { at, rule } => {
            let file = Refused { side, bytes };
            ReadStop::Malformed {
                name,
                at,
                rule,
                file,
            }
        }
        ClassFault::Version { major, minor } => ReadStop::Version {
            name,
            major,
            minor,
            side,
        },
        ClassFault::NoMemory => ReadStop::NoMemory,
    }
}

/// The bytes of the class file that these bytes are read as, in their memory.
fn written_again(bytes: ByteList, class: &ClassFile) -> Result<ByteList, NoMemory>
    requires fits { FitsCounts class.now }
    requires spelled { bytes ≡ class_bytes class.now }
    ensures { IfOk result (λ written. written ≡ bytes) }
{
    let mut written = bytes.into_vec();
    written.clear();
    push_class(&mut written, class)?;
    Ok(ByteList::from_vec(written))
}

/// The headers of the class files among these names, which are those of the library in byte order. The bytes of a file
/// are let go as soon as its header is read, and headers share texts.
fn read_library<H: Host>(
    alloc: Global,
    host: &mut H,
    root: &str,
    names: Vec<FileName>,
) -> Result<HeaderList, ReadStop>
    requires { IsTrue H.tells → AreNames (H.file host.old root.now) names.items }
    ensures files { IsTrue H.tells → SameFiles (H.file host.old) (H.file host.new) }
    ensures printed { IsTrue H.tells → H.printed host.new ≡ H.printed host.old }
    ensures counts { CountsOnly HostCall.Read (H.faults host.old) (H.faults host.new) }
    ensures found { IsTrue H.tells → IsLibraryOrWhy (H.file host.old root.now) result }
    ensures headers { IfOk result (AllByRecursion IsLibraryClass) }
    ensures cause { (call : HostCall)
        → IsErrOf result (ReadStop.Fault call)
        → (call ≡ HostCall.Read)
        × Rose (H.faults host.old HostCall.Read) (H.faults host.new HostCall.Read) }
{
    let of = names.len() as u64;
    let mut headers = HeaderList::new(alloc);
    let mut texts = SharedTexts::new(alloc)?;
    for name in names {
        if is_class_file(&name) {
            let read = headers.len() as u64;
            let progress = Progress::Library { read, of };
            headers.push(read_library_file(alloc, host, root, name, &mut texts, progress)?)?;
        }
    }
    Ok(headers)
}

/// The header of the class file of this name, which the library has. It shows the progress before it.
fn read_library_file<H: Host>(
    alloc: Global,
    host: &mut H,
    root: &str,
    name: FileName,
    texts: &mut SharedTexts,
    progress: Progress,
) -> Result<Header, ReadStop>
    requires there { IsTrue H.tells → IsSome (H.file host.old root.now name) }
    requires named { IsTrue (names_class_file name) }
    ensures files { IsTrue H.tells → SameFiles (H.file host.old) (H.file host.new) }
    ensures printed { IsTrue H.tells → H.printed host.new ≡ H.printed host.old }
    ensures counts { CountsOnly HostCall.Read (H.faults host.old) (H.faults host.new) }
    ensures found { IsTrue H.tells → IsHeaderOrWhy (H.file host.old root.now) name result }
    ensures header { IfOk result IsLibraryClass }
    ensures cause { (call : HostCall)
        → IsErrOf result (ReadStop.Fault call)
        → (call ≡ HostCall.Read)
        × Rose (H.faults host.old HostCall.Read) (H.faults host.new HostCall.Read) }
{
    show_done(host, progress);
    let bytes = read_bytes(alloc, host, root, name.as_str())?;
    header_of(alloc, name, bytes, texts)
}

/// The header of the class file of this name and these bytes.
fn header_of(
    alloc: Global,
    name: FileName,
    bytes: ByteList,
    texts: &mut SharedTexts,
) -> Result<Header, ReadStop>
    requires { IsTrue (names_class_file name) }
    ensures found { (library : Folder)
        → library name ≡ Some bytes
        → IsHeaderOrWhy library name result }
    ensures header { IfOk result IsLibraryClass }
    ensures no_fault { (call : HostCall) → ¬ IsErrOf result (ReadStop.Fault call) }
{
    a_library_file_is_told_once();
    match read_header(alloc, bytes.as_slice()) {
        Ok(header) => Ok(texts.header(alloc, &header)?),
        Err(fault) => Err(stop_of(Side::Library, name, bytes, fault)),
    }
}
