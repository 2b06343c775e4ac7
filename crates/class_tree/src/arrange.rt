//! The first step: classes in byte order of their names, none of which stands twice.
ghost use Rattle.std.specs.Prelude.{◌≡◌, ◌≤◌, ℕ, List, [], map, unwrap_or, IfOk, IfSome, IfNone, IsPermutation};
ghost use Rattle.std.specs.List.{AllByRecursion};
ghost use Rattle.std.specs.Option.{option_copied};
ghost use Rattle.class_model.specs.Header.{header_of};
ghost use Rattle.class_model.specs.PoolChecks.{utf8_at};
ghost use Rattle.class_tree.specs.Headers.{Name, IsClassFile};
ghost use Rattle.class_tree.specs.Trees.{AreHeadersInOrder, IsBefore, times};

use crate::guesses::NameGuesses;
use crate::headers::Headers;
use crate::tree::{ClassFileList, HeaderList};
use class_model::{
    ClassFile, Field, Header, ListOf, Member, MemberList, Method, NoMemory, Pool, Text, TextList,
};
use std::alloc::Global;

/// The class files in byte order of their names.
pub(crate) fn sort_folder(alloc: Global, folder: ClassFileList) -> Result<ClassFileList, NoMemory>
    requires { AllByRecursion IsClassFile folder }
    ensures same { IfOk result (λ sorted. IsPermutation folder sorted) }
    ensures sorted { IfOk result (λ sorted. AreHeadersInOrder (map header_of sorted)) }
    ensures class_files { IfOk result (λ sorted. AllByRecursion IsClassFile sorted) }
{
    let mut classes = folder.into_vec();
    classes.sort_by(|one, other| name_of(one).cmp(name_of(other)))?;
    Ok(ListOf::from_vec(classes))
}

/// The headers in byte order of their names.
pub(crate) fn sort_library(alloc: Global, library: HeaderList) -> Result<HeaderList, NoMemory>
    ensures same { IfOk result (λ sorted. IsPermutation library sorted) }
    ensures sorted { IfOk result (λ sorted. AreHeadersInOrder sorted) }
{
    let mut headers = library.into_vec();
    headers.sort_by(|one, other| one.name.bytes().cmp(other.name.bytes()))?;
    Ok(ListOf::from_vec(headers))
}

// The name of a class file.
fn name_of(class: &ClassFile) -> &[u8]
    ensures { result.now ≡ (header_of class.now).name }
{
    match class.pool.class_name(class.this_class) {
        Some(name) => name.bytes(),
        None => &[],
    }
}

/// The headers of class files, whose numbers are added to the guesses.
pub(crate) fn headers_of(
    alloc: Global,
    folder: &[ClassFile],
    guesses: &mut NameGuesses,
) -> Result<Vec<Header>, NoMemory>
    ensures { IfOk result (λ headers. headers.items ≡ map header_of folder.now) }
{
    let mut headers = Vec::with_capacity(alloc, folder.len())?;
    for class in folder {
        let header = header_of(alloc, class)?;
        guesses.add(header.name.bytes(), headers.len());
        headers.push(header)?;
    }
    Ok(headers)
}

/// Adds the numbers of the classes of a library, which stand behind so many others.
pub(crate) fn add_library(guesses: &mut NameGuesses, before: usize, library: &[Header]) {
    for (place, header) in library.iter().enumerate() {
        guesses.add(header.name.bytes(), before.saturating_add(place));
    }
}

// The header of a class file.
fn header_of(alloc: Global, class: &ClassFile) -> Result<Header, NoMemory>
    ensures { IfOk result (λ header. header ≡ header_of class.now) }
{
    Ok(Header {
        name: text_or_empty(alloc, class.pool.class_name(class.this_class))?,
        flags: class.flags,
        super_name: text_or_none(class.pool.class_name(class.super_class))?,
        interfaces: interfaces_of(alloc, class)?,
        fields: fields_of(alloc, class)?,
        methods: methods_of(alloc, class)?,
    })
}

// The interfaces of a class file, by name.
fn interfaces_of(alloc: Global, class: &ClassFile) -> Result<TextList, NoMemory>
    ensures { IfOk result (λ names. names ≡ (header_of class.now).interfaces) }
{
    let mut names = ListOf::new(alloc);
    for index in class.interfaces.as_slice() {
        names.push(text_or_empty(alloc, class.pool.class_name(*index))?)?;
    }
    Ok(names)
}

// The fields of a class file, as members.
fn fields_of(alloc: Global, class: &ClassFile) -> Result<MemberList, NoMemory>
    ensures { IfOk result (λ members. members ≡ (header_of class.now).fields) }
{
    let mut members = ListOf::new(alloc);
    for field in class.fields.as_slice() {
        members.push(member(alloc, &class.pool, field.flags, field.name, field.desc)?)?;
    }
    Ok(members)
}

// The methods of a class file, as members.
fn methods_of(alloc: Global, class: &ClassFile) -> Result<MemberList, NoMemory>
    ensures { IfOk result (λ members. members ≡ (header_of class.now).methods) }
{
    let mut members = ListOf::new(alloc);
    for method in class.methods.as_slice() {
        members.push(member(alloc, &class.pool, method.flags, method.name, method.desc)?)?;
    }
    Ok(members)
}

// A member with the texts that indices name.
fn member(alloc: Global, pool: &Pool, flags: u16, name: u16, desc: u16) -> Result<Member, NoMemory>
    ensures { IfOk result (λ member.
        member
        ≡ record {
          flags = flags;
          name = unwrap_or (utf8_at pool.now name) [];
          desc = unwrap_or (utf8_at pool.now desc) [];
        }) }
{
    Ok(Member {
        flags,
        name: text_or_empty(alloc, pool.utf8(name))?,
        desc: text_or_empty(alloc, pool.utf8(desc))?,
    })
}

// An equal text, where there is one.
fn text_or_none(text: Option<&Text>) -> Result<Option<Text>, NoMemory>
    ensures { IfOk result (λ copy. copy ≡ option_copied text.entry) }
{
    Ok(match text {
        Some(text) => Some(text.copy()?),
        None => None,
    })
}

// An equal text, and the empty one where there is none.
fn text_or_empty(alloc: Global, text: Option<&Text>) -> Result<Text, NoMemory>
    ensures { IfOk result (λ copy. copy ≡ unwrap_or (option_copied text.entry) []) }
{
    match text {
        Some(text) => text.copy(),
        None => Text::of_plain(alloc, &[]),
    }
}

/// The first name in byte order that stands twice.
pub(crate) fn first_duplicate<'a>(headers: &'a Headers<'_>) -> Option<&'a Text>
    requires folder { AreHeadersInOrder headers.now.folder }
    requires library { AreHeadersInOrder headers.now.library }
    ensures twice { IfSome result (λ name. 2 ≤ times name.now headers.now) }
    ensures first { IfSome result
        (λ name. (other : Name) → IsBefore other name.now → times other headers.now ≤ 1) }
    ensures none { IfNone result ((name : Name) → times name headers.now ≤ 1) }
{
    let mut rest = headers.copy();
    let mut last = None;
    while let Some((header, others)) = rest.split_first() {
        if last == Some(&header.name) {
            return Some(&header.name);
        }
        last = Some(&header.name);
        rest = others;
    }
    None
}
