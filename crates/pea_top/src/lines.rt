//! The printed lines.
ghost use Rattle.std.specs.Prelude.{◌≡◌, ◌<◌, ◌++◌, codes, IfOk, OnOk};
ghost use Rattle.std.specs.List.{flat_map};
ghost use Rattle.class_tree.specs.Headers.{headers_of};
ghost use Rattle.pea_top.specs.Lines.{hex_digit, member_text, numbers_text, printed_byte, printed_text, report_line, report_text, summary_line, verified_line};
ghost use Rattle.pea_top.specs.Status.{refusal_line};

use crate::status::Status;
use class_model::{Member, NoMemory, Text};
use class_rewrite::{Line, Report, is_rewritten, reason_name};
use class_tree::{LinkRule, Place, Tree};
use host_tree::FileName;
use std::alloc::Global;
use type_rules::TypeRule;

/// The line that sums up what was optimised: how many files were written, how many of them are class files, how many methods were
/// rewritten, and how many were kept.
pub(crate) fn summary(
    alloc: Global,
    files: usize,
    classes: usize,
    rewritten: usize,
    kept: usize,
) -> Result<Vec<u8>, NoMemory>
    ensures { IfOk result (λ line. line.items ≡ summary_line files classes rewritten kept) }
{
    let text = format!(in alloc;
        "done files={files} classes={classes} rewritten={rewritten} kept={kept}\n"
    )?;
    Ok(text.into_bytes())
}

/// The line that sums up what was verified: how many class files, and how many methods these have.
pub(crate) fn verified(alloc: Global, classes: usize, methods: u128) -> Result<Vec<u8>, NoMemory>
    ensures { IfOk result (λ line. line.items ≡ verified_line classes methods) }
{
    let text = format!(in alloc; "verified {classes} {methods}\n")?;
    Ok(text.into_bytes())
}

/// The line of a refusal, which is empty for a status that prints none.
pub(crate) fn refusal(alloc: Global, status: &Status) -> Result<Vec<u8>, NoMemory>
    ensures { IfOk result (λ line. line.items ≡ refusal_line status.now) }
{
    match status {
        Status::Usage => Ok(Vec::from_slice(alloc, b"refused 1 Usage\n")?),
        Status::Malformed { name, at, rule } => {
            let rule = rule.name();
            let fault = format!(in alloc; " {at} {rule}\n")?;
            file_refusal(alloc, b"refused 2 Malformed ", name, fault.as_str())
        }
        Status::Version { name, major, minor } => {
            let version = format!(in alloc; " {major} {minor}\n")?;
            file_refusal(alloc, b"refused 3 Version ", name, version.as_str())
        }
        Status::Unlinked {
            class,
            member,
            rule,
        } => unlinked(alloc, class, member, *rule),
        Status::Unverified {
            class,
            method,
            offset,
            rule,
        } => unverified(alloc, class, method, *offset, *rule),
        Status::BadScript { line } => {
            let text = format!(in alloc; "refused 7 BadScript {line}\n")?;
            Ok(text.into_bytes())
        }
        Status::Absent { name } => file_refusal(alloc, b"refused 12 Absent ", name, "\n"),
        Status::Done | Status::HostFault(_) | Status::NoMemory => Ok(Vec::new(alloc)),
    }
}

/// The line of a refusal that names a file, from what stands before and behind the name.
fn file_refusal(
    alloc: Global,
    front: &[u8],
    name: &FileName,
    back: &str,
) -> Result<Vec<u8>, NoMemory>
    ensures { IfOk result (λ line. line.items ≡ front.now ++ printed_text name.now ++ back.now) }
{
    let mut line = Vec::from_slice(alloc, front)?;
    push_text(&mut line, name.as_str().as_bytes())?;
    line.extend_from_slice(back.as_bytes())?;
    Ok(line)
}

/// The line of a problem of linking.
fn unlinked(
    alloc: Global,
    class: &Text,
    member: &Member,
    rule: LinkRule,
) -> Result<Vec<u8>, NoMemory>
    ensures { IfOk result
        (λ line. line.items ≡ refusal_line (Status.Unlinked class.now member.now rule)) }
{
    let rule = rule.name();
    let back = format!(in alloc; " {rule}\n")?;
    member_refusal(alloc, b"refused 4 Unlinked ", class, member, back.as_str())
}

/// The line of a method that does not verify.
fn unverified(
    alloc: Global,
    class: &Text,
    method: &Member,
    offset: u32,
    rule: TypeRule,
) -> Result<Vec<u8>, NoMemory>
    ensures { IfOk result
        (λ line. line.items ≡ refusal_line (Status.Unverified class.now method.now offset rule)) }
{
    let rule = rule.name();
    let back = format!(in alloc; " {offset} {rule}\n")?;
    member_refusal(
        alloc,
        b"refused 5 Unverified ",
        class,
        method,
        back.as_str(),
    )
}

/// The line of a refusal that names a member of a class, from what stands before and behind the names.
fn member_refusal(
    alloc: Global,
    front: &[u8],
    class: &Text,
    member: &Member,
    back: &str,
) -> Result<Vec<u8>, NoMemory>
    ensures { IfOk result (λ line.
        line.items
        ≡ front.now ++ printed_text class.now ++ codes " " ++ printed_text member.now.name
        ++ codes " " ++ printed_text member.now.desc ++ back.now) }
{
    let mut line = Vec::from_slice(alloc, front)?;
    push_member(&mut line, class, member)?;
    line.extend_from_slice(back.as_bytes())?;
    Ok(line)
}

/// Appends a member as it is named in a line.
fn push_member(line: &mut Vec<u8>, class: &Text, member: &Member) -> Result<(), NoMemory>
    ensures { OnOk result (line.new.items ≡ line.old.items ++ member_text class.now member.now) }
{
    push_text(line, class.bytes())?;
    line.push(b' ')?;
    push_text(line, member.name.bytes())?;
    line.push(b' ')?;
    push_text(line, member.desc.bytes())
}

/// The lines that say what becomes of each method of a folder.
pub(crate) fn report_text(alloc: Global, tree: &Tree, report: &Report) -> Result<Vec<u8>, NoMemory>
    ensures { IfOk result (λ text. text.items ≡ report_text (headers_of tree.now) report.now) }
{
    let mut text = Vec::new(alloc);
    for line in report.as_slice() {
        push_report_line(alloc, &mut text, tree, line)?;
    }
    Ok(text)
}

/// Appends the line that says what becomes of a method.
fn push_report_line(
    alloc: Global,
    text: &mut Vec<u8>,
    tree: &Tree,
    line: &Line,
) -> Result<(), NoMemory>
    ensures { OnOk result
        (text.new.items ≡ text.old.items ++ report_line (headers_of tree.now) line.now) }
{
    let Some(header) = tree.header(Place::Folder(line.at.class)) else {
        return Ok(());
    };
    let Some(method) = header.methods.get(line.at.method) else {
        return Ok(());
    };
    push_member(text, &header.name, method)?;
    text.push(b' ')?;
    text.extend_from_slice(reason_name(line.reason).as_bytes())?;
    push_numbers(alloc, text, line)?;
    text.push(b'\n')?;
    Ok(())
}

/// Appends the numbers of a method that is rewritten.
fn push_numbers(alloc: Global, text: &mut Vec<u8>, line: &Line) -> Result<(), NoMemory>
    ensures { OnOk result (text.new.items ≡ text.old.items ++ numbers_text line.now) }
{
    if is_rewritten(line.reason) {
        let Line {
            sites,
            news,
            enters,
            bytes,
            ..
        } = *line;
        let numbers = format!(in alloc;
            " sites={sites} news={news} enters={enters} bytes={bytes}"
        )?;
        text.extend_from_slice(numbers.as_bytes())?;
    }
    Ok(())
}

/// Appends a text as it is printed.
fn push_text(line: &mut Vec<u8>, text: &[u8]) -> Result<(), NoMemory>
    ensures { OnOk result (line.new.items ≡ line.old.items ++ printed_text text.now) }
{
    match text {
        [] => line.push(b'-')?,
        [b'-'] => line.extend_from_slice(b"%2d")?,
        _ => push_bytes(line, text)?,
    }
    Ok(())
}

/// Appends bytes as they are printed.
fn push_bytes(line: &mut Vec<u8>, bytes: &[u8]) -> Result<(), NoMemory>
    ensures { OnOk result (line.new.items ≡ line.old.items ++ flat_map printed_byte bytes.now) }
{
    for byte in bytes {
        push_byte(line, *byte)?;
    }
    Ok(())
}

/// Appends a byte as it is printed.
fn push_byte(line: &mut Vec<u8>, byte: u8) -> Result<(), NoMemory>
    ensures { OnOk result (line.new.items ≡ line.old.items ++ printed_byte byte) }
{
    if byte.is_ascii_graphic() && byte != b'%' {
        line.push(byte)?;
    } else {
        line.extend_from_slice(&[b'%', hex_digit(byte / 16), hex_digit(byte % 16)])?;
    }
    Ok(())
}

/// A hexadecimal digit in lower case.
fn hex_digit(digit: u8) -> u8
    requires { digit < 16 }
    ensures { result ≡ hex_digit digit }
{
    if digit < 10 {
        b'0' + digit
    } else {
        b'a' + (digit - 10)
    }
}
