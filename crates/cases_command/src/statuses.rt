//! The outcomes of commands as texts.
use crate::texts::shown;
use class_model::{Member, Text};
use host_tree::HostCall;
use pea_top::Status;
use std::alloc::Global;

/// The code of a status, and the status. None where memory runs out.
pub(crate) fn text_of(alloc: Global, status: &Status) -> Option<String> {
    let code = status.code();
    match status {
        Status::Malformed { name, at, rule } => {
            let name = shown(alloc, name.as_str().as_bytes())?;
            format!(in alloc; "{code} Malformed {name} {at} {rule:?}").ok()
        }
        Status::Version { name, major, minor } => {
            let name = shown(alloc, name.as_str().as_bytes())?;
            format!(in alloc; "{code} Version {name} {major} {minor}").ok()
        }
        Status::Unlinked {
            class,
            member,
            rule,
        } => {
            let place = place_of(alloc, class, member)?;
            format!(in alloc; "{code} Unlinked {place} {rule:?}").ok()
        }
        Status::Unverified {
            class,
            method,
            offset,
            rule,
        } => {
            let place = place_of(alloc, class, method)?;
            format!(in alloc; "{code} Unverified {place} {offset} {rule:?}").ok()
        }
        Status::BadScript { line } => format!(in alloc; "{code} BadScript {line}").ok(),
        Status::Absent { name } => {
            let name = shown(alloc, name.as_str().as_bytes())?;
            format!(in alloc; "{code} Absent {name}").ok()
        }
        status => format!(in alloc; "{code} {status:?}").ok(),
    }
}

// The names of a class and of a member, and the member's descriptor.
fn place_of(alloc: Global, class: &Text, member: &Member) -> Option<String> {
    let class = shown(alloc, class.bytes())?;
    let name = shown(alloc, member.name.bytes())?;
    let desc = shown(alloc, member.desc.bytes())?;
    format!(in alloc; "'{class}' '{name}' '{desc}'").ok()
}

/// The status of a word that says it whole.
pub(crate) fn status_of(word: &str) -> Option<Status> {
    Some(match word {
        "Done" => Status::Done,
        "Usage" => Status::Usage,
        "HostFault(Print)" => Status::HostFault(HostCall::Print),
        "NoMemory" => Status::NoMemory,
        _ => return None,
    })
}

/// The kind of call that a word says.
pub(crate) fn call_of(word: &str) -> Option<HostCall> {
    Some(match word {
        "List" => HostCall::List,
        "Read" => HostCall::Read,
        "Write" => HostCall::Write,
        "Print" => HostCall::Print,
        _ => return None,
    })
}
