//! What is answered to questions about the flat code of a method with its callees in place of their calls, as texts.
ghost use Rattle.type_rules.specs.Verified.{TypesFolder};

use cases_notation::text_of_frame;
use class_model::MethodAt;
use class_tree::{Place, Tree};
use flow_code::{Flat, FlatHandler, FlatInstr, KeptFault, Site};
use inline_expand::{expand, flat_alone};
use std::alloc::Global;
use type_rules::TypedFolder;

/// Its local units, its sites with the units of their fields, and its instructions; or why the method is kept.
pub(crate) fn expand_answer(
    alloc: Global,
    tree: &Tree,
    typed: &TypedFolder,
    at: MethodAt,
) -> Option<String>
    requires { TypesFolder tree.now typed.now }
{
    found_text(alloc, tree, expand(alloc, tree, typed, at))
}

/// The same of the flat code of the method by itself.
pub(crate) fn alone_answer(
    alloc: Global,
    tree: &Tree,
    typed: &TypedFolder,
    at: MethodAt,
) -> Option<String>
    requires { TypesFolder tree.now typed.now }
{
    found_text(alloc, tree, flat_alone(alloc, tree, typed, at))
}

fn found_text(alloc: Global, tree: &Tree, found: Result<Flat, KeptFault>) -> Option<String> {
    let text = match &found {
        Ok(flat) => flat_text(alloc, tree, flat),
        Err(KeptFault::Kept(reason)) => format!(in alloc; "{reason:?}").ok(),
        Err(KeptFault::NoMemory) => None,
    };
    drop(found);
    text
}

/// The types before a point.
pub(crate) fn typed_answer(
    alloc: Global,
    tree: &Tree,
    typed: &TypedFolder,
    at: MethodAt,
    point: usize,
) -> Option<String>
    requires { TypesFolder tree.now typed.now }
{
    let flat = expand(alloc, tree, typed, at).ok()?;
    let text = frame_text(alloc, &flat, point);
    drop(flat);
    text
}

fn frame_text(alloc: Global, flat: &Flat, point: usize) -> Option<String> {
    text_of_frame(alloc, flat.typed(point)?)
}

/// The handlers of a point.
pub(crate) fn handlers_answer(
    alloc: Global,
    tree: &Tree,
    typed: &TypedFolder,
    at: MethodAt,
    point: usize,
) -> Option<String>
    requires { TypesFolder tree.now typed.now }
{
    let flat = expand(alloc, tree, typed, at).ok()?;
    let text = point_handlers(alloc, &flat, point);
    drop(flat);
    text
}

fn point_handlers(alloc: Global, flat: &Flat, point: usize) -> Option<String> {
    handlers_text(alloc, flat.handlers(point)?.as_slice())
}

fn flat_text(alloc: Global, tree: &Tree, flat: &Flat) -> Option<String> {
    let locals = flat.locals();
    let mut text = format!(in alloc; "{locals}").ok()?;
    for site in flat.sites().as_slice() {
        push_site(&mut text, site)?;
    }
    text.push_str(" |").ok()?;
    for at in 0..flat.len() {
        push_instr(&mut text, tree, flat.host().class, flat.instr(at)?)?;
    }
    Some(text)
}

// Appends the point of a site, its class, and the local units of its fields.
fn push_site(text: &mut String, site: &Site) -> Option<()> {
    let at = site.at;
    let class = str::from_utf8(site.class.bytes()).ok()?;
    let mut units: u64 = 0;
    for field in site.fields.as_slice() {
        units = units.wrapping_add(u64::from(field.kind().units()));
    }
    write!(text, " {at}={class}:{units}").ok()
}

// Appends an instruction, behind the name of its class where that is not the host's.
fn push_instr(text: &mut String, tree: &Tree, host: usize, instr: &FlatInstr) -> Option<()> {
    match instr {
        FlatInstr::Of { class, instr } => {
            text.push_str(" ").ok()?;
            if *class != host {
                push_class(text, tree, *class)?;
            }
            write!(text, "{instr:?};").ok()
        }
        FlatInstr::NullTest(local) => write!(text, " NullTest({local});").ok(),
    }
}

// Appends the name of a class of the folder and a colon.
fn push_class(text: &mut String, tree: &Tree, class: usize) -> Option<()> {
    let header = tree.header(Place::Folder(class))?;
    let name = str::from_utf8(header.name.bytes()).ok()?;
    write!(text, "{name}:").ok()
}

fn handlers_text(alloc: Global, handlers: &[FlatHandler]) -> Option<String> {
    let mut text = String::new(alloc);
    for handler in handlers {
        if !text.is_empty() {
            text.push_str(" ").ok()?;
        }
        let to = handler.to;
        let class = match &handler.catch_class {
            Some(class) => str::from_utf8(class.bytes()).ok()?,
            None => "*",
        };
        write!(text, "{to}:{class}").ok()?;
    }
    if text.is_empty() {
        text.push_str("-").ok()?;
    }
    Some(text)
}
