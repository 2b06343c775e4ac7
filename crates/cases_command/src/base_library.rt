//! The smallest library that linking accepts, as files.
ghost use Rattle.std.specs.Prelude.{IsTrue};
ghost use Rattle.std.specs.List.{AllByRecursion};
ghost use Rattle.class_bytes.specs.Counts.{FitsAttrs, FitsCounts, FitsMethod, FitsPart};

use class_bytes::write_class;
use class_model::{Attr, ClassFile, CodePart, Method};
use host_tree::MemoryHost;
use std::alloc::Global;
use work_gen::base_library;

/// How many classes the library has. None where memory runs out.
pub(crate) fn class_count(alloc: Global) -> Option<usize> {
    let classes = base_library(alloc).ok()?;
    let count = classes.len();
    drop(classes);
    Some(count)
}

/// Puts the first class files of the base library into a root, each under the name of its class. None where memory runs out.
pub(crate) fn put_first(
    alloc: Global,
    host: &mut MemoryHost,
    root: &str,
    count: usize,
) -> Option<()> {
    let classes = base_library(alloc).ok()?;
    let is_put = put_classes(alloc, host, root, classes.as_slice(), count);
    drop(classes);
    is_put
}

// Puts the first of some class files into a root, each under the name of its class.
fn put_classes(
    alloc: Global,
    host: &mut MemoryHost,
    root: &str,
    classes: &[ClassFile],
    count: usize,
) -> Option<()> {
    for class in classes.iter().take(count) {
        if !is_small(class) {
            return None;
        }
        put_class(alloc, host, root, class)?;
    }
    Some(())
}

/// Puts a class file into a root, under the name of its class. None where memory runs out.
pub(crate) fn put_class(
    alloc: Global,
    host: &mut MemoryHost,
    root: &str,
    class: &ClassFile,
) -> Option<()>
    requires { FitsCounts class.now }
{
    let bytes = write_class(alloc, class).ok()?;
    let name = str::from_utf8(class.pool.class_name(class.this_class)?.bytes()).ok()?;
    let file = format!(in alloc; "{name}.class").ok()?;
    host.put(alloc, root, file.as_str(), bytes.as_slice()).ok()
}

// Whether a class has no interfaces, fields and attributes, and few small methods. Each of the base library is so.
fn is_small(class: &ClassFile) -> bool
    ensures { IsTrue result → FitsCounts class.now }
{
    class.interfaces.is_empty()
        && class.fields.is_empty()
        && class.attrs.is_empty()
        && class.methods.len() < 100
        && are_small(class.methods.as_slice())
}

// Whether each of these methods is small.
fn are_small(methods: &[Method]) -> bool
    ensures { IsTrue result → AllByRecursion FitsMethod methods.now }
{
    match methods {
        [] => true,
        [first, rest @ ..] => has_small_code(first.attrs.as_slice()) && are_small(rest),
    }
}

// Whether these are no attributes, or the code alone, which is small.
fn has_small_code(attrs: &[Attr]) -> bool
    ensures { IsTrue result → FitsAttrs attrs.now }
{
    match attrs {
        [] => true,
        [Attr::Code { part, .. }] => is_small_code(part),
        _ => false,
    }
}

// Whether a code is short, without handlers and attributes.
fn is_small_code(part: &CodePart) -> bool
    ensures { IsTrue result → FitsPart part.now }
{
    part.code.len() < 100 && part.handlers.is_empty() && part.attrs.is_empty()
}
