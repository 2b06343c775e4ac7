//! The attributes of a class, and the bootstrap methods in them (JVM Specification SE 8, 4.7.23).
ghost use Rattle.std.specs.Prelude.{◌≡◌, ◌↔◌, [], ◌+◌, ◌*◌, ◌<◌, ◌^◌, IfOk, IsTrue, List, length};
ghost use Rattle.std.specs.Option.{option_map};
ghost use Rattle.class_model.specs.Answers.{Takes, Tells};
ghost use Rattle.class_model.specs.Cutting.{u2_at, counted_at};
ghost use Rattle.class_model.specs.Members.{has_named, attrs_checks};
ghost use Rattle.class_model.specs.Methods.{IsHandle, IsArgument, bootstrap_at, bootstraps, bootstrap_methods, arguments_checks, bootstraps_checks, bootstrap_table_checks, class_attr_checks, bootstrap_count};
ghost use Rattle.class_model.specs.Pool.{constant_at};
ghost use Rattle.class_model.specs.declared.class_file.Attr.{Attr};
ghost use Rattle.class_bytes.specs.Inner.Bootstraps.{bootstrap_of, bootstraps_of, bootstraps_len, bootstrap_checks, own_count, CountsMethods};
ghost use Rattle.class_bytes.specs.Inner.Cut.{result_seen, attr_of, attrs_of};
ghost use Rattle.class_bytes.specs.Inner.Parts.{attrs_len};

use crate::checks::{ask, ask_text};
use crate::cut::CutAttr;
use crate::names::BOOTSTRAP_METHODS;
use class_model::{ClassFault, Const, Cursor, FileRule, IndexList, ListOf, NoMemory, Pool};
use std::alloc::Global;

/// Checks the attributes of a class, the first of which stands at this place, and answers how many bootstrap
/// methods there are.
pub(crate) fn check_class_attrs(
    alloc: Global,
    pool: &Pool,
    attrs: &[CutAttr<'_>],
    at: u64,
) -> Result<usize, ClassFault>
    requires { at + attrs_len (attrs_of attrs.now) < 2 ^ 63 }
    ensures { Tells (attrs_checks (class_attr_checks pool.now) [] at (attrs_of attrs.now))
        (λ count. count ≡ bootstrap_count pool.now (attrs_of attrs.now)) result }
{
    let mut place = at;
    let mut found = None;
    for attr in attrs {
        let own = check_class_attr(alloc, pool, found.is_some(), attr, place)?;
        found = found.or(own);
        place += 6 + attr.content.len() as u64;
    }
    Ok(found.unwrap_or(0))
}

// Checks an attribute of a class, which stands at this place behind a BootstrapMethods attribute or not, and
// answers how many bootstrap methods it has if it is one itself.
fn check_class_attr(
    alloc: Global,
    pool: &Pool,
    is_again: bool,
    attr: &CutAttr<'_>,
    at: u64,
) -> Result<Option<usize>, ClassFault>
    requires { at + 6 + length attr.now.content.now < 2 ^ 63 }
    ensures { (before : List Attr) → is_again ≡ has_named pool.now bootstrap_methods before
        → Tells (class_attr_checks pool.now before at (attr_of attr.now))
        (λ own. own ≡ own_count pool.now (attr_of attr.now)) result }
{
    let name = ask_text(pool, attr.name, at)?;
    if name.bytes() != BOOTSTRAP_METHODS {
        return Ok(None);
    }
    ask(!is_again, at, FileRule::Twice)?;
    let count = check_table(alloc, pool, attr.content, at)?;
    Ok(Some(count))
}

// Checks the content of a BootstrapMethods attribute, which stands at this place, and answers how many
// bootstrap methods it has.
fn check_table(alloc: Global, pool: &Pool, content: &[u8], at: u64) -> Result<usize, ClassFault>
    requires { at + 6 + length content.now < 2 ^ 64 }
    ensures { Tells (bootstrap_table_checks pool.now at (bootstraps content.now))
        (CountsMethods (bootstraps content.now)) result }
{
    let Some(methods) = cut_table(alloc, content)? else {
        return Err(ClassFault::Malformed {
            at,
            rule: FileRule::Attribute,
        });
    };
    check_bootstraps(pool, methods.as_slice(), at + 8)?;
    Ok(methods.len())
}

// Checks bootstrap methods, the first of which stands at this place.
fn check_bootstraps(pool: &Pool, methods: &[CutBootstrap], at: u64) -> Result<(), ClassFault>
    requires { at + bootstraps_len (bootstraps_of methods.now) < 2 ^ 64 }
    ensures { Tells (bootstraps_checks pool.now at (bootstraps_of methods.now))
        (λ done. Unit {0}) result }
{
    let mut place = at;
    for method in methods {
        check_bootstrap(pool, method, place)?;
        place += 4 + 2 * method.arguments.len() as u64;
    }
    Ok(())
}

// Checks a bootstrap method, which stands at this place.
fn check_bootstrap(pool: &Pool, method: &CutBootstrap, at: u64) -> Result<(), ClassFault>
    requires { at + 4 + 2 * length method.now.arguments < 2 ^ 64 }
    ensures { Tells (bootstrap_checks pool.now at (bootstrap_of method.now))
        (λ done. Unit {0}) result }
{
    ask(is_handle(pool, method.handle), at, FileRule::Index)?;
    check_arguments(pool, method.arguments.as_slice(), at + 4)
}

// Checks the arguments of a bootstrap method, the first of which stands at this place.
fn check_arguments(pool: &Pool, indices: &[u16], at: u64) -> Result<(), ClassFault>
    requires { at + 2 * length indices.now < 2 ^ 64 }
    ensures { Tells (arguments_checks pool.now at indices.now) (λ done. Unit {0}) result }
{
    let mut place = at;
    for index in indices {
        ask(is_argument(pool, *index), place, FileRule::Index)?;
        place += 2;
    }
    Ok(())
}

// Whether an index names a MethodHandle constant.
fn is_handle(pool: &Pool, index: u16) -> bool
    ensures { IsTrue result ↔ IsHandle (constant_at pool.now index) }
{
    matches!(pool.get(index), Some(Const::MethodHandle(..)))
}

// Whether an index names a constant that may be an argument of a bootstrap method.
fn is_argument(pool: &Pool, index: u16) -> bool
    ensures { IsTrue result ↔ IsArgument (constant_at pool.now index) }
{
    matches!(
        pool.get(index),
        Some(
            Const::String(_)
                | Const::Class(_)
                | Const::Integer(_)
                | Const::Long(_)
                | Const::Float(_)
                | Const::Double(_)
                | Const::MethodHandle(..)
                | Const::MethodType(_)
        )
    )
}

/// A bootstrap method: the index of its method handle, and those of its arguments.
#[derive(Drop)]
pub(crate) struct CutBootstrap {
    pub handle: u16,
    pub arguments: IndexList,
}

// The bootstrap methods of the content of a BootstrapMethods attribute, if they fill it.
fn cut_table(alloc: Global, content: &[u8]) -> Result<Option<ListOf<CutBootstrap>>, NoMemory>
    ensures { IfOk result
        (λ methods. option_map (λ some. bootstraps_of some) methods ≡ bootstraps content.now) }
{
    let mut cursor = Cursor::new(content, 0);
    match cut_bootstraps(alloc, &mut cursor) {
        Ok(methods) if cursor.is_empty() => Ok(Some(methods)),
        Err(ClassFault::NoMemory) => Err(NoMemory),
        Ok(_) | Err(ClassFault::Malformed { .. } | ClassFault::Version { .. }) => Ok(None),
    }
}

// Reads bootstrap methods behind their count.
fn cut_bootstraps(
    alloc: Global,
    cursor: &mut Cursor<'_>,
) -> Result<ListOf<CutBootstrap>, ClassFault>
    ensures { Takes (counted_at bootstrap_at cursor.old) cursor.new
        (result_seen (λ methods. bootstraps_of methods) result) }
{
    let count = cursor.u2()?;
    let mut methods = ListOf::new(alloc);
    for _ in 0..count {
        methods.push(cut_bootstrap(alloc, cursor)?)?;
    }
    Ok(methods)
}

// Reads a bootstrap method.
fn cut_bootstrap(alloc: Global, cursor: &mut Cursor<'_>) -> Result<CutBootstrap, ClassFault>
    ensures { Takes (bootstrap_at cursor.old) cursor.new (result_seen bootstrap_of result) }
{
    let handle = cursor.u2()?;
    let arguments = cut_arguments(alloc, cursor)?;
    Ok(CutBootstrap { handle, arguments })
}

// Reads the indices of arguments behind their count.
fn cut_arguments(alloc: Global, cursor: &mut Cursor<'_>) -> Result<IndexList, ClassFault>
    ensures { Takes (counted_at u2_at cursor.old) cursor.new result }
{
    let count = cursor.u2()?;
    let mut arguments = ListOf::new(alloc);
    for _ in 0..count {
        arguments.push(cursor.u2()?)?;
    }
    Ok(arguments)
}
