//! The third step: what the machine needs of its library.
ghost use Rattle.std.specs.Prelude.{◌≡◌, ◌↔◌, ◌⊎◌, ◌||◌, false, [], ◌∷◌, map, Some, IfOk, IfSome, IsSome, IsTrue};
ghost use Rattle.std.specs.List.{list_any};
ghost use Rattle.std.specs.Option.{option_copied, option_map_or};
ghost use Rattle.class_model.specs.Checks.{asked_each, asked_if};
ghost use Rattle.class_model.specs.Header.{header_of};
ghost use Rattle.class_model.specs.ModifiedUtf8.{is_plain_text};
ghost use Rattle.class_model.specs.Names.{init};
ghost use Rattle.class_model.specs.Pool.{constant_at};
ghost use Rattle.class_tree.specs.Answers.{Answers};
ghost use Rattle.class_tree.specs.Headers.{Name, class_named, named, IsThere};
ghost use Rattle.class_tree.specs.Names as names;
ghost use Rattle.class_tree.specs.Inner.Nodes.{graph_of, number_of};
ghost use Rattle.class_tree.specs.Problems.{check};
ghost use Rattle.class_tree.specs.Steps.{base_checks, has_constant, is_method_handle, is_method_type, is_open_constructor, HasOneConstructor};
ghost use Rattle.class_tree.specs.Subtype.{IsBelow};
ghost use Rattle.class_tree.specs.Trees.{IsInOrder};
ghost use Rattle.class_tree.specs.declared.fault.LinkRule.TheVariants as rules;

use crate::fault::{LinkFault, LinkRule};
use crate::graph::reaches;
use crate::headers::Headers;
use crate::hierarchy::is_outside;
use crate::lists::Lists;
use crate::names::{
    CLONEABLE, METHOD_HANDLE, METHOD_TYPE, OBJECT, SERIALIZABLE, THROWABLE, base_names,
    is_interface, machine_throwables,
};
use crate::question::ask_named;
use class_model::{
    ACC_PUBLIC, ACC_STATIC, ClassFile, Const, Header, INIT, Member, NoMemory, Pool, has,
};
use std::alloc::Global;

/// Asks the library for what the machine needs.
pub(crate) fn check_base(
    alloc: Global,
    folder: &[ClassFile],
    headers: &Headers<'_>,
    graph: &Lists<usize>,
) -> Result<(), LinkFault>
    requires in_order { IsInOrder headers.now }
    requires folder { headers.now.folder ≡ map header_of folder.now }
    requires graph { graph.now ≡ graph_of headers.now }
    ensures { Answers (base_checks (record { folder = folder.now; library = headers.now.library }))
        result }
{
    check_names(alloc, headers)?;
    check_object(alloc, headers)?;
    check_throwables(alloc, headers, graph)?;
    check_interfaces(alloc, headers)?;
    let constants = needs_of(headers, folder);
    check_need(alloc, headers, constants.method_handle, METHOD_HANDLE)?;
    check_need(alloc, headers, constants.method_type, METHOD_TYPE)
}

// Asks for the classes that each library has.
fn check_names(alloc: Global, headers: &Headers<'_>) -> Result<(), LinkFault>
    requires { IsInOrder headers.now }
    ensures { Answers
        (asked_each
        (λ name. check name rules.Missing (IsSome (named name headers.now.library)) ∷ [])
        names.base_names) result }
{
    for name in base_names() {
        ask_named(alloc, is_in_library(headers, name), name, LinkRule::Missing)?;
    }
    Ok(())
}

// Whether the library has a class of this name.
fn is_in_library(headers: &Headers<'_>, name: &[u8]) -> bool
    requires { IsInOrder headers.now }
    ensures { IsTrue result ↔ IsSome (named name.now headers.now.library) }
{
    match headers.number_of(name) {
        Some(number) => is_outside(headers, number),
        None => false,
    }
}

// The class of a name.
fn class_of<'a>(headers: &'a Headers<'_>, name: &[u8]) -> Option<&'a Header>
    requires { IsInOrder headers.now }
    ensures { option_copied result ≡ class_named headers.now name.now }
{
    match headers.number_of(name) {
        Some(number) => headers.get(number),
        None => None,
    }
}

// Asks that java/lang/Object has one instance initialiser, which is public and has no parameters.
fn check_object(alloc: Global, headers: &Headers<'_>) -> Result<(), LinkFault>
    requires { IsInOrder headers.now }
    ensures { Answers
        (check names.object rules.NoMember
        (IfSome (class_named headers.now names.object) HasOneConstructor)
        ∷ []) result }
{
    ask_named(alloc, is_object_open(headers), OBJECT, LinkRule::NoMember)
}

// Whether java/lang/Object has one instance initialiser, which is public and has no parameters.
fn is_object_open(headers: &Headers<'_>) -> bool
    requires { IsInOrder headers.now }
    ensures { IsTrue result ↔ IfSome (class_named headers.now names.object) HasOneConstructor }
{
    match class_of(headers, OBJECT) {
        Some(header) => has_one_constructor(header),
        None => true,
    }
}

// Whether a class declares a public instance initialiser with no parameters, and no other.
fn has_one_constructor(header: &Header) -> bool
    ensures { IsTrue result ↔ HasOneConstructor header.now }
{
    let methods = header.methods.as_slice();
    count_constructors(methods) == 1 && has_open_constructor(methods)
}

// How many of these methods are instance initialisers.
fn count_constructors(methods: &[Member]) -> usize
    ensures { result ≡ names.times_named init methods.now }
{
    methods
        .iter()
        .filter(|method| method.name.bytes() == INIT)
        .count()
}

// Whether one of these methods is a public instance initialiser with no parameters.
fn has_open_constructor(methods: &[Member]) -> bool
    ensures { result ≡ list_any is_open_constructor methods.now }
{
    methods.iter().any(is_open_constructor)
}

const NO_PARAMETERS: &[u8] = b"()V";

// Whether a member is a public instance initialiser with no parameters.
fn is_open_constructor(member: &Member) -> bool
    ensures { result ≡ is_open_constructor member.now }
{
    member.name.bytes() == INIT
        && member.desc.bytes() == NO_PARAMETERS
        && has(member.flags, ACC_PUBLIC)
        && !has(member.flags, ACC_STATIC)
}

// Asks that the throwables that instructions raise are below java/lang/Throwable.
fn check_throwables(
    alloc: Global,
    headers: &Headers<'_>,
    graph: &Lists<usize>,
) -> Result<(), LinkFault>
    requires in_order { IsInOrder headers.now }
    requires graph { graph.now ≡ graph_of headers.now }
    requires there { IsThere headers.now names.throwable }
    ensures { Answers
        (asked_each
        (λ name. check name rules.KindOfSuper (IsBelow headers.now name names.throwable) ∷ [])
        names.machine_throwables) result }
{
    let Some(throwable) = headers.number_of(THROWABLE) else {
        unreachable!()
    };
    for name in machine_throwables() {
        let is_throwable = is_below(alloc, headers, graph, name, throwable)?;
        ask_named(alloc, is_throwable, name, LinkRule::KindOfSuper)?;
    }
    Ok(())
}

// Whether the class of a name is below the class of a number.
fn is_below(
    alloc: Global,
    headers: &Headers<'_>,
    graph: &Lists<usize>,
    name: &[u8],
    above: usize,
) -> Result<bool, NoMemory>
    requires in_order { IsInOrder headers.now }
    requires graph { graph.now ≡ graph_of headers.now }
    ensures { (high : Name)
        → number_of headers.now high ≡ Some above
        → IfOk result (λ yes. IsTrue yes ↔ IsBelow headers.now name.now high) }
{
    match headers.number_of(name) {
        Some(number) => reaches(alloc, graph, number, above),
        None => Ok(false),
    }
}

// Asks that java/io/Serializable and java/lang/Cloneable are interfaces.
fn check_interfaces(alloc: Global, headers: &Headers<'_>) -> Result<(), LinkFault>
    requires { IsInOrder headers.now }
    ensures { Answers
        (asked_each
        (λ name.
        check name rules.KindOfSuper
        (IfSome (class_named headers.now name)
        (λ header. IsTrue (names.is_interface header)))
        ∷ []) (names.serializable ∷ names.cloneable ∷ [])) result }
{
    ask_named(
        alloc,
        is_no_class(headers, SERIALIZABLE),
        SERIALIZABLE,
        LinkRule::KindOfSuper,
    )?;
    ask_named(
        alloc,
        is_no_class(headers, CLONEABLE),
        CLONEABLE,
        LinkRule::KindOfSuper,
    )
}

// Whether the class of a name is an interface, if it is there.
fn is_no_class(headers: &Headers<'_>, name: &[u8]) -> bool
    requires { IsInOrder headers.now }
    ensures { IsTrue result
        ↔ IfSome (class_named headers.now name.now) (λ header. IsTrue (names.is_interface header)) }
{
    match class_of(headers, name) {
        Some(header) => is_interface(header),
        None => true,
    }
}

// Whether there are constants that need a class of the library.
#[derive(Clone, Copy)]
struct Constants {
    method_handle: bool,
    method_type: bool,
}

impl Constants {
    fn none() -> Self
        ensures { result ≡ record { method_handle = false; method_type = false } }
    {
        Constants {
            method_handle: false,
            method_type: false,
        }
    }

    fn or(self, other: Constants) -> Self
        ensures { result
            ≡ record {
              method_handle = self.method_handle || other.method_handle;
              method_type = self.method_type || other.method_type;
            } }
    {
        Constants {
            method_handle: self.method_handle || other.method_handle,
            method_type: self.method_type || other.method_type,
        }
    }
}

// What constants of a folder need, as far as it matters: where the library has the classes that they may need, no pool is read.
fn needs_of(headers: &Headers<'_>, folder: &[ClassFile]) -> Constants
    requires { IsInOrder headers.now }
    ensures method_handle { IsSome (named names.method_handle headers.now.library)
        ⊎ (result.method_handle ≡ list_any (has_constant is_method_handle) folder.now) }
    ensures method_type { IsSome (named names.method_type headers.now.library)
        ⊎ (result.method_type ≡ list_any (has_constant is_method_type) folder.now) }
{
    if is_in_library(headers, METHOD_HANDLE) && is_in_library(headers, METHOD_TYPE) {
        Constants::none()
    } else {
        constants_of(folder)
    }
}

// Whether the pools of class files have such constants.
fn constants_of(folder: &[ClassFile]) -> Constants
    ensures method_handle { result.method_handle
        ≡ list_any (has_constant is_method_handle) folder.now }
    ensures method_type { result.method_type ≡ list_any (has_constant is_method_type) folder.now }
{
    let mut constants = Constants::none();
    for class in folder {
        constants = constants.or(constants_in(class));
    }
    constants
}

// Whether the pool of a class file has such constants.
fn constants_in(class: &ClassFile) -> Constants
    ensures method_handle { result.method_handle ≡ has_constant is_method_handle class.now }
    ensures method_type { result.method_type ≡ has_constant is_method_type class.now }
{
    let mut constants = Constants::none();
    for index in 0..class.pool.count() {
        constants = constants.or(constants_at(&class.pool, index));
    }
    constants
}

// Whether such a constant is at an index.
fn constants_at(pool: &Pool, index: u16) -> Constants
    ensures method_handle { result.method_handle
        ≡ option_map_or is_method_handle (constant_at pool.now index) false }
    ensures method_type { result.method_type
        ≡ option_map_or is_method_type (constant_at pool.now index) false }
{
    match pool.get(index) {
        Some(constant) => Constants {
            method_handle: is_method_handle(constant),
            method_type: is_method_type(constant),
        },
        None => Constants::none(),
    }
}

// Whether a constant is a method handle.
fn is_method_handle(constant: &Const) -> bool
    ensures { result ≡ is_method_handle constant.now }
{
    matches!(constant, Const::MethodHandle(_, _))
}

// Whether a constant is a method type.
fn is_method_type(constant: &Const) -> bool
    ensures { result ≡ is_method_type constant.now }
{
    matches!(constant, Const::MethodType(_))
}

// Asks the library for a class where it is needed.
fn check_need(
    alloc: Global,
    headers: &Headers<'_>,
    is_needed: bool,
    name: &[u8],
) -> Result<(), LinkFault>
    requires in_order { IsInOrder headers.now }
    requires plain { IsTrue (is_plain_text name.now) }
    ensures { Answers
        (asked_if is_needed
        (check name.now rules.Missing (IsSome (named name.now headers.now.library)) ∷ []))
        result }
{
    if !is_needed {
        return Ok(());
    }
    ask_named(alloc, is_in_library(headers, name), name, LinkRule::Missing)
}
