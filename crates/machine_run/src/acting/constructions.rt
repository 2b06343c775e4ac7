//! Objects that the library constructs.
ghost use Rattle.std.specs.Prelude.{◌≡◌, ◌∷◌, None, IfOk, OnOk};
ghost use Rattle.machine_values.specs.declared.value.Value.{Value as Argument};
ghost use Rattle.member_link.specs.Machine.Acting.{act_construct, is_concrete, with_made};
ghost use Rattle.member_link.specs.Machine.Programs.{Program, folder_number, header_named};
ghost use Rattle.member_link.specs.Machine.Worlds.{World as State};
ghost use Rattle.member_link.specs.TreePrograms.{IsProgram};
ghost use Rattle.machine_step.specs.Room.{HasRoom};
ghost use Rattle.machine_run.specs.Inner.ActWords.{IsMade, initialised, is_concrete_header, may_construct};
ghost use Rattle.machine_run.specs.Outcomes.{ended, halt_behind};

use crate::acting::calls::{begin_if, call_with, method_named};
use crate::acting::given::given_values;
use crate::acting::handles::is_handled;
use crate::frames::{pop_frame, push_frame};
use class_model::{ACC_ABSTRACT, ACC_INTERFACE, Header, INIT, MethodAt, NoMemory, Text, has};
use class_tree::Tree;
use machine_code::{Prepared, resolve_new};
use machine_heap::Heap;
use machine_step::{Acted, Memory, WorldState, arguments_conform};
use machine_values::{GivenList, Ref, RunFrame, RunFrameList, Shape, Value, ValueList};
use member_link::{has_code, header_named};
use std::alloc::Global;

/// Makes an object of a class of the folder and calls an instance initialiser on it that a method handle of the folder names. The
/// library's frame keeps the object, and the class is begun on top of the call.
///
/// # Errors
///
/// `NoMemory` where memory runs out.
pub(crate) fn construct(
    alloc: Global,
    prepared: &mut Prepared<'_>,
    w: &mut WorldState,
    class: &Text,
    desc: &Text,
    values: &GivenList,
) -> Result<Acted, NoMemory>
    requires room { HasRoom w.old.memory }
    ensures same { prepared.new ≡ prepared.old }
    ensures acted { IfOk result (λ acted. (P : Program) → IsProgram prepared.old P
        → ended (halt_behind acted) w.new
        ≡ act_construct P w.old class.now desc.now values.now) }
    ensures fault { IfOk result (λ acted. acted ≡ Acted.Fault → w.new ≡ w.old) }
{
    let name = Text::of_plain(alloc, INIT)?;
    let Some(at) = method_named(prepared.tree(), class, &name, desc)? else {
        return Ok(Acted::Fault);
    };
    let Some(values) = given_values(alloc, &w.known, values.as_slice())? else {
        return Ok(Acted::Fault);
    };
    if !may_construct(prepared.tree(), w.memory.heap(), class, desc, at, &values) {
        return Ok(Acted::Fault);
    }
    match make_blank(alloc, prepared.tree(), &mut w.memory, class)? {
        Some(made) => {
            initialise(alloc, prepared, w, class, at, made, &values)?;
            Ok(Acted::Done)
        }
        None => Ok(Acted::Fault),
    }
}

// Whether the library may call an instance initialiser of a class with these values.
fn may_construct(
    tree: &Tree,
    heap: &Heap,
    class: &Text,
    desc: &Text,
    at: MethodAt,
    values: &[Value],
) -> bool
    ensures { (P : Program) (w : State) → IsProgram tree.now P → w.memory.heap ≡ heap.now
        → result ≡ may_construct P w class.now desc.now at values.now }
{
    has_code(tree, at)
        && (is_concrete(tree, class)
            && (is_handled(tree, class, desc) && arguments_conform(tree, heap, desc, values)))
}

/// Whether a class is there, and neither abstract nor an interface. It does not allocate.
pub(crate) fn is_concrete(tree: &Tree, class: &Text) -> bool
    ensures { (P : Program) → IsProgram tree.now P
        → result ≡ is_concrete (header_named P class.now) }
{
    match header_named(tree, class.bytes()) {
        Some(header) => is_concrete_header(header),
        None => false,
    }
}

// Whether a class is neither abstract nor an interface.
fn is_concrete_header(header: &Header) -> bool
    ensures { result ≡ is_concrete_header header.now }
{
    !(has(header.flags, ACC_ABSTRACT) || has(header.flags, ACC_INTERFACE))
}

// Makes an object of a class of the folder, whose fields are zero or null.
fn make_blank(
    alloc: Global,
    tree: &Tree,
    memory: &mut Memory,
    class: &Text,
) -> Result<Option<Ref>, NoMemory>
    requires { HasRoom memory.old }
    ensures made { IfOk result (λ made. (P : Program) → IsProgram tree.now P
        → IsMade P memory.old memory.new (folder_number P class.now) made) }
    ensures none { IfOk result (λ made. made ≡ None → memory.new ≡ memory.old) }
    ensures room { OnOk result (HasRoom memory.new) }
{
    let op = resolve_new(alloc, tree, class)?;
    match op.home {
        Some(number) => {
            let blanks = ValueList::from_vec(op.into_blanks());
            let made = memory.allocate(Shape::Folder(number), blanks)?;
            Ok(Some(made))
        }
        None => Ok(None),
    }
}

// Calls an instance initialiser on a new object, which the library's frame keeps.
fn initialise(
    alloc: Global,
    prepared: &mut Prepared<'_>,
    w: &mut WorldState,
    class: &Text,
    at: MethodAt,
    made: Ref,
    values: &[Value],
) -> Result<(), NoMemory>
    requires room { HasRoom w.old.memory }
    ensures same { prepared.new ≡ prepared.old }
    ensures initialised { OnOk result ((P : Program) → IsProgram prepared.old P
        → w.new ≡ initialised P w.old class.now at made values.now) }
{
    keep_made(&mut w.frames, made)?;
    let arguments = behind_receiver(alloc, made, values)?;
    call_with(alloc, prepared, w, at, &arguments)?;
    begin_if(alloc, prepared, w, class)
}

// The library's frame on top keeps the object that it constructs.
fn keep_made(frames: &mut RunFrameList, made: Ref) -> Result<(), NoMemory>
    ensures { OnOk result (frames.new ≡ with_made made frames.old) }
{
    match pop_frame(frames) {
        Some(RunFrame::Library { .. }) => {
            push_frame(frames, RunFrame::Library { made: Some(made) })
        }
        Some(other) => push_frame(frames, other),
        None => Ok(()),
    }
}

// A reference and values behind it.
fn behind_receiver(alloc: Global, receiver: Ref, values: &[Value]) -> Result<Vec<Value>, NoMemory>
    ensures { IfOk result (λ all. all.items ≡ Argument.Ref receiver ∷ values.now) }
{
    let mut all = Vec::with_capacity(alloc, values.len() + 1)?;
    all.push(Value::Ref(receiver))?;
    all.extend_from_slice(values)?;
    Ok(all)
}
