//! Where a thrown object lands, found before anything changes (JVM Specification SE 8, 2.10).
ghost use Rattle.std.specs.Prelude.{◌≡◌, IfOk};
ghost use Rattle.std.specs.Option.{option_copied};
ghost use Rattle.class_model.specs.declared.class_file.MethodAt.{MethodAt as At};
ghost use Rattle.machine_values.specs.declared.frame.RunFrame.TheVariants.{Method};
ghost use Rattle.member_link.specs.Machine.Programs.{Program, point_at};
ghost use Rattle.machine_code.specs.Prepared.{IsPrepared, catches_around, stands_around};
ghost use Rattle.member_link.specs.TreePrograms.{IsProgram};
ghost use Rattle.machine_run.specs.Inner.ThrowTargets.{catches, first_handler, handler_around, passing_in, shape_at, target_in};

use class_model::{MethodAt, NoMemory};
use class_tree::Tree;
use machine_code::{Prepared, PreparedHandler, PreparedMethod, method_traits};
use machine_heap::Heap;
use machine_step::is_instance;
use machine_values::{MethodFrame, Ref, RunFrame, RunFrameList, Shape};
use std::alloc::Global;

/// The frame in which a thrown object lands, which stands on top once the methods above it are ended: by how many frames are left
/// with it, and what it is.
#[derive(Clone, Copy, PartialEq, Eq)]
pub(crate) struct ThrowTarget {
    pub(crate) left: usize,
    pub(crate) kind: TargetKind,
}

/// What a thrown object lands in.
#[derive(Clone, Copy, PartialEq, Eq)]
pub(crate) enum TargetKind {
    /// A method, which goes on at the point where a handler begins.
    Handler(u32),
    Library,
    /// A class initialiser without a handler.
    Initialiser,
}

/// What a thrown object comes to in one frame.
#[derive(Clone, Copy, PartialEq, Eq)]
pub(crate) enum Passing {
    Lands(TargetKind),
    /// The frame below is looked at.
    Passes,
    /// No frame of a run is so.
    Nowhere,
}

/// The shape of the object of a reference, if there is one. It does not allocate.
pub(crate) fn shape_of(heap: &Heap, at: Ref) -> Option<&Shape>
    ensures { option_copied result ≡ shape_at heap.now at }
{
    match heap.object(at) {
        Some(object) => Some(&object.shape),
        None => None,
    }
}

/// Where an object of a shape lands that is thrown with these frames standing; none where it lands nowhere. Without a shape it is
/// an object that is not there.
///
/// # Errors
///
/// `NoMemory` where memory runs out.
pub(crate) fn find_target(
    alloc: Global,
    prepared: &mut Prepared<'_>,
    frames: &RunFrameList,
    shape: Option<&Shape>,
) -> Result<Option<ThrowTarget>, NoMemory>
    ensures same { prepared.new ≡ prepared.old }
    ensures target { IfOk result (λ target. (P : Program) → IsProgram prepared.old P
        → target ≡ target_in P (option_copied shape.entry) frames.now) }
{
    let mut rest = frames.frames.as_slice();
    while let Some((frame, below)) = rest.split_last() {
        match pass_frame(alloc, prepared, frame, shape)? {
            Passing::Lands(kind) => {
                return Ok(Some(ThrowTarget {
                    left: rest.len(),
                    kind,
                }));
            }
            Passing::Passes => rest = below,
            Passing::Nowhere => return Ok(None),
        }
    }
    Ok(None)
}

// In one frame.
fn pass_frame(
    alloc: Global,
    prepared: &mut Prepared<'_>,
    frame: &RunFrame,
    shape: Option<&Shape>,
) -> Result<Passing, NoMemory>
    ensures same { prepared.new ≡ prepared.old }
    ensures passing { IfOk result (λ passing. (P : Program) → IsProgram prepared.old P
        → passing ≡ passing_in P (option_copied shape.entry) frame.now) }
{
    match frame {
        RunFrame::Library { .. } => Ok(Passing::Lands(TargetKind::Library)),
        RunFrame::Beginning(_) => Ok(Passing::Nowhere),
        RunFrame::Method(frame) => pass_method(alloc, prepared, frame, shape),
    }
}

// In the frame of a method.
fn pass_method(
    alloc: Global,
    prepared: &mut Prepared<'_>,
    frame: &MethodFrame,
    shape: Option<&Shape>,
) -> Result<Passing, NoMemory>
    ensures same { prepared.new ≡ prepared.old }
    ensures passing { IfOk result (λ passing. (P : Program) → IsProgram prepared.old P
        → passing ≡ passing_in P (option_copied shape.entry) (Method frame.now)) }
{
    if let Some(to) = find_handler(alloc, prepared, frame.at, frame.place, shape)? {
        return Ok(Passing::Lands(TargetKind::Handler(to)));
    }
    match method_traits(prepared.tree(), frame.at) {
        Some(traits) => {
            if traits.is_initialiser {
                Ok(Passing::Lands(TargetKind::Initialiser))
            } else {
                Ok(Passing::Passes)
            }
        }
        None => Ok(Passing::Nowhere),
    }
}

// The handler around a place of a method that catches an object of a shape.
fn find_handler(
    alloc: Global,
    prepared: &mut Prepared<'_>,
    at: MethodAt,
    place: u32,
    shape: Option<&Shape>,
) -> Result<Option<u32>, NoMemory>
    ensures same { prepared.new ≡ prepared.old }
    ensures handler { IfOk result (λ to. (P : Program) → IsProgram prepared.old P
        → to ≡ handler_around P (option_copied shape.entry) (point_at P at place)) }
{
    match prepared.take(alloc, at)? {
        Some(method) => {
            let to = handler_of(prepared.tree(), &method, place, shape);
            prepared.put(at, method);
            Ok(to)
        }
        None => Ok(None),
    }
}

// In its prepared code.
fn handler_of(
    tree: &Tree,
    method: &PreparedMethod,
    place: u32,
    shape: Option<&Shape>,
) -> Option<u32>
    ensures { (P : Program) (at : At)
        → IsProgram tree.now P
        → IsPrepared P at method.now
        → result ≡ handler_around P (option_copied shape.entry) (point_at P at place) }
{
    match method.offsets.get(place as usize) {
        Some(offset) => first_handler(tree, method.handlers.as_slice(), *offset, shape),
        None => None,
    }
}

// The first of these that stands around an offset and catches an object of a shape.
fn first_handler(
    tree: &Tree,
    handlers: &[PreparedHandler],
    offset: u32,
    shape: Option<&Shape>,
) -> Option<u32>
    ensures { (P : Program) → IsProgram tree.now P
        → result ≡ first_handler P (option_copied shape.entry) (catches_around handlers.now offset) }
{
    let mut rest = handlers;
    while let Some((handler, more)) = rest.split_first() {
        if stands_around(handler, offset) && catches(tree, handler, shape) {
            return Some(handler.to);
        }
        rest = more;
    }
    None
}

// Whether a handler stands around an offset.
fn stands_around(handler: &PreparedHandler, offset: u32) -> bool
    ensures { result ≡ stands_around handler.now offset }
{
    handler.start <= offset && offset < handler.end
}

// Whether a handler catches an object of a shape.
fn catches(tree: &Tree, handler: &PreparedHandler, shape: Option<&Shape>) -> bool
    ensures { (P : Program) → IsProgram tree.now P
        → result ≡ catches P handler.now.class (option_copied shape.entry) }
{
    match &handler.class {
        Some(class) => match shape {
            Some(shape) => is_instance(tree, shape, class.bytes()),
            None => false,
        },
        None => true,
    }
}
