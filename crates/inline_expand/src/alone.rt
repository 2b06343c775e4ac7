//! The flat code of a method by itself.
ghost use Rattle.std.specs.Prelude.{◌≡◌, IfOk, length};
ghost use Rattle.expanded_code.specs.Alone.{alone_point, alone_points, flat_alone, handlers_at};
ghost use Rattle.expanded_code.specs.AloneAnswers.{AnswersAlone};
ghost use Rattle.inline_expand.specs.Inner.Hosts.{HasUnits};
ghost use Rattle.member_link.specs.Scope.{instructions};
ghost use Rattle.type_rules.specs.Typed.{Typed};
ghost use Rattle.type_rules.specs.Verified.{TypesFolder};

use crate::handlers::Around;
use crate::host::Host;
use crate::numbered::numbered_frame;
use crate::numbers::Numbers;
use crate::renumbered::renumbered;
use class_model::{Frame, MethodAt, NoMemory, Placed};
use class_tree::Tree;
use flow_code::{Flat, FlatHandlerList, FlatInstr, KeptFault, Point, PointList, Reason, SiteList};
use std::alloc::Global;
use type_rules::{
    TypedFolder, a_method_stands_in_order, a_typed_body_goes_to_stated_frames,
    a_typed_folder_types_each_method, a_typed_method_types_each_instruction,
};

/// The flat code of a method by itself: its instructions in order, with points for targets, each
/// with its frame and the handlers around it; no callee stands in place of a call, and no `new` is a
/// site. The frames type the folder.
///
/// # Errors
/// `Kept(Host)` exactly where the method has no code; `NoMemory`, where memory runs out.
pub fn flat_alone(
    alloc: Global,
    tree: &Tree,
    typed: &TypedFolder,
    at: MethodAt,
) -> Result<Flat, KeptFault>
    requires { TypesFolder tree.now typed.now }
    ensures { AnswersAlone tree.now typed.now at result }
{
    a_typed_folder_types_each_method();
    let Some(host) = Host::at(alloc, tree, at)? else {
        return Err(KeptFault::Kept(Reason::Host));
    };
    let Some(frames) = typed.of(at) else {
        unreachable!()
    };
    let flat = flat_of(alloc, &host, at, frames.as_slice());
    // let go by a call, so that its drop is proved once
    drop(host);
    Ok(flat?)
}

// The flat code of a method by itself, by the frames that type it.
fn flat_of(alloc: Global, host: &Host<'_>, at: MethodAt, frames: &[Frame]) -> Result<Flat, NoMemory>
    requires typed { Typed host.now frames.now }
    requires units { HasUnits host.now }
    ensures { IfOk result (λ flat. flat ≡ flat_alone host.now at frames.now) }
{
    a_typed_method_types_each_instruction();
    a_method_stands_in_order();
    a_typed_body_goes_to_stated_frames();
    let points = points_of(alloc, host, at.class, frames)?;
    Ok(Flat::of(at, host.max_locals(), points, SiteList::new(alloc)))
}

// The points of a method, by its frames.
fn points_of(
    alloc: Global,
    host: &Host<'_>,
    class: usize,
    frames: &[Frame],
) -> Result<PointList, NoMemory>
    requires { length frames.now ≡ length (instructions host.now) }
    ensures { IfOk result (λ points.
        points ≡ alone_points host.now class (instructions host.now) frames.now) }
{
    let instrs = host.instrs();
    let mut points = Vec::with_capacity(alloc, instrs.len())?;
    let numbers = Numbers::own(host);
    let mut around = Around::none(alloc);
    for number in 0..instrs.len() {
        let placed = &instrs[number];
        around = around.moved(alloc, &numbers, placed.at)?;
        points.push(point(
            alloc,
            host,
            class,
            placed,
            &frames[number],
            &around.handlers,
        )?)?;
    }
    Ok(PointList::from_vec(points))
}

// An instruction as a point, with its frame and these handlers, which are those around it.
fn point(
    alloc: Global,
    host: &Host<'_>,
    class: usize,
    placed: &Placed,
    frame: &Frame,
    handlers: &FlatHandlerList,
) -> Result<Point, NoMemory>
    requires { handlers.now ≡ handlers_at host.now placed.now.at }
    ensures { IfOk result (λ point. point ≡ alone_point host.now class placed.now frame.now) }
{
    Ok(Point {
        instr: FlatInstr::Of {
            class,
            instr: renumbered(alloc, &Numbers::own(host), &placed.instr)?,
        },
        typed: numbered_frame(alloc, host, frame)?,
        handlers: handlers.copy()?,
    })
}
