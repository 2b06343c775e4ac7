//! Flat code.
ghost use Rattle.std.specs.Prelude.{◌≡◌, IfSome, IsTrue};
ghost use Rattle.std.specs.List.{AllByRecursion};
ghost use Rattle.class_model.specs.Code.{FitsLocal};
ghost use Rattle.flow_code.specs.FlatCode.{FitsFlat, IsPoint, NamesPoint};

use class_model::{Instr, Kind, MethodAt};
use flow_code::{Flat, FlatHandler, FlatInstr, Point, PointList, Site, SiteList};

/// The flat code of these points and sites, of a few kinds of instructions, if it is as `Flat::of` asks.
pub fn flat_of(host: MethodAt, locals: u16, points: PointList, sites: SiteList) -> Option<Flat>
    ensures { IfSome result (λ flat.
        flat ≡ record { host = host; locals = locals; points = points; sites = sites }) }
{
    let count = points.len();
    if fits_points(count, locals, points.as_slice()) && fits_sites(count, sites.as_slice()) {
        Some(Flat::of(host, locals, points, sites))
    } else {
        None
    }
}

fn fits_points(count: usize, locals: u16, points: &[Point]) -> bool
    ensures { IsTrue result → AllByRecursion (IsPoint count locals) points.now }
{
    match points {
        [] => true,
        [first, others @ ..] => {
            fits_point(count, locals, first) && fits_points(count, locals, others)
        }
    }
}

fn fits_point(count: usize, locals: u16, point: &Point) -> bool
    ensures { IsTrue result → IsPoint count locals point.now }
{
    fits_instr(count, locals, &point.instr) && fits_handlers(count, point.handlers.as_slice())
}

fn fits_instr(count: usize, locals: u16, instr: &FlatInstr) -> bool
    ensures { IsTrue result → FitsFlat count locals instr.now }
{
    match instr {
        FlatInstr::NullTest(local) => *local < locals,
        FlatInstr::Of { instr, .. } => match instr {
            Instr::Nop | Instr::New(_) | Instr::Return(_) | Instr::Throw => true,
            Instr::Const(_) | Instr::Shuffle(_) | Instr::Pure(_) | Instr::Divide(_) => true,
            Instr::GetField(_) | Instr::PutField(_) | Instr::Invoke(_, _, _) => true,
            Instr::Cast(_) | Instr::InstanceOf(_) | Instr::Enter | Instr::Leave => true,
            Instr::Load(kind, local) => fits_local(locals, *kind, *local),
            Instr::Store(kind, local) => fits_local(locals, *kind, *local),
            Instr::Iinc(local, _) => *local < locals,
            Instr::Goto(to) => (*to as usize) < count,
            Instr::If(_, to) => (*to as usize) < count,
            Instr::If2(_, to) => (*to as usize) < count,
            Instr::IfSame(_, to) => (*to as usize) < count,
            Instr::IfNull(_, to) => (*to as usize) < count,
            _ => false,
        },
    }
}

fn fits_local(locals: u16, kind: Kind, local: u16) -> bool
    ensures { IsTrue result → FitsLocal locals kind local }
{
    match kind {
        Kind::Long => u32::from(local) + 2 <= u32::from(locals),
        Kind::Double => u32::from(local) + 2 <= u32::from(locals),
        Kind::Int | Kind::Float | Kind::Ref => local < locals,
    }
}

fn fits_handlers(count: usize, handlers: &[FlatHandler]) -> bool
    ensures { IsTrue result
        → AllByRecursion (λ handler. NamesPoint count handler.to) handlers.now }
{
    match handlers {
        [] => true,
        [first, others @ ..] => first.to < count && fits_handlers(count, others),
    }
}

fn fits_sites(count: usize, sites: &[Site]) -> bool
    ensures { IsTrue result → AllByRecursion (λ site. NamesPoint count site.at) sites.now }
{
    match sites {
        [] => true,
        [first, others @ ..] => first.at < count && fits_sites(count, others),
    }
}
