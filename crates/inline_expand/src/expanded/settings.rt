//! A method in its place in flat code.
ghost use Rattle.std.specs.Prelude.{◌≡◌, ◌+◌, ◌≤◌, ◌++◌, ◌∷◌, [], IfOk, OnOk};
ghost use Rattle.expanded_code.specs.Expanded.{set_instr, set_type};
ghost use Rattle.flow_code.specs.FlatCode.{HasLocal};
ghost use Rattle.flow_code.specs.declared.point.FlatInstr.TheVariants.{NullTest, Of};
ghost use Rattle.inline_expand.specs.Inner.Numbers.{number_by};
ghost use Rattle.inline_expand.specs.Inner.Settings.{AreCaught, number_in, setting_of};

use crate::expanded::shapes::Narrowed;
use crate::expansions::Body;
use crate::handlers::Around;
use crate::numbers::Numbers;
use crate::renumbered::renumbered;
use class_model::{Frame, Instr, NoMemory, VType};
use flow_code::{FlatHandlerList, FlatInstr, Point};
use std::alloc::Global;

/// What a callee has beside a host: the number of the point behind its call, how its results are narrowed, and the
/// handlers of its call.
pub(crate) struct Call {
    pub(crate) behind: u16,
    pub(crate) narrowed: Narrowed,
    pub(crate) handlers: FlatHandlerList,
}

// Written out: a derived drop would be spelled out, field by field, in each function that drops one, and be proved there.
impl Drop for Call {
    fn drop(self) {
        let Call {
            behind: _,
            narrowed: _,
            handlers: _,
        } = self;
    }
}

/// A method in its place: the number of its first own point and, counted from that, of the first point of each of its instructions; the
/// first of its local units; what its callers have; the type of its uninitialised object; and what it has as a callee.
pub(crate) struct Setting<'s, 't> {
    pub(crate) body: &'s Body<'t>,
    pub(crate) starts: &'s [u16],
    pub(crate) base: u16,
    pub(crate) unit: u16,
    pub(crate) below: Frame,
    pub(crate) this: VType,
    pub(crate) call: Option<Call>,
}

// Written out: a derived drop would be spelled out, field by field, in each function that drops one, and be proved there.
impl Drop for Setting<'_, '_> {
    fn drop(self) {
        let Setting {
            body: _,
            starts: _,
            base: _,
            unit: _,
            below: _,
            this: _,
            call: _,
        } = self;
    }
}

/// Where points stand that have one class and the same handlers.
#[derive(Clone, Copy)]
pub(crate) struct Spot<'p> {
    pub(crate) class: usize,
    pub(crate) handlers: &'p FlatHandlerList,
}

impl<'s, 't> Setting<'s, 't> {
    /// The numbers of its points.
    pub(crate) fn numbers(&self) -> Numbers<'s, 't>
        ensures host { result.host.now ≡ self.now.body.now.host }
        ensures numbers { number_by result ≡ number_in self.now }
    {
        let body = self.body;
        Numbers {
            host: &body.host,
            starts: Some(self.starts),
            base: self.base,
        }
    }

    /// The handlers of its instruction at an offset, in bytes, and of others around it.
    ///
    /// # Errors
    /// `NoMemory`, where memory runs out.
    pub(crate) fn caught(&self, alloc: Global, around: Around, at: u32) -> Result<Around, NoMemory>
        requires { AreCaught self.now around }
        ensures around { IfOk result (AreCaught self.now) }
        ensures at { IfOk result (λ around. around.handlers ≡ (setting_of self.now).handlers at) }
    {
        match &self.call {
            Some(call) => Ok(Around {
                from: 0,
                until: 0,
                handlers: call.handlers.copy()?,
            }),
            None => around.moved(alloc, &self.numbers(), at),
        }
    }

    /// A type of one of its values.
    ///
    /// # Errors
    /// `NoMemory`, where memory runs out.
    pub(crate) fn type_of(&self, type_: &VType) -> Result<VType, NoMemory>
        ensures { IfOk result (λ set. set ≡ set_type (setting_of self.now) type_.now) }
    {
        match type_ {
            VType::Uninit(at) => Ok(VType::Uninit(self.numbers().number(*at))),
            VType::UninitThis => self.this.copy(),
            _ => type_.copy(),
        }
    }

    /// One of its instructions: its targets are numbers of points, and its locals units behind those of its callers.
    ///
    /// # Errors
    /// `NoMemory`, where memory runs out.
    pub(crate) fn instr(&self, alloc: Global, instr: &Instr) -> Result<Instr, NoMemory>
        requires local { HasLocal self.now.body.now.host.part.max_locals instr.now }
        requires units { self.now.unit + self.now.body.now.host.part.max_locals ≤ 65535 }
        ensures { IfOk result (λ set. set ≡ set_instr (setting_of self.now) instr.now) }
    {
        match instr {
            Instr::Load(kind, local) => Ok(Instr::Load(*kind, self.unit + *local)),
            Instr::Store(kind, local) => Ok(Instr::Store(*kind, self.unit + *local)),
            Instr::Iinc(local, by) => Ok(Instr::Iinc(self.unit + *local, *by)),
            _ => renumbered(alloc, &self.numbers(), instr),
        }
    }
}

impl Spot<'_> {
    /// A point with a frame.
    ///
    /// # Errors
    /// `NoMemory`, where memory runs out.
    pub(crate) fn point(&self, instr: Instr, typed: Frame) -> Result<Point, NoMemory>
        ensures { IfOk result (λ point. point ≡ record {
          instr = Of self.now.class instr;
          typed = typed;
          handlers = self.now.handlers.now;
        }) }
    {
        Ok(Point {
            instr: FlatInstr::Of {
                class: self.class,
                instr,
            },
            typed,
            handlers: self.handlers.copy()?,
        })
    }

    /// Appends a point with a frame.
    ///
    /// # Errors
    /// `NoMemory`, where memory runs out.
    pub(crate) fn push(
        &self,
        points: &mut Vec<Point>,
        instr: Instr,
        typed: Frame,
    ) -> Result<(), NoMemory>
        ensures { OnOk result (points.new.items ≡ points.old.items ++ record {
          instr = Of self.now.class instr;
          typed = typed;
          handlers = self.now.handlers.now;
        } ∷ []) }
    {
        points.push(self.point(instr, typed)?)?;
        Ok(())
    }

    /// Appends a point with a copy of a frame.
    ///
    /// # Errors
    /// `NoMemory`, where memory runs out.
    pub(crate) fn push_copy(
        &self,
        alloc: Global,
        points: &mut Vec<Point>,
        instr: Instr,
        typed: &Frame,
    ) -> Result<(), NoMemory>
        ensures { OnOk result (points.new.items ≡ points.old.items ++ record {
          instr = Of self.now.class instr;
          typed = typed.now;
          handlers = self.now.handlers.now;
        } ∷ []) }
    {
        match typed.copy(alloc) {
            Ok(typed) => self.push(points, instr, typed),
            // let go by a call, so that its drop is proved once
            Err(fault) => {
                drop(instr);
                Err(fault)
            }
        }
    }

    /// A test of the reference in a local unit for null.
    ///
    /// # Errors
    /// `NoMemory`, where memory runs out.
    pub(crate) fn null_test(&self, unit: u16, typed: Frame) -> Result<Point, NoMemory>
        ensures { IfOk result (λ point. point ≡ record {
          instr = NullTest unit;
          typed = typed;
          handlers = self.now.handlers.now;
        }) }
    {
        Ok(Point {
            instr: FlatInstr::NullTest(unit),
            typed,
            handlers: self.handlers.copy()?,
        })
    }
}
