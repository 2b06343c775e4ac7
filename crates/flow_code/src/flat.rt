//! Flat code.
ghost use Rattle.std.specs.Prelude.{◌≡◌, length, option_map};
ghost use Rattle.std.specs.Option.{option_copied};
ghost use Rattle.flow_code.specs.FlatCode.{FlatCode, IsFlat, point_at};

use crate::handlers::FlatHandlerList;
use crate::point::{FlatInstr, PointList, SiteList};
use class_model::{Frame, MethodAt};
use std::marker::Model;

/// The flat code of a method, the host: its instructions and those of the methods that stand in place of their calls, as
/// points that are counted from 0. Targets, handlers and sites name points, and locals are below `locals`.
pub struct Flat {
    host: MethodAt,
    locals: u16,
    points: PointList,
    sites: SiteList,
}

// Written out: a derived drop would be spelled out, field by field, in each function that drops one, and be proved there.
impl Drop for Flat {
    fn drop(self) {
        let Flat {
            host: _,
            locals: _,
            points: _,
            sites: _,
        } = self;
    }
}

impl Model for Flat {
    ghost use Rattle.flow_code.specs.FlatCode.{FlatCode, IsFlat};

    ghost Value = { FlatCode };

    ghost view = { λ f.
        record { host = f.host; locals = f.locals; points = f.points; sites = f.sites } };

    ghost invariant = { λ f.
        IsFlat (record { host = f.host; locals = f.locals; points = f.points; sites = f.sites }) };
}

impl Flat {
    /// The flat code of these points and sites, with so many local units. Its targets, handlers and sites name points, and
    /// its locals are below that number, of a long or double both units.
    pub fn of(host: MethodAt, locals: u16, points: PointList, sites: SiteList) -> Flat
        requires { IsFlat
            (record { host = host; locals = locals; points = points; sites = sites }) }
        ensures { result ≡ record { host = host; locals = locals; points = points; sites = sites } }
    {
        Flat {
            host,
            locals,
            points,
            sites,
        }
    }

    /// How many points there are.
    pub fn len(&self) -> usize
        ensures len { result ≡ length self.now.points }
        ensures flat { IsFlat self.now }
    {
        self.points.len()
    }

    /// The instruction of a point, if there is one of that number.
    pub fn instr(&self, at: usize) -> Option<&FlatInstr>
        ensures { option_copied result ≡ option_map (λ point. point.instr) (point_at self.now at) }
    {
        match self.points.get(at) {
            Some(point) => Some(&point.instr),
            None => None,
        }
    }

    /// The types before a point, if there is one of that number.
    pub fn typed(&self, at: usize) -> Option<&Frame>
        ensures { option_copied result ≡ option_map (λ point. point.typed) (point_at self.now at) }
    {
        match self.points.get(at) {
            Some(point) => Some(&point.typed),
            None => None,
        }
    }

    /// The handlers of a point, if there is one of that number.
    pub fn handlers(&self, at: usize) -> Option<&FlatHandlerList>
        ensures { option_copied result
            ≡ option_map (λ point. point.handlers) (point_at self.now at) }
    {
        match self.points.get(at) {
            Some(point) => Some(&point.handlers),
            None => None,
        }
    }

    /// The sites, in the order in which they were given.
    pub fn sites(&self) -> &SiteList
        ensures { result.now ≡ self.now.sites }
    {
        &self.sites
    }

    /// The method that may be rewritten.
    pub fn host(&self) -> MethodAt
        ensures { result ≡ self.now.host }
    {
        self.host
    }

    /// How many local units the host and the methods in it have.
    pub fn locals(&self) -> u16
        ensures { result ≡ self.now.locals }
    {
        self.locals
    }
}
