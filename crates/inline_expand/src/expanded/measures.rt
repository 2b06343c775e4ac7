//! How large the flat code of a host is with its callees in place of their calls.
ghost use Rattle.std.specs.Prelude.{IfOk};
ghost use Rattle.std.specs.List.{AllByRecursion};
ghost use Rattle.inline_expand.specs.Inner.Measures.{IsMeasure};
ghost use Rattle.inline_expand.specs.Inner.Steps.{IsBody};

use crate::expanded::layouts::{Layout, layouts_of, starts_of, units_of};
use crate::expansions::Body;
use class_model::NoMemory;
use std::alloc::Global;

/// The layouts of callees' bodies; the number of the first point of each of a host's instructions, and of what is behind them; how
/// many points there are; and how many local units its callees have. What is more than a `u16` counts stands as its
/// greatest.
pub(crate) struct Measure {
    pub(crate) layouts: Vec<Layout>,
    pub(crate) starts: Vec<u16>,
    pub(crate) points: u16,
    pub(crate) units: u16,
}

// Written out: a derived drop would be spelled out, field by field, in each function that drops one, and be proved there.
impl Drop for Measure {
    fn drop(self) {
        let Measure {
            layouts: _,
            starts: _,
            points: _,
            units: _,
        } = self;
    }
}

/// That of a host whose callees are among these bodies.
///
/// # Errors
/// `NoMemory`, where memory runs out.
pub(crate) fn measure_of(
    alloc: Global,
    bodies: &[Body<'_>],
    host: &Body<'_>,
) -> Result<Measure, NoMemory>
    requires bodies { AllByRecursion IsBody bodies.now }
    requires host { IsBody host.now }
    ensures { IfOk result (IsMeasure bodies.now host.now) }
{
    let layouts = layouts_of(alloc, bodies)?;
    let starts = starts_of(alloc, layouts.as_slice(), host, None)?;
    let points = starts[host.host.instrs().len()];
    let units = units_of(layouts.as_slice(), host.steps.as_slice());
    Ok(Measure {
        layouts,
        starts,
        points,
        units,
    })
}
