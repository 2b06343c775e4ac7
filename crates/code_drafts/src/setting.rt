//! What the code of a method is written from.
ghost use Rattle.std.specs.Prelude.{◌≡◌};

use class_tree::Tree;
use field_constructors::Constructors;
use flow_code::Flat;
use materialise::Units;
use plan_flow::Plan;
use std::marker::Model;

/// A flat code of a method of a folder, a plan of it, and what is found once of the folder's classes and of the flat code.
pub struct Setting<'t> {
    pub(crate) tree: &'t Tree,
    pub(crate) flat: &'t Flat,
    pub(crate) plan: &'t Plan,
    pub(crate) constructors: &'t Constructors<'t>,
    pub(crate) units: &'t Units<'t>,
}

// Written out: a derived drop would be spelled out, field by field, in each function that drops one, and be proved there.
impl Drop for Setting<'_> {
    fn drop(self) {
        let Setting {
            tree: _,
            flat: _,
            plan: _,
            constructors: _,
            units: _,
        } = self;
    }
}

impl<'t> Setting<'t> {
    /// Of a flat code of a method of a folder and a plan of it.
    pub fn new(
        tree: &'t Tree,
        flat: &'t Flat,
        plan: &'t Plan,
        constructors: &'t Constructors<'t>,
        units: &'t Units<'t>,
    ) -> Self
        requires constructors { constructors.now ≡ tree.now }
        requires units { units.now ≡ flat.now }
        ensures classes { result.classes ≡ tree.now }
        ensures flat { result.flat ≡ flat.now }
        ensures plan { result.plan ≡ plan.now }
    {
        Setting {
            tree,
            flat,
            plan,
            constructors,
            units,
        }
    }

    /// The tree of the folder.
    pub fn tree(&self) -> &'t Tree
        ensures { result.now ≡ self.now.classes }
    {
        self.tree
    }

    /// The flat code.
    pub fn flat(&self) -> &'t Flat
        ensures { result.now ≡ self.now.flat }
    {
        self.flat
    }

    /// The plan.
    pub fn plan(&self) -> &'t Plan
        ensures { result.now ≡ self.now.plan }
    {
        self.plan
    }

    /// The field constructors of the folder's classes.
    pub fn constructors(&self) -> &'t Constructors<'t>
        ensures { result.now ≡ self.now.classes }
    {
        self.constructors
    }

    /// The local units of the written code.
    pub fn units(&self) -> &'t Units<'t>
        ensures { result.now ≡ self.now.flat }
    {
        self.units
    }
}

impl<'t> Model for Setting<'t> {
    ghost use Rattle.std.specs.Prelude.{◌≡◌};
    ghost use Rattle.code_drafts.specs.Emits.{Writing};

    ghost Value = { Writing };

    ghost view = { λ setting. record {
      classes = setting.tree.now;
      flat = setting.flat.now;
      plan = setting.plan.now;
    } };

    ghost invariant = { λ setting. (setting.constructors.now ≡ setting.tree.now) × (setting.units.now ≡ setting.flat.now) };
}
