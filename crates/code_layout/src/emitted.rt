//! Code that was emitted.
ghost use Rattle.std.specs.Prelude.{◌≡◌};
ghost use Rattle.code_layout.specs.Emitting.{IsEmitted};

use class_model::{Instr, ListOf};
use std::marker::Model;

/// A handler of an item: the number of the item that control goes to, and the index of the caught class in the constant pool,
/// or 0.
#[derive(Clone, Copy, PartialEq, Eq)]
pub struct Catch {
    pub to: u32,
    pub catch_type: u16,
}

/// A list of handlers.
pub type CatchList = ListOf<Catch>;

/// An instruction that was emitted, whose jump targets are numbers of items; whether it is the jump inside a test against
/// null, an `ifnonnull` to three items on, over an `aconst_null` and an `athrow`; and the handlers of what it throws.
#[derive(Drop)]
pub struct EmitItem {
    pub instr: Instr,
    pub near: bool,
    pub catches: CatchList,
}

/// A list of items.
pub type EmitItemList = ListOf<EmitItem>;

/// Code that was emitted: at least one item. Contracts see the list of its items.
#[derive(Drop)]
pub struct Emitted {
    items: EmitItemList,
}

impl Model for Emitted {
    ghost use Rattle.std.specs.Prelude.{List};
    ghost use Rattle.code_layout.specs.declared.emitted.EmitItem.{EmitItem};
    ghost use Rattle.code_layout.specs.Emitting.{IsEmitted};

    ghost Value = { List EmitItem };

    ghost view = { λ emitted. emitted.items };

    ghost invariant = { λ emitted. IsEmitted emitted.items };
}

impl Emitted {
    /// The code of these items. There is at least one, targets and handlers are numbers of items, items that are `near` are as
    /// said there, and each instruction could be spelled if it reached its targets.
    pub fn of(items: EmitItemList) -> Emitted
        requires { IsEmitted items }
        ensures { result ≡ items }
    {
        Emitted { items }
    }

    /// The items, in order.
    pub fn as_slice(&self) -> &[EmitItem]
        ensures items { result.now ≡ self.now }
        ensures emitted { IsEmitted self.now }
    {
        self.items.as_slice()
    }
}
