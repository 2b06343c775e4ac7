//! What instructions of flat code do to the places of a state, whatever the state: rows of a table. The places are the local
//! units, counted from 0, and behind them the stack entries, the lowest first.
ghost use Rattle.std.specs.Prelude.{◌≡◌, ◌-◌, length};
ghost use Rattle.plan_flow.specs.Inner.RowViews.{given_by, moving_row, plan_row};
ghost use Rattle.plan_flow.specs.Narrow.{HasFewLocals};
ghost use Rattle.plan_flow.specs.PlanTable.{moving, operand, throwing};

use crate::shuffles::Form;
use class_model::{Frame, Text};
use member_link::Reference;

/// Where the value of a place comes from.
#[derive(Drop)]
pub(crate) enum Source {
    /// A value, or a reference to an object that was made.
    Plain,
    /// What a place holds.
    Place(usize),
    /// What a field of the virtual object holds that a place holds; a plain value where it holds none.
    Field { place: usize, field: Reference },
    /// The virtual object that the instruction makes.
    New,
}

/// What an instruction pushes.
#[derive(Drop)]
pub(crate) enum Gives {
    Nothing,
    One(Source),
    /// Copies of its operands.
    Operands(Form),
}

/// What becomes of the virtual objects.
#[derive(Drop)]
pub(crate) enum Change {
    Nothing,
    /// A new object of a site, whose fields hold plain values and whose monitor is not entered.
    New(u16),
    /// A field of the virtual object that a place holds becomes what another place holds.
    Put {
        place: usize,
        field: Reference,
        value: usize,
    },
    /// The monitor of the virtual object that a place holds is entered once more.
    Enter(usize),
    /// The monitor of the virtual object that a place holds is left once.
    Leave(usize),
}

/// The states in which control may take an edge.
#[derive(Clone, Copy)]
pub(crate) enum Guard {
    Always,
    /// The place holds no virtual object.
    Plain(usize),
    /// The two places may hold one reference.
    Same(usize, usize),
    /// The two places may hold two references, or a reference and null.
    Different(usize, usize),
}

/// Which objects an instruction asks to be made, besides those that its change asks.
#[derive(Drop)]
pub(crate) enum Asks {
    /// Those of so many operands.
    Operands(usize),
    /// That of the topmost operand, where it is of a site whose class is not below this one.
    NotBelow(Text),
}

/// A row of the table.
#[derive(Drop)]
pub(crate) struct Row {
    pub asks: Asks,
    /// The local unit that becomes what the topmost operand is.
    pub stored: Option<u16>,
    /// How many stack entries stay, from the lowest on.
    pub kept: usize,
    /// What stands above them.
    pub gives: Gives,
    pub change: Change,
    /// Where control may fall through or jump, if the instruction does.
    pub next: Guard,
    pub jump: Guard,
    /// Where it may throw, if it may.
    pub throws: Option<Guard>,
}

impl Row {
    /// The row of an instruction that takes so many stack entries and gives others.
    pub(crate) fn moving(types: &Frame, takes: usize, gives: Gives) -> Row
        ensures row { result ≡ moving_row (length types.now.stack - takes) gives }
        ensures is { plan_row types.now result ≡ moving types.now takes (given_by types.now gives) }
    {
        Row {
            asks: Asks::Operands(0),
            stored: None,
            kept: types.stack.len().saturating_sub(takes),
            gives,
            change: Change::Nothing,
            next: Guard::Always,
            jump: Guard::Always,
            throws: None,
        }
    }

    /// The same of one that may throw in each state.
    pub(crate) fn throwing(types: &Frame, takes: usize, gives: Gives) -> Row
        ensures { plan_row types.now result
            ≡ throwing types.now takes (given_by types.now gives) }
    {
        Row {
            throws: Some(Guard::Always),
            ..Row::moving(types, takes, gives)
        }
    }
}

/// The place of a stack entry before a point with these types, by its number counted from the top, which is 0.
pub fn operand(types: &Frame, number: usize) -> usize
    requires { HasFewLocals types.now }
    ensures { result ≡ operand types.now number }
{
    let stack = types.stack.as_slice().len();
    (types.locals.len() + stack)
        .saturating_sub(number)
        .saturating_sub(1)
}
