//! What the library does at its turn (this project's profile). An action that it may not take is a fault, which leaves all else as
//! it was; each other one is a step.
ghost use Rattle.std.specs.Prelude.{◌≡◌, ◌<◌, ◌-◌, ◌^◌, true, false, IfOk, OnOk, OnErr};
ghost use Rattle.member_link.specs.Machine.Acting.{act, acted, is_fault};
ghost use Rattle.member_link.specs.Machine.Programs.{Program};
ghost use Rattle.member_link.specs.Machine.Stepping.{is_library_turn};
ghost use Rattle.machine_step.specs.Bounded.{CanGoOn, IsBoundedWorld};
ghost use Rattle.member_link.specs.TreePrograms.{IsProgram};
ghost use Rattle.machine_step.specs.Room.{HasRoom};
ghost use Rattle.machine_run.specs.Outcomes.{ended, halt_behind};

pub(crate) mod answers;
pub(crate) mod array_texts;
pub(crate) mod arrays;
pub(crate) mod awaited;
pub(crate) mod calls;
pub(crate) mod constructions;
pub(crate) mod given;
pub(crate) mod handles;
pub(crate) mod objects;

use crate::acting::answers::{return_to, throw_to};
use crate::acting::arrays::{array_get, array_length, array_set, new_array};
use crate::acting::calls::call;
use crate::acting::constructions::construct;
use crate::acting::objects::new_external;
use crate::laws::{a_state_goes_on, a_tree_has_a_program, an_action_keeps_next_places};
use crate::stepping::spend;
use class_model::NoMemory;
use class_tree::Tree;
use machine_code::Prepared;
use machine_laws::an_action_keeps_counts_within_bounds;
use machine_step::{Acted, World, WorldState};
use machine_values::Action;
use std::alloc::Global;

/// Takes an action of the library, whose frame is on top, in a world that is not spent.
///
/// # Errors
///
/// `NoMemory` where memory runs out; the world is then spent.
pub fn act(
    alloc: Global,
    tree: &Tree,
    world: &mut World,
    action: &Action,
) -> Result<Acted, NoMemory>
    requires few { world.old.world.steps < 2 ^ 64 - 1 }
    requires turn { is_library_turn world.old.world.frames ≡ true }
    requires unspent { world.old.spent ≡ false }
    ensures acted { IfOk result (λ acted. (P : Program) → IsProgram tree.now P
        → ended (halt_behind acted) world.new.world ≡ act P action.now world.old.world) }
    ensures unspent { OnOk result (world.new.spent ≡ false) }
    ensures spent { OnErr result (world.new.spent ≡ true) }
{
    let mut prepared = Prepared::new(alloc, tree);
    act_with(alloc, &mut prepared, world, action)
}

/// Takes an action with the methods that are prepared so far, in a world that is not spent.
///
/// # Errors
///
/// `NoMemory` where memory runs out; the world is then spent.
pub(crate) fn act_with(
    alloc: Global,
    prepared: &mut Prepared<'_>,
    world: &mut World,
    action: &Action,
) -> Result<Acted, NoMemory>
    requires few { world.old.world.steps < 2 ^ 64 - 1 }
    requires turn { is_library_turn world.old.world.frames ≡ true }
    requires unspent { world.old.spent ≡ false }
    ensures same { prepared.new ≡ prepared.old }
    ensures acted { IfOk result (λ acted. (P : Program) → IsProgram prepared.old P
        → ended (halt_behind acted) world.new.world ≡ act P action.now world.old.world) }
    ensures unspent { OnOk result (world.new.spent ≡ false) }
    ensures spent { OnErr result (world.new.spent ≡ true) }
{
    match act_on(alloc, prepared, &mut world.state, action) {
        Ok(acted) => Ok(acted),
        Err(NoMemory) => {
            spend(alloc, &mut world.state);
            world.spent = true;
            Err(NoMemory)
        }
    }
}

// Takes an action, which is a step unless it is a fault.
fn act_on(
    alloc: Global,
    prepared: &mut Prepared<'_>,
    w: &mut WorldState,
    action: &Action,
) -> Result<Acted, NoMemory>
    requires few { w.old.steps < 2 ^ 64 - 1 }
    requires bounded { IsBoundedWorld w.old }
    requires turn { is_library_turn w.old.frames ≡ true }
    ensures same { prepared.new ≡ prepared.old }
    ensures acted { IfOk result (λ acted. (P : Program) → IsProgram prepared.old P
        → ended (halt_behind acted) w.new ≡ act P action.now w.old) }
    ensures bounded { OnOk result (IsBoundedWorld w.new) }
{
    a_tree_has_a_program(prepared.tree());
    an_action_keeps_counts_within_bounds();
    an_action_keeps_next_places();
    let steps = w.steps;
    w.steps = steps + 1;
    let acted = take_action(alloc, prepared, w, action)?;
    if is_fault(acted) {
        w.steps = steps;
        Ok(acted)
    } else {
        Ok(acted)
    }
}

/// Whether the library may not take an action.
pub(crate) fn is_fault(acted: Acted) -> bool
    ensures { result ≡ is_fault (halt_behind acted) }
{
    matches!(acted, Acted::Fault)
}

// Takes an action by its kind.
fn take_action(
    alloc: Global,
    prepared: &mut Prepared<'_>,
    w: &mut WorldState,
    action: &Action,
) -> Result<Acted, NoMemory>
    requires room { HasRoom w.old.memory }
    requires places { CanGoOn w.old.frames }
    requires turn { is_library_turn w.old.frames ≡ true }
    ensures same { prepared.new ≡ prepared.old }
    ensures acted { IfOk result (λ done. (P : Program) → IsProgram prepared.old P
        → ended (halt_behind done) w.new ≡ acted P action.now w.old) }
    ensures fault { IfOk result (λ acted. acted ≡ Acted.Fault → w.new ≡ w.old) }
{
    a_state_goes_on(w);
    let tree = prepared.tree();
    match action {
        Action::Call {
            class,
            name,
            desc,
            values,
        } => call(alloc, prepared, w, class, name, desc, values),
        Action::Construct {
            class,
            desc,
            values,
        } => construct(alloc, prepared, w, class, desc, values),
        Action::Return(value) => return_to(alloc, prepared, w, *value),
        Action::Throw(number) => throw_to(alloc, prepared, w, *number),
        Action::ArrayGet { at, index } => array_get(alloc, tree, w, *at, *index),
        Action::ArraySet { at, index, value } => Ok(array_set(tree, w, *at, *index, *value)),
        Action::ArrayLength(at) => array_length(alloc, w, *at),
        Action::NewArray { desc, length } => new_array(alloc, tree, w, desc, *length),
        Action::NewExternal { class, also } => new_external(alloc, tree, w, class, also),
        Action::Stop => Ok(Acted::Stopped),
    }
}
