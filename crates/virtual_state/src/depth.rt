//! How often the monitors of virtual objects are entered.
ghost use Rattle.std.specs.Prelude.{◌≡◌, ◌+◌, ◌-◌, ◌<◌, map, IfOk};
ghost use Rattle.std.specs.Option.{IsSomeAnd};
ghost use Rattle.virtual_state.specs.Depths.{depth_of, object_with_depth, with_depth};
ghost use Rattle.virtual_state.specs.States.{object_of};

use crate::shared::SharedObject;
use crate::slot::VObject;
use crate::state::VState;
use crate::table::ObjectTable;
use class_model::{ListOf, NoMemory};
use std::alloc::Global;
use std::rc::Rc;

/// The state where the monitor of a site's object is entered once more. The object is present, and its monitor is entered
/// less than 65,535 times. All but the object is shared.
pub fn enter(alloc: Global, state: &VState, site: u16) -> Result<VState, NoMemory>
    requires { IsSomeAnd (depth_of state.now site) (λ depth. depth < 65535) }
    ensures { IfOk result (λ entered. entered ≡ with_depth state.now site (λ depth. depth + 1)) }
{
    state.is_state();
    match state.virtual_object(site) {
        Some(object) => {
            let entered = with_object(alloc, state, object, object.depth + 1)?;
            Ok(entered)
        }
        None => {
            let same = state.copy()?;
            Ok(same)
        }
    }
}

/// The state where the monitor of a site's object is left once. The object is present, and its monitor is entered. All but
/// the object is shared.
pub fn leave(alloc: Global, state: &VState, site: u16) -> Result<VState, NoMemory>
    requires { IsSomeAnd (depth_of state.now site) (λ depth. 0 < depth) }
    ensures { IfOk result (λ left. left ≡ with_depth state.now site (λ depth. depth - 1)) }
{
    state.is_state();
    match state.virtual_object(site) {
        Some(object) => {
            let left = with_object(alloc, state, object, object.depth - 1)?;
            Ok(left)
        }
        None => {
            let same = state.copy()?;
            Ok(same)
        }
    }
}

// The state with another depth of an object.
fn with_object(
    alloc: Global,
    state: &VState,
    object: &VObject,
    depth: u16,
) -> Result<VState, NoMemory>
    requires { object_of state.now.objects object.now.site ≡ Some object.now }
    ensures { IfOk result (λ changed. changed ≡ with_depth state.now object.now.site (λ _. depth)) }
{
    state.is_state();
    let objects = objects_with(alloc, state, object, depth)?;
    let (front, back) = state.slot_parts();
    let front = front.copy()?;
    let back = back.clone()?;
    let objects = Rc::new(alloc, objects)?;
    Ok(VState::from_parts(front, back, objects))
}

// The objects of a state with another depth of one.
fn objects_with(
    alloc: Global,
    state: &VState,
    object: &VObject,
    depth: u16,
) -> Result<ObjectTable, NoMemory>
    requires { object_of state.now.objects object.now.site ≡ Some object.now }
    ensures { IfOk result (λ objects.
        objects ≡ map (object_with_depth object.now.site (λ _. depth)) state.now.objects) }
{
    state.is_state();
    let fields = Vec::from_slice(alloc, object.fields.as_slice())?;
    let changed = VObject {
        site: object.site,
        fields: ListOf::from_vec(fields),
        depth,
    };
    let mut objects = state.objects().copy(alloc)?;
    objects.put(SharedObject::new(alloc, changed)?)?;
    objects.is_in_order();
    Ok(objects)
}
