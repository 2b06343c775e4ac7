//! What an instruction is written as: as it is, or what its virtual operands leave of it.
ghost use Rattle.std.specs.Prelude.{◌≡◌, ◌≤◌, ◌+◌, Some, IfOk, length};
ghost use Rattle.std.specs.Option.{option_copied};
ghost use Rattle.class_tree.specs.Headers.{Classes, headers_of};
ghost use Rattle.code_drafts.specs.TemplateWords.{IsFieldAt, half_jump, half_plain, template_meant};
ghost use Rattle.code_drafts.specs.Writable.{scope};
ghost use Rattle.flow_code.specs.ReadTypes.{is_site_object as is_site_type};
ghost use Rattle.making_code.specs.Units.{fields_at};
ghost use Rattle.member_link.specs.Machine.CallSteps.{is_object_init as is_object_constructor};
ghost use Rattle.member_link.specs.Machine.Links.{AreLinksOf};
ghost use Rattle.member_link.specs.Machine.Programs.{Links};
ghost use Rattle.member_link.specs.References.{Reference as ReferenceOf};
ghost use Rattle.member_link.specs.Rows.Operands.{lowest_of};
ghost use Rattle.plan_flow.specs.Narrow.{HasFewLocals, IsNarrow};
ghost use Rattle.plan_flow.specs.PlanScope.{PlanScope, field_number as number_of_field, scope_of};
ghost use Rattle.plan_flow.specs.PlanSlots as slots;
ghost use Rattle.plan_flow.specs.PlanTable as tables;
ghost use Rattle.plan_flow.specs.Written.Routes.{Route};
ghost use Rattle.plan_flow.specs.Written.Templates as templates;
ghost use Rattle.virtual_state.specs.States.{State};

use crate::setting::Setting;
use class_model::opcodes::INVOKESPECIAL;
use class_model::{Frame, INIT, Instr, NoMemory, Text, VType};
use class_tree::OBJECT;
use flow_code::Flat;
use member_link::{Reference, parameter_count};
use plan_flow::{
    class_named, field_number, field_of, held, is_site_below, member_of, operand, site_at,
};
use virtual_state::{Slot, VState};

/// What an instruction is written as.
#[derive(Clone, Copy)]
pub enum Template {
    AsItIs,
    Nothing,
    /// The fields of a site's new object are set to zero.
    Clear(u16),
    /// A field of a site's object is loaded, or stored, by the numbers of the site and of the field.
    Load(u16, usize),
    Store(u16, usize),
    /// The answer of a test is pushed.
    Answer(bool),
    /// The plain ones of so many operands are popped.
    Pop(usize),
    /// The plain entries are moved as this opcode moves all.
    Move(u8),
    /// The make code on the edge to the target, behind a pop of a plain operand, if there is one.
    Jump(bool),
}

/// What an instruction of a class is written as at a point with these types, in a state.
///
/// # Errors
/// `NoMemory`, where memory runs out.
pub fn template_of(
    setting: &Setting<'_>,
    at: usize,
    types: &Frame,
    state: &VState,
    class: usize,
    instr: &Instr,
) -> Result<Template, NoMemory>
    requires narrow { IsNarrow setting.now.flat }
    requires types { HasFewLocals types.now }
    ensures { IfOk result (λ found. (links : Links) (route : Route)
        → AreLinksOf (headers_of setting.now.classes) links
        → template_meant (scope setting.now links) types.now state.now route found
        ≡ templates.template (scope setting.now links) at types.now state.now route class instr.now) }
{
    match instr {
        Instr::New(_) => Ok(of_new(site_at(setting.flat, at))),
        Instr::Load(_, local) => Ok(of_moved(held(state, usize::from(*local)))),
        Instr::Store(_, _) => Ok(of_moved(held(state, operand(types, 0)))),
        Instr::Cast(_) => Ok(of_moved(held(state, operand(types, 0)))),
        Instr::Enter => Ok(of_moved(held(state, operand(types, 0)))),
        Instr::Leave => Ok(of_moved(held(state, operand(types, 0)))),
        Instr::Invoke(opcode, index, _) => {
            let method = member_of(setting.tree, class, *index)?;
            Ok(of_call(setting.flat, types, state, *opcode == INVOKESPECIAL, method))
        }
        Instr::GetField(index) => {
            let field = field_of(setting.tree, class, *index)?;
            Ok(of_get_field(setting, types, state, field))
        }
        Instr::PutField(index) => {
            let field = field_of(setting.tree, class, *index)?;
            Ok(of_put_field(setting, types, state, field))
        }
        Instr::Shuffle(opcode) => Ok(Template::Move(*opcode)),
        Instr::IfNull(_, _) => Ok(of_null_jump(held(state, operand(types, 0)))),
        Instr::IfSame(_, _) => {
            let one = held(state, operand(types, 1));
            Ok(of_same_jump(one, held(state, operand(types, 0))))
        }
        Instr::InstanceOf(index) => {
            let name = class_named(setting.tree, class, *index);
            Ok(of_instance_of(setting, types, state, name))
        }
        Instr::Goto(_) => Ok(Template::Jump(false)),
        _ => Ok(Template::AsItIs),
    }
}

// Of a new, by the site of its point, if it is one.
fn of_new(site: Option<u16>) -> Template
    ensures { (s : PlanScope) (f : Frame) (state : State) (route : Route)
        → template_meant s f state route result ≡ templates.new_template s site }
{
    match site {
        Some(site) => Template::Clear(site),
        None => Template::AsItIs,
    }
}

// Nothing, where a slot is virtual.
fn of_moved(slot: Slot) -> Template
    ensures { (s : PlanScope) (f : Frame) (state : State) (route : Route)
        → template_meant s f state route result ≡ templates.nothing_of slot }
{
    match slot {
        Slot::Virt(_) => Template::Nothing,
        Slot::Plain => Template::AsItIs,
        Slot::Unusable => Template::AsItIs,
    }
}

// Of a call of a method.
fn of_call(
    flat: &Flat,
    types: &Frame,
    state: &VState,
    is_special: bool,
    method: Option<Reference>,
) -> Template
    requires narrow { IsNarrow flat.now }
    requires types { HasFewLocals types.now }
    ensures { (classes : Classes) (links : Links) (route : Route)
        → template_meant (scope_of classes links flat.now) types.now state.now route result
        ≡ templates.init_template (scope_of classes links flat.now) types.now state.now is_special
        method }
{
    let Some(method) = method else {
        return Template::AsItIs;
    };
    if !is_special || !is_object_init(&method) {
        return Template::AsItIs;
    }
    let desc = method.desc.bytes();
    let count = parameter_count(desc);
    if is_virtual(held(state, operand(types, count))) || is_site_receiver(flat, types, count) {
        Template::Pop(count + 1)
    } else {
        Template::AsItIs
    }
}

// Whether a method is the instance initialiser of java/lang/Object.
fn is_object_init(method: &Reference) -> bool
    ensures { result ≡ is_object_constructor method.now }
{
    method.class.bytes() == OBJECT && method.name.bytes() == INIT
}

// Whether the receiver of a call of so many arguments is the object of a candidate site by its type.
fn is_site_receiver(flat: &Flat, types: &Frame, count: usize) -> bool
    requires { IsNarrow flat.now }
    ensures { result ≡ is_site_type flat.now (lowest_of (count + 1) types.now.stack) }
{
    let stack = types.stack.as_slice();
    match stack.get(stack.len().saturating_sub(count).saturating_sub(1)) {
        Some(lowest) => is_site_object(flat, lowest),
        None => false,
    }
}

// Whether a type is that of the object of a candidate site.
fn is_site_object(flat: &Flat, of_type: &VType) -> bool
    requires { IsNarrow flat.now }
    ensures { result ≡ is_site_type flat.now of_type.now }
{
    match of_type {
        VType::Uninit(at) => site_at(flat, *at as usize).is_some(),
        _ => false,
    }
}

// Whether a slot holds a virtual object.
fn is_virtual(slot: Slot) -> bool
    ensures { result ≡ templates.is_virtual slot }
{
    match slot {
        Slot::Virt(_) => true,
        Slot::Plain | Slot::Unusable => false,
    }
}

// Of a getfield of a field, by the class that declares it.
fn of_get_field(
    setting: &Setting<'_>,
    types: &Frame,
    state: &VState,
    field: Option<Reference>,
) -> Template
    requires { HasFewLocals types.now }
    ensures { (links : Links) (route : Route)
        → template_meant (scope setting.now links) types.now state.now route result
        ≡ templates.get_template (scope setting.now links) state.now
        (slots.held state.now (tables.operand types.now 0)) field }
{
    of_get(setting, state, held(state, operand(types, 0)), field)
}

// The same, by the slot of the object.
fn of_get(setting: &Setting<'_>, state: &VState, object: Slot, field: Option<Reference>) -> Template
    ensures { (links : Links) (f : Frame) (route : Route)
        → template_meant (scope setting.now links) f state.now route result
        ≡ templates.get_template (scope setting.now links) state.now object field }
{
    let Slot::Virt(site) = object else {
        return Template::AsItIs;
    };
    let Some(field) = field else {
        return Template::AsItIs;
    };
    match field_at(setting, site, &field) {
        Some(number) => of_get_at(state, site, number),
        None => Template::Nothing,
    }
}

// The same of a virtual object, by the number of the field.
fn of_get_at(state: &VState, site: u16, number: usize) -> Template
    ensures { (s : PlanScope) (f : Frame) (route : Route) (field : ReferenceOf)
        → number_of_field s site field ≡ Some number
        → template_meant s f state.now route result
        ≡ templates.get_template s state.now (Slot.Virt site) (Some field) }
{
    match state.field(site, number) {
        Some(Slot::Virt(_)) => Template::Nothing,
        Some(Slot::Plain) => Template::Load(site, number),
        Some(Slot::Unusable) => Template::Load(site, number),
        None => Template::Load(site, number),
    }
}

// Of a putfield of a field, by the class that declares it.
fn of_put_field(
    setting: &Setting<'_>,
    types: &Frame,
    state: &VState,
    field: Option<Reference>,
) -> Template
    requires { HasFewLocals types.now }
    ensures { (links : Links) (route : Route)
        → template_meant (scope setting.now links) types.now state.now route result
        ≡ templates.put_template (scope setting.now links)
        (slots.held state.now (tables.operand types.now 1))
        (slots.held state.now (tables.operand types.now 0)) field }
{
    let object = held(state, operand(types, 1));
    let value = held(state, operand(types, 0));
    of_put(setting, object, value, field)
}

// The same, by the slots of the object and of the value.
fn of_put(setting: &Setting<'_>, object: Slot, value: Slot, field: Option<Reference>) -> Template
    ensures { (links : Links) (f : Frame) (state : State) (route : Route)
        → template_meant (scope setting.now links) f state route result
        ≡ templates.put_template (scope setting.now links) object value field }
{
    let Slot::Virt(site) = object else {
        return Template::AsItIs;
    };
    match value {
        Slot::Virt(_) => Template::Nothing,
        Slot::Unusable => Template::AsItIs,
        Slot::Plain => of_put_plain(setting, site, field),
    }
}

// The same of a plain value that is put into a virtual object.
fn of_put_plain(setting: &Setting<'_>, site: u16, field: Option<Reference>) -> Template
    ensures { (links : Links) (f : Frame) (state : State) (route : Route)
        → template_meant (scope setting.now links) f state route result
        ≡ templates.put_template (scope setting.now links) (Slot.Virt site) Slot.Plain field }
{
    let Some(field) = field else {
        return Template::AsItIs;
    };
    match field_at(setting, site, &field) {
        Some(number) => Template::Store(site, number),
        None => Template::Nothing,
    }
}

// The number of a field among those of a site's object, if the object has a field of that number.
fn field_at(setting: &Setting<'_>, site: u16, field: &Reference) -> Option<usize>
    ensures { (links : Links) → IsFieldAt (scope setting.now links) site field.now result }
{
    let number = field_number(setting.tree, setting.flat, site, field)?;
    if number < field_count(setting.flat, site) {
        Some(number)
    } else {
        None
    }
}

// How many fields an object of a site has.
fn field_count(flat: &Flat, site: u16) -> usize
    ensures is { result ≡ length (fields_at flat.now site) }
    ensures few { result ≤ usize.MAX }
{
    match flat.sites().get(usize::from(site)) {
        Some(one) => one.fields.len(),
        None => 0,
    }
}

// Of an instanceof of a class.
fn of_instance_of(
    setting: &Setting<'_>,
    types: &Frame,
    state: &VState,
    name: Option<&Text>,
) -> Template
    requires { HasFewLocals types.now }
    ensures { (links : Links) (route : Route)
        → AreLinksOf (headers_of setting.now.classes) links
        → template_meant (scope setting.now links) types.now state.now route result
        ≡ templates.instance_template (scope setting.now links)
        (slots.held state.now (tables.operand types.now 0)) (option_copied name.entry) }
{
    of_instance(setting, held(state, operand(types, 0)), name)
}

// The same, by the slot of the object.
fn of_instance(setting: &Setting<'_>, slot: Slot, name: Option<&Text>) -> Template
    ensures { (links : Links) (f : Frame) (state : State) (route : Route)
        → AreLinksOf (headers_of setting.now.classes) links
        → template_meant (scope setting.now links) f state route result
        ≡ templates.instance_template (scope setting.now links) slot (option_copied name.entry) }
{
    let Slot::Virt(site) = slot else {
        return Template::AsItIs;
    };
    match name {
        Some(name) => Template::Answer(is_site_below(setting.tree, setting.flat, site, name)),
        None => Template::AsItIs,
    }
}

// Of a test of a reference against null.
fn of_null_jump(slot: Slot) -> Template
    ensures { (s : PlanScope) (f : Frame) (state : State) (route : Route)
        → template_meant s f state route result ≡ templates.null_template s route slot }
{
    match slot {
        Slot::Virt(_) => Template::Jump(false),
        Slot::Plain => Template::AsItIs,
        Slot::Unusable => Template::AsItIs,
    }
}

// Of a test of two references.
fn of_same_jump(one: Slot, other: Slot) -> Template
    ensures { (s : PlanScope) (f : Frame) (state : State) (route : Route)
        → template_meant s f state route result ≡ templates.same_template s route one other }
{
    match one {
        Slot::Virt(_) => Template::Jump(is_plain(other)),
        Slot::Plain => of_half_jump(other, true),
        Slot::Unusable => of_half_jump(other, false),
    }
}

// Whether a slot holds a value or a reference to an object that was made.
fn is_plain(slot: Slot) -> bool
    ensures { result ≡ half_plain slot }
{
    match slot {
        Slot::Plain => true,
        Slot::Virt(_) | Slot::Unusable => false,
    }
}

// The same of one reference that is not virtual, which is popped or not.
fn of_half_jump(other: Slot, pops: bool) -> Template
    ensures { result ≡ half_jump other pops }
{
    match other {
        Slot::Virt(_) => Template::Jump(pops),
        Slot::Plain => Template::AsItIs,
        Slot::Unusable => Template::AsItIs,
    }
}
