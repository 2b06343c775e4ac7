//! Calls of instance initialisers, and the objects that they are on.
ghost use Rattle.std.specs.Prelude.{◌≡◌, ◌↔◌, IsTrue};
ghost use Rattle.std.specs.Option.{option_copied};
ghost use Rattle.inline_expand.specs.Inner.Initialised.{IsInitialisation, IsOtherOnThis, object_of, type_or_top};
ghost use Rattle.inline_expand.specs.Inner.Ready.{CallsOnThis};
ghost use Rattle.member_link.specs.Rows.MemberRows.{receiver};

use crate::calls::call_at;
use crate::coded::CodedMethod;
use crate::parameters::parameter_count;
use class_model::opcodes::INVOKESPECIAL;
use class_model::{Frame, INIT, Text, VType};
use class_tree::OBJECT;

/// An uninitialised object.
#[derive(Clone, Copy, Drop)]
pub(crate) enum Object {
    /// The one that the `new` at an offset made.
    New(u32),
    /// The one of an initialiser itself.
    This,
}

/// A call of an instance initialiser of a class on an uninitialised object.
#[derive(Clone, Copy)]
pub(crate) struct Initialisation<'a> {
    pub(crate) object: Object,
    pub(crate) class: &'a Text,
}

/// The call of an instance initialiser on an uninitialised object at an offset, if one stands there.
pub(crate) fn initialisation_at<'a>(method: &CodedMethod<'a>, at: u32) -> Option<Initialisation<'a>>
    ensures { IsInitialisation method.now.host method.now.frames.now at result }
{
    let Some(call) = call_at(&method.host, at) else {
        return None;
    };
    if call.opcode != INVOKESPECIAL {
        return None;
    }
    if call.reference.name.bytes() != INIT {
        return None;
    }
    let Some(frame) = method.frame_before(at) else {
        return None;
    };
    let Some(object) = object_of(receiver(frame, call.reference.desc.bytes())) else {
        return None;
    };
    Some(Initialisation {
        object,
        class: call.reference.class,
    })
}

/// Whether the method is an instance initialiser and a call of one, other than that of java/lang/Object, on the method's own
/// uninitialised object stands at an offset.
pub(crate) fn calls_on_this(method: &CodedMethod<'_>, at: u32) -> bool
    ensures { IsTrue result ↔ CallsOnThis method.now.host method.now.frames.now at }
{
    if !method.host.is_initialiser() {
        return false;
    }
    match initialisation_at(method, at) {
        Some(call) => is_other_on_this(&call),
        None => false,
    }
}

// Whether a call is on the method's own object, and of another class than java/lang/Object.
fn is_other_on_this(call: &Initialisation<'_>) -> bool
    ensures { IsTrue result ↔ IsOtherOnThis call.now }
{
    match call.object {
        Object::This => call.class.bytes() != OBJECT,
        Object::New(_) => false,
    }
}

// The receiver of a call by a descriptor, if the stack is as deep.
fn receiver<'f>(frame: &'f Frame, desc: &[u8]) -> Option<&'f VType>
    ensures { type_or_top (option_copied result) ≡ receiver frame.now desc.now }
{
    let stack = frame.stack.as_slice();
    let parameters = parameter_count(desc);
    stack.get(stack.len().saturating_sub(parameters).saturating_sub(1))
}

// The uninitialised object of a type, if it is that of one.
fn object_of(type_: Option<&VType>) -> Option<Object>
    ensures { result ≡ object_of (option_copied type_.entry) }
{
    match type_ {
        Some(VType::Uninit(at)) => Some(Object::New(*at)),
        Some(VType::UninitThis) => Some(Object::This),
        _ => None,
    }
}
