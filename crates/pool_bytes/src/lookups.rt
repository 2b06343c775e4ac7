//! What the constants of a pool that is not checked yet hold, and what its indices name.
ghost use Rattle.std.specs.Prelude.{◌≡◌, ◌≤◌, ◌↔◌, IfSome, IsTrue, length, option_and_then};
ghost use Rattle.std.specs.Option.{option_copied};
ghost use Rattle.class_model.specs.Pool.{constant_at};
ghost use Rattle.class_model.specs.PoolChecks.{utf8_at, text_of, class_name_of, name_and_type_of, IsClassAt, IsNameAndTypeAt, name_at};
ghost use Rattle.class_model.specs.Spelling.{constant_bytes};

use crate::raw::{RawConst, RawForm, RawPool};
use class_model::Const;

impl RawConst<'_> {
    /// The bytes of a Utf8 constant's text: at most 65,535.
    pub(crate) fn text(&self) -> Option<&[u8]>
        ensures text { option_copied result ≡ text_of self.now }
        ensures len { IfSome result (λ text. length text.now ≤ 65535) }
    {
        match self.form() {
            RawForm::Text(text) => Some(text),
            RawForm::Constant(Const::Utf8(text)) => Some(text.bytes()),
            RawForm::Constant(_) => None,
        }
    }

    /// The name of a class.
    pub(crate) fn class_name(&self) -> Option<u16>
        ensures { result ≡ class_name_of self.now }
    {
        match self.form() {
            RawForm::Constant(Const::Class(name)) => Some(*name),
            _ => None,
        }
    }

    /// A name, and its descriptor.
    fn name_and_type(&self) -> Option<(u16, u16)>
        ensures { result ≡ name_and_type_of self.now }
    {
        match self.form() {
            RawForm::Constant(Const::NameAndType(name, descriptor)) => Some((*name, *descriptor)),
            _ => None,
        }
    }

    /// How many bytes it takes, its tag counted (JVM Specification SE 8, 4.4.1 to 4.4.10).
    pub(crate) fn byte_len(&self) -> u64
        ensures { result ≡ length (constant_bytes self.now) }
    {
        match self.form() {
            RawForm::Text(text) => text.len() as u64 + 3,
            RawForm::Constant(constant) => byte_len(constant),
        }
    }
}

fn byte_len(constant: &Const) -> u64
    ensures { result ≡ length (constant_bytes constant.now) }
{
    match constant {
        Const::Utf8(text) => text.bytes().len() as u64 + 3,
        Const::Class(_) | Const::String(_) | Const::MethodType(_) => 3,
        Const::MethodHandle(..) => 4,
        Const::Long(_) | Const::Double(_) => 9,
        _ => 5,
    }
}

impl RawPool<'_> {
    /// The text of the Utf8 constant at an index.
    pub(crate) fn utf8(&self, index: u16) -> Option<&[u8]>
        ensures { option_copied result ≡ utf8_at self.now index }
    {
        self.get(index)?.text()
    }

    /// Whether an index names a Class constant.
    pub(crate) fn is_class(&self, index: u16) -> bool
        ensures { IsTrue result ↔ IsClassAt self.now index }
    {
        match self.get(index) {
            Some(constant) => constant.class_name().is_some(),
            None => false,
        }
    }

    /// Whether an index names a NameAndType constant.
    pub(crate) fn is_name_and_type(&self, index: u16) -> bool
        ensures { IsTrue result ↔ IsNameAndTypeAt self.now index }
    {
        self.name_and_type(index).is_some()
    }

    /// The name and the descriptor of the NameAndType constant at an index.
    pub(crate) fn name_and_type(&self, index: u16) -> Option<(u16, u16)>
        ensures { result ≡ option_and_then name_and_type_of (constant_at self.now index) }
    {
        self.get(index)?.name_and_type()
    }

    /// The name of the NameAndType constant at an index.
    pub(crate) fn name(&self, index: u16) -> Option<&[u8]>
        ensures { option_copied result ≡ name_at self.now index }
    {
        let (name, _) = self.name_and_type(index)?;
        self.utf8(name)
    }
}
