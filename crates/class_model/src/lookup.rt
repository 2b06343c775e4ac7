//! What the indices of a pool name.
ghost use Rattle.std.specs.Prelude.{◌≡◌};
ghost use Rattle.std.specs.Option.{option_copied};
ghost use Rattle.class_model.specs.PoolChecks.{utf8_at, class_at, name_and_type_at};

use crate::pool::{Const, Pool};
use crate::text::Text;

impl Pool {
    /// The text of the Utf8 constant at an index, if one is there.
    pub fn utf8(&self, index: u16) -> Option<&Text>
        ensures { option_copied result ≡ utf8_at self.now index }
    {
        match self.get(index) {
            Some(Const::Utf8(text)) => Some(text),
            _ => None,
        }
    }

    /// The name of the class, or the descriptor of the array, of the Class constant at an index, if one is
    /// there and names a Utf8 constant.
    pub fn class_name(&self, index: u16) -> Option<&Text>
        ensures { option_copied result ≡ class_at self.now index }
    {
        match self.get(index) {
            Some(Const::Class(name)) => self.utf8(*name),
            _ => None,
        }
    }

    /// The indices of the name and of the descriptor of the NameAndType constant at an index, if one is there.
    pub fn name_and_type(&self, index: u16) -> Option<(u16, u16)>
        ensures { result ≡ name_and_type_at self.now index }
    {
        match self.get(index) {
            Some(Const::NameAndType(name, descriptor)) => Some((*name, *descriptor)),
            _ => None,
        }
    }
}
