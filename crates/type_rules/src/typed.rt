//! The frames of the methods of a folder.
ghost use Rattle.std.specs.Prelude.{◌≡◌, [], ◌∷◌, ◌++◌, OnOk, OnErr};
ghost use Rattle.std.specs.Option.{option_copied, option_and_then};
ghost use Rattle.std.specs.List.{slice_get};
ghost use Rattle.flow_code.specs.TypedFrames.{typed_frames_at};

use class_model::{Frame, ListOf, MethodAt, NoMemory};
use std::alloc::Global;
use std::marker::Model;

/// The frames of a method with code, one for each instruction.
pub type TypedMethod = ListOf<Frame>;

/// The frames of the methods of a class, by their numbers; a method without code has none.
pub type TypedClass = ListOf<Option<TypedMethod>>;

/// The frames of the methods of a folder's classes. Contracts see them class by class.
#[derive(Drop)]
pub struct TypedFolder {
    classes: ListOf<TypedClass>,
}

impl Model for TypedFolder {
    ghost use Rattle.std.specs.Prelude.{List, Option};
    ghost use Rattle.class_model.specs.declared.frame.Frame.{Frame};

    ghost Value = { List (List (Option (List Frame))) };

    ghost view = { λ typed. typed.classes };
}

impl TypedFolder {
    /// No class.
    pub fn new(alloc: Global) -> Self
        ensures { result ≡ [] }
    {
        TypedFolder {
            classes: ListOf::new(alloc),
        }
    }

    /// Appends the frames of a class. Where memory runs out, the folder stays as it was.
    pub fn push(&mut self, class: TypedClass) -> Result<(), NoMemory>
        ensures ok { OnOk result (self.new ≡ self.old ++ class ∷ []) }
        ensures err { OnErr result (self.new ≡ self.old) }
    {
        self.classes.push(class)
    }

    /// The frames of a method. Of frames that type a folder, None exactly where no method with code has these numbers
    /// (`a_typed_folder_types_each_method`).
    pub fn of(&self, at: MethodAt) -> Option<&TypedMethod>
        ensures { option_copied result ≡ typed_frames_at self.now at }
    {
        self.classes.get(at.class)?.get(at.method)?.as_ref()
    }
}
