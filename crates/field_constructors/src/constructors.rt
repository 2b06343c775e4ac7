//! The field constructors of the classes of a folder.
ghost use Rattle.std.specs.Prelude.{◌≡◌, ℕ, slice_get, Some, IfOk};
ghost use Rattle.class_model.specs.declared.header.Header.{Header};
ghost use Rattle.class_tree.specs.Headers.{headers_of};
ghost use Rattle.class_tree.specs.Order.{place_of};
ghost use Rattle.class_tree.specs.declared.place.Place.TheVariants.{Folder};
ghost use Rattle.field_constructors.specs.Constructors.{IsConstructor, IsConstructorAt, field_descs};

use crate::folder_numbers::folder_number;
use crate::free::constructor;
use crate::handles::handled_initialisers;
use crate::object_fields::field_texts;
use class_model::{NoMemory, Text, TextList};
use class_tree::{Place, Tree, a_tree_is_a_hierarchy};
use std::alloc::Global;
use std::marker::Model;

/// The field constructors of the classes of a folder. What the constants of all its classes say is found once. Contracts see
/// the classes of the tree.
pub struct Constructors<'t> {
    tree: &'t Tree,
    // by the number of a class of the folder: the descriptors of those of its instance initialisers that method handles refer to
    handles: Vec<TextList>,
}

// Written out: a derived drop would be spelled out, field by field, in each function that drops one, and be proved there.
impl Drop for Constructors<'_> {
    fn drop(self) {
        let Constructors {
            tree: _,
            handles: _,
        } = self;
    }
}

impl<'t> Model for Constructors<'t> {
    ghost use Rattle.class_tree.specs.Headers.{Classes, headers_of};
    ghost use Rattle.field_constructors.specs.Inner.ConstructorWords.{AreHandled, handled_of};

    ghost Value = { Classes };

    ghost view = { λ constructors. constructors.tree.now };

    ghost invariant = { λ constructors.
        AreHandled (headers_of constructors.tree.now) constructors.handles.items
        (λ class. handled_of class constructors.tree.now.folder) };
}

impl<'t> Constructors<'t> {
    /// Those of the folder of a tree. It goes over all constants of the folder.
    ///
    /// # Errors
    /// `NoMemory`, where memory runs out.
    pub fn new(alloc: Global, tree: &'t Tree) -> Result<Self, NoMemory>
        ensures { IfOk result (λ constructors. constructors ≡ tree.now) }
    {
        let handles = handled_initialisers(alloc, tree)?;
        Ok(Constructors { tree, handles })
    }

    /// The tree.
    pub fn tree(&self) -> &'t Tree
        ensures { result.now ≡ self.now }
    {
        self.tree
    }

    /// The descriptor of the field constructor of the class of this number in the folder, by the descriptors of the instance
    /// fields of the class, those of the highest class first. None where the class may have no field constructor.
    ///
    /// # Errors
    /// `NoMemory`, where memory runs out.
    pub fn of_fields(
        &self,
        alloc: Global,
        class: usize,
        fields: &[Text],
    ) -> Result<Option<Text>, NoMemory>
        requires { (header : Header)
            → slice_get (headers_of self.now).folder class ≡ Some header
            → fields.now ≡ field_descs (headers_of self.now) header.name }
        ensures { IfOk result (IsConstructorAt self.now class) }
    {
        a_tree_is_a_hierarchy(self.tree);
        let Some(header) = self.tree.header(Place::Folder(class)) else {
            return Ok(None);
        };
        constructor(alloc, header, fields, self.handles[class].as_slice())
    }

    /// The descriptor of the field constructor of a class of the folder. None where the class may have no field constructor,
    /// or is not of the folder.
    ///
    /// # Errors
    /// `NoMemory`, where memory runs out.
    pub fn of_class(&self, alloc: Global, class: &Text) -> Result<Option<Text>, NoMemory>
        ensures { IfOk result (λ found. (number : ℕ)
            → place_of (headers_of self.now) class.now ≡ Some (Folder number)
            → IsConstructor self.now class.now found) }
    {
        a_tree_is_a_hierarchy(self.tree);
        let Some(number) = folder_number(self.tree, class) else {
            return Ok(None);
        };
        let fields = field_texts(alloc, self.tree, class)?;
        self.of_fields(alloc, number, fields.as_slice())
    }
}
