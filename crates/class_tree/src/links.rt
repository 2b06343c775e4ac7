//! What a hierarchy keeps beside its classes.
ghost use Rattle.std.specs.Prelude.{◌≡◌};
ghost use Rattle.class_tree.specs.Inner.Nodes.{indexes_of};

use crate::lists::Lists;
use crate::members::MemberKind;
use crate::place::Place;

/// By the number of each class: the place of its superclass; its superinterfaces, each once, in depth-first order; and
/// the indexes of its fields and methods.
pub(crate) struct Links {
    pub superclasses: Vec<Option<Place>>,
    pub interfaces: Lists<Place>,
    pub fields: Lists<usize>,
    pub methods: Lists<usize>,
}

// Written out: a derived drop would be spelled out, field by field, in each function that drops one, and be proved there.
impl Drop for Links {
    fn drop(self) {
        let Links {
            superclasses: _,
            interfaces: _,
            fields: _,
            methods: _,
        } = self;
    }
}

impl Links {
    /// The indexes of the fields or of the methods.
    pub fn members(&self, kind: MemberKind) -> &Lists<usize>
        ensures { result.now ≡ indexes_of kind self.now }
    {
        match kind {
            MemberKind::Field => &self.fields,
            MemberKind::Method => &self.methods,
        }
    }
}
