//! What becomes of a method.
use class_model::{CodePart, ListOf, TextList};
use flow_code::Reason;

/// A field that a class of the folder declares: the number of the class in the folder, and its own among the fields of the class.
#[derive(Clone, Copy)]
pub(crate) struct FieldAt {
    pub(crate) class: usize,
    pub(crate) field: usize,
}

/// Fields of the folder.
pub(crate) type FieldAtList = ListOf<FieldAt>;

/// What is written of a method that is rewritten, and what that asks of the folder.
pub(crate) struct RewrittenMethod {
    /// Its code.
    pub(crate) part: CodePart,
    /// How many sites its flat code has.
    pub(crate) sites: u32,
    /// How many `new` of candidate sites are written.
    pub(crate) news: u32,
    /// How many `monitorenter` are written.
    pub(crate) enters: u32,
    /// The length of its code in bytes.
    pub(crate) bytes: u32,
    /// The classes whose field constructors its code calls: those of the sites of which it makes objects.
    pub(crate) made: TextList,
    /// The final fields of its sites' objects that it stores into.
    pub(crate) finals: FieldAtList,
    /// The private fields of other classes that it reads or stores into.
    pub(crate) privates: FieldAtList,
}

// Written out: a derived drop would be spelled out, field by field, in each function that drops one, and be proved there.
impl Drop for RewrittenMethod {
    fn drop(self) {
        let RewrittenMethod {
            part: _,
            sites: _,
            news: _,
            enters: _,
            bytes: _,
            made: _,
            finals: _,
            privates: _,
        } = self;
    }
}

/// What becomes of a method: it is kept for a reason, or rewritten.
#[derive(Drop)]
pub(crate) enum Outcome {
    Kept(Reason),
    Rewritten(RewrittenMethod),
}
