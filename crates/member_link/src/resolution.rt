//! What the constants of a class file resolve to.
use class_tree::LinkRule;

/// What is kept of the field or method that a reference finds.
#[derive(Clone, Copy)]
pub(crate) struct Referent {
    /// Its access flags.
    pub(crate) flags: u16,
    /// Whether the class that has the reference may access it.
    pub(crate) is_accessible: bool,
}

/// What is kept of a reference that calls name.
#[derive(Clone, Copy)]
pub(crate) struct Callee {
    /// Whether the named class is an interface or none, as the constant's tag says.
    pub(crate) fits_kind: bool,
    /// Whether it names an instance initialiser.
    pub(crate) is_initialiser: bool,
}

/// What a constant resolves to, whatever instruction names it.
#[derive(Clone, Copy)]
pub(crate) enum Resolution {
    /// The first rule that it breaks.
    Broken(LinkRule),
    /// Nothing more is asked of it.
    Settled,
    /// A class, and whether `new` makes objects of it.
    Class(bool),
    Field(Referent),
    Method(Referent, Callee),
}
