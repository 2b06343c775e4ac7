//! Why a folder and its library are not linked.
ghost use Rattle.std.specs.Prelude.{◌≡◌};
ghost use Rattle.class_tree.specs.declared.fault.LinkFault.TheVariants.{NoMemory as no_memory};

use class_model::{Member, NoMemory, Text};
use thiserror::Error;

/// A rule of linking (JVM Specification SE 8, 5.3 and 5.4). `LibraryLeans`, and what is asked of the library's own classes that
/// the machine needs, are this project's profile.
#[derive(Clone, Copy, PartialEq, Eq, Debug)]
pub enum LinkRule {
    /// Two classes have one name.
    Duplicate,
    /// A class that is named is not there, or the library lacks one that the machine needs.
    Missing,
    /// A class is above itself.
    Circle,
    /// The superclass of a class of the folder is final.
    FinalSuper,
    /// A class of the library names one of the folder above it.
    LibraryLeans,
    /// A superclass is an interface, or an interface that is named is none; an interface is below another class than
    /// java/lang/Object; a class but java/lang/Object has no superclass, or the folder has java/lang/Object; a throwable
    /// that the machine raises is none, or an interface that it knows is none.
    KindOfSuper,
    /// A member that is named is not there, or java/lang/Object has not the one constructor.
    NoMember,
    /// A class or a member is not accessible.
    NoAccess,
    /// A member is not of the form that an instruction needs.
    WrongForm,
    /// A method overrides a final method of the folder.
    FinalOverridden,
}

/// Why classes are not linked.
#[derive(Debug, Drop, Error)]
pub enum LinkFault {
    /// A class breaks a rule, or its member does; a member without a name is the class itself.
    #[error("{class:?} is not linked: {rule:?}")]
    Unlinked {
        class: Text,
        member: Member,
        rule: LinkRule,
    },
    #[error("out of memory")]
    NoMemory,
}

impl From<NoMemory> for LinkFault {
    ghost from_gives = { λ _ fault. fault ≡ no_memory };

    fn from(_: NoMemory) -> Self {
        LinkFault::NoMemory
    }
}
