//! The names of the rules of linking, and what they ask in words.
ghost use Rattle.std.specs.Prelude.{◌≡◌};
ghost use Rattle.class_tree.specs.RuleNames.{link_rule_name};

use crate::fault::LinkRule;

impl LinkRule {
    /// The name, as a refusal prints it.
    pub fn name(self) -> &'static str
        ensures { result.now ≡ link_rule_name self }
    {
        match self {
            LinkRule::Duplicate => "Duplicate",
            LinkRule::Missing => "Missing",
            LinkRule::Circle => "Circle",
            LinkRule::FinalSuper => "FinalSuper",
            LinkRule::LibraryLeans => "LibraryLeans",
            LinkRule::KindOfSuper => "KindOfSuper",
            LinkRule::NoMember => "NoMember",
            LinkRule::NoAccess => "NoAccess",
            LinkRule::WrongForm => "WrongForm",
            LinkRule::FinalOverridden => "FinalOverridden",
        }
    }

    /// What is wrong where the rule is broken, in words.
    pub fn text(self) -> &'static str {
        match self {
            LinkRule::Duplicate => "two class files have this class",
            LinkRule::Missing => "a class that it needs is not there",
            LinkRule::Circle => {
                "it is above itself: following superclasses and interfaces leads back to it"
            }
            LinkRule::FinalSuper => "its superclass is final",
            LinkRule::LibraryLeans => {
                "it is a class of the library and names a class of the input as its superclass or interface"
            }
            LinkRule::KindOfSuper => {
                "its superclass is an interface, or an interface that it names is a class, or it is no interface or no throwable where one is needed"
            }
            LinkRule::NoMember => "a field or method that it names is not found",
            LinkRule::NoAccess => {
                "a class, field or method that it names is not accessible from it"
            }
            LinkRule::WrongForm => {
                "an instruction names a field or method of the wrong form: static where it must not be or the other way round, of an interface where a class is needed or the other way round, or a class that new cannot make"
            }
            LinkRule::FinalOverridden => "it overrides a method that is final",
        }
    }
}
