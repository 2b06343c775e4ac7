//! The rules in words.
use class_model::FileRule;
use class_tree::LinkRule;
use type_rules::TypeRule;

/// What the rule of a kind and a name says where it is broken.
pub(crate) fn meaning(kind: &str, name: &str) -> Option<&'static str> {
    match kind {
        "file" => file_meaning(name),
        "link" => link_meaning(name),
        "type" => type_meaning(name),
        _ => None,
    }
}

fn file_meaning(name: &str) -> Option<&'static str> {
    match class_meaning(name) {
        Some(text) => Some(text),
        None => code_meaning(name),
    }
}

fn class_meaning(name: &str) -> Option<&'static str> {
    match pool_meaning(name) {
        Some(text) => Some(text),
        None => member_meaning(name),
    }
}

fn pool_meaning(name: &str) -> Option<&'static str> {
    Some(match name {
        "Short" => FileRule::Short.text(),
        "Magic" => FileRule::Magic.text(),
        "Tag" => FileRule::Tag.text(),
        "Text" => FileRule::Text.text(),
        "Extra" => FileRule::Extra.text(),
        "Index" => FileRule::Index.text(),
        "Name" => FileRule::Name.text(),
        "Descriptor" => FileRule::Descriptor.text(),
        _ => return None,
    })
}

fn member_meaning(name: &str) -> Option<&'static str> {
    Some(match name {
        "Flags" => FileRule::Flags.text(),
        "Twice" => FileRule::Twice.text(),
        "NoCode" => FileRule::NoCode.text(),
        "HasCode" => FileRule::HasCode.text(),
        "Constant" => FileRule::Constant.text(),
        "Attribute" => FileRule::Attribute.text(),
        "CodeLength" => FileRule::CodeLength.text(),
        "Locals" => FileRule::Locals.text(),
        _ => return None,
    })
}

fn code_meaning(name: &str) -> Option<&'static str> {
    Some(match name {
        "Opcode" => FileRule::Opcode.text(),
        "Operand" => FileRule::Operand.text(),
        "Jump" => FileRule::Jump.text(),
        "Range" => FileRule::Range.text(),
        "FrameKind" => FileRule::FrameKind.text(),
        "FrameType" => FileRule::FrameType.text(),
        "FrameSize" => FileRule::FrameSize.text(),
        "FramePlace" => FileRule::FramePlace.text(),
        _ => return None,
    })
}

fn link_meaning(name: &str) -> Option<&'static str> {
    Some(match name {
        "Duplicate" => LinkRule::Duplicate.text(),
        "Missing" => LinkRule::Missing.text(),
        "Circle" => LinkRule::Circle.text(),
        "FinalSuper" => LinkRule::FinalSuper.text(),
        "LibraryLeans" => LinkRule::LibraryLeans.text(),
        "KindOfSuper" => LinkRule::KindOfSuper.text(),
        "NoMember" => LinkRule::NoMember.text(),
        "NoAccess" => LinkRule::NoAccess.text(),
        "WrongForm" => LinkRule::WrongForm.text(),
        "FinalOverridden" => LinkRule::FinalOverridden.text(),
        _ => return None,
    })
}

fn type_meaning(name: &str) -> Option<&'static str> {
    Some(match name {
        "CatchType" => TypeRule::CatchType.text(),
        "NoFrame" => TypeRule::NoFrame.text(),
        "Mismatch" => TypeRule::Mismatch.text(),
        "Handler" => TypeRule::Handler.text(),
        "Stack" => TypeRule::Stack.text(),
        "Local" => TypeRule::Local.text(),
        "Depth" => TypeRule::Depth.text(),
        "Kind" => TypeRule::Kind.text(),
        "Target" => TypeRule::Target.text(),
        "FallsOff" => TypeRule::FallsOff.text(),
        _ => return None,
    })
}
