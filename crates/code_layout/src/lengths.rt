//! How long instructions are.
ghost use Rattle.member_link.specs.Targets.{HasForm};
ghost use Rattle.std.specs.Prelude.{◌≡◌, ◌≤◌};
ghost use Rattle.class_model.specs.declared.instr.Instr.TheVariants.{Goto};
ghost use Rattle.code_layout.specs.Inner.Writing.{spelled_in};
ghost use Rattle.code_layout.specs.Layout.{len_of};

use crate::form::Form;
use class_model::Instr;
use code_bytes::code_len;

/// How many bytes an instruction takes in a form at an offset, in bytes.
pub(crate) fn len_of(form: Form, instr: &Instr, at: u32) -> u32
    requires place { at ≤ 65535 }
    requires form { HasForm instr.now }
    ensures { result ≡ len_of (spelled_in form) at instr.now }
{
    match instr {
        Instr::Goto(to) => goto_len(form, *to, at),
        Instr::If(..) | Instr::If2(..) | Instr::IfSame(..) | Instr::IfNull(..) => 3,
        Instr::Table { targets, .. } => 13 + (3 - at % 4) + 4 * targets.len() as u32,
        Instr::Lookup { pairs, .. } => 9 + (3 - at % 4) + 8 * pairs.len() as u32,
        _ => code_len(instr, at),
    }
}

// How many bytes a goto takes.
fn goto_len(form: Form, to: u32, at: u32) -> u32
    requires { at ≤ 65535 }
    ensures { result ≡ len_of (spelled_in form) at (Goto to) }
{
    match form {
        Form::Short => 3,
        Form::Wide => 5,
    }
}
