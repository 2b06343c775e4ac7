//! How control goes on behind an instruction (JVM Specification SE 8, 4.10.1.6).
ghost use Rattle.std.specs.Prelude.{◌≡◌};
ghost use Rattle.member_link.specs.Bodies.{falls_through};

use class_model::Instr;

/// Whether control may fall through to the next instruction.
pub(crate) fn falls_through(instr: &Instr) -> bool
    ensures { result ≡ falls_through instr.now }
{
    !matches!(
        instr,
        Instr::Goto(_)
            | Instr::Table { .. }
            | Instr::Lookup { .. }
            | Instr::Return(_)
            | Instr::Throw
    )
}
