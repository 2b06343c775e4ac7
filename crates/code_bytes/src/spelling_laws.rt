//! Laws of the spellings of instructions: functions that do nothing, whose contracts say what always holds.
ghost use Rattle.std.specs.Prelude.{◌≡◌, ℕ, ◌%◌, ◌^◌, ◌<◌, List, ◌∷◌, length};
ghost use Rattle.class_model.specs.Cutting.{IsBytes};
ghost use Rattle.class_model.specs.Instructions.{IsSpelling};
ghost use Rattle.class_model.specs.Spelling.{u4};
ghost use Rattle.class_model.specs.declared.instr.Instr.{Instr};
ghost use Rattle.class_model.specs.declared.instr.Instr.TheVariants.{Goto};
ghost use Rattle.class_model.specs.declared.opcodes.TheConstants.{GOTO_W};
ghost use Rattle.code_bytes.specs.Encoding.{HasSpelling, IsChosen};
ghost use Rattle.code_bytes.specs.Forms.{instr_bytes, offset_of};
ghost use Rattle.code_bytes.specs.Lengths.{without_targets, is_far};
ghost use Rattle.code_bytes.specs.Numbers.{HasNumbers};
ghost use Rattle.code_bytes.specs.Spellings.{SpellingOf};

/// The spelling that is chosen, the shortest with zeros for pad bytes, is the one that the table of forms gives.
pub fn the_chosen_spelling_is_of_the_table()
    ensures table { (at : ℕ) (instr : Instr) (bytes : List ℕ)
        → IsBytes bytes
        → IsChosen at instr bytes
        → bytes ≡ instr_bytes at instr }
    ensures chosen { (at : ℕ) (instr : Instr)
        → HasSpelling at instr
        → HasNumbers instr
        → IsChosen at instr (instr_bytes at instr) }
{}

/// Two instructions that are equal but for their targets are spelled by as many bytes at offsets that are equal modulo 4,
/// where neither or both are a goto that needs `goto_w`.
pub fn a_length_does_not_depend_on_targets()
    ensures { (at place : ℕ) (one other : Instr)
        → at % 4 ≡ place % 4
        → without_targets one ≡ without_targets other
        → is_far at one ≡ is_far place other
        → length (instr_bytes at one) ≡ length (instr_bytes place other) }
{}

/// `goto_w` and an offset of 32 bits spell a goto (JVM Specification SE 8, 6.5.goto_w).
pub fn a_wide_goto_spells_a_goto()
    ensures { (at to : ℕ) → to < 2 ^ 32 → IsSpelling at (Goto to) (GOTO_W ∷ u4 (offset_of at to)) }
{}

/// The spellings of an instruction are an opcode of the table and operands that make it: no other bytes spell it.
pub fn each_spelling_is_of_the_table()
    ensures spells { (at : ℕ) (instr : Instr) (bytes : List ℕ)
        → SpellingOf at instr bytes
        → IsSpelling at instr bytes }
    ensures all { (at : ℕ) (instr : Instr) (bytes : List ℕ)
        → IsBytes bytes
        → IsSpelling at instr bytes
        → SpellingOf at instr bytes }
{}
