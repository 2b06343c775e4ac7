//! Laws: functions that do nothing, whose contracts say what always holds.
ghost use Rattle.std.specs.Prelude.{◌≡◌, ℕ, List, length, Some, Ok, IsTrue};
ghost use Rattle.class_model.specs.ClassOf.{ClassOf};
ghost use Rattle.class_model.specs.Cutting.{IsBytes};
ghost use Rattle.class_model.specs.Instructions.{decoded, is_start};
ghost use Rattle.class_model.specs.Methods.{Home};
ghost use Rattle.class_model.specs.Stated.{frame_for, stated_in};
ghost use Rattle.class_model.specs.declared.class_file.ClassFile.{ClassFile};
ghost use Rattle.class_model.specs.declared.class_file.CodePart.{CodePart};
ghost use Rattle.class_model.specs.declared.class_file.InnerAttr.{InnerAttr};
ghost use Rattle.class_model.specs.declared.class_file.Method.{Method};
ghost use Rattle.class_model.specs.declared.frame.Frame.{Frame};
ghost use Rattle.class_model.specs.declared.instr.Instr.{Instr};
ghost use Rattle.class_model.specs.declared.instr.Placed.{Placed};
ghost use Rattle.code_bytes.specs.Codes.{HasReadFrames, HasReadMethods, HasReadOperands};
ghost use Rattle.code_bytes.specs.Consecutive.{AreConsecutive};
ghost use Rattle.code_bytes.specs.Encoding.{IsChosen};

/// The spelling that is written is one: bytes that are it are what writing gives again.
pub fn one_chosen_spelling()
    ensures { (at : ℕ) (instr : Instr) (one other : List ℕ)
        → IsBytes one
        → IsBytes other
        → IsChosen at instr one
        → IsChosen at instr other
        → one ≡ other }
{}

/// The methods of a class file are as reading asked of them.
pub fn a_class_file_has_read_methods()
    ensures methods { (bytes : List ℕ) (class : ClassFile)
        → ClassOf bytes class
        → HasReadMethods class }
    ensures operands { (bytes : List ℕ) (class : ClassFile)
        → ClassOf bytes class
        → HasReadOperands class }
    ensures frames { (bytes : List ℕ) (class : ClassFile)
        → ClassOf bytes class
        → HasReadFrames class }
{}

/// The instructions of a code stand one after the other, from its first byte to its end.
pub fn instructions_are_consecutive()
    ensures { (code : List ℕ) (instrs : List Placed)
        → decoded code ≡ Ok instrs
        → AreConsecutive 0 instrs (length code) }
{}

/// A method's code states a frame only for an offset at which an instruction starts.
pub fn frames_are_stated_at_instructions()
    ensures { (home : Home) (method : Method) (part : CodePart) (attrs : List InnerAttr) (at : ℕ)
        (frame : Frame)
        → frame_for (stated_in home method part attrs) at ≡ Some frame
        → (instrs : List Placed) × (decoded part.code ≡ Ok instrs) × IsTrue (is_start instrs at) }
{}
