//! Laws: functions that do nothing, whose contracts say what always holds.
ghost use Rattle.std.specs.Prelude.{◌≡◌, ◌<◌, ◌^◌, ℕ, List};
ghost use Rattle.std.specs.List.{AllByRecursion};
ghost use Rattle.class_model.specs.Cutting.{IsBytes};
ghost use Rattle.machine_values.specs.declared.action.Action.{Action};
ghost use Rattle.script_text.specs.PrintedScripts.{IsAction, printed_script};
ghost use Rattle.script_text.specs.PrintedTexts.{Bytes, hex_text, printed_text};
ghost use Rattle.script_text.specs.Scripts.{IsFirstOutside, IsScript, lines_of};

/// Bytes are a script of at most one list of actions.
pub fn a_script_has_one_list_of_actions()
    ensures { (bytes : Bytes) (one other : List Action)
        → IsScript bytes one
        → IsScript bytes other
        → one ≡ other }
{}

/// A script has no line outside the grammar, and bytes have at most one first line outside.
pub fn a_script_has_no_line_outside()
    ensures not_both { (bytes : Bytes) (actions : List Action) (line : ℕ)
        → IsScript bytes actions
        → ¬ IsFirstOutside (lines_of bytes) line }
    ensures one_line { (bytes : Bytes) (one other : ℕ)
        → IsFirstOutside (lines_of bytes) one
        → IsFirstOutside (lines_of bytes) other
        → one ≡ other }
{}

/// What is printed of actions is a script of these actions, whatever values of their type they are.
pub fn a_printed_script_reads_back()
    ensures { (actions : List Action)
        → AllByRecursion IsAction actions
        → IsScript (printed_script actions) actions }
{}

/// No two texts are printed alike.
pub fn a_printed_text_is_one_text()
    ensures { (one other : Bytes)
        → IsBytes one
        → IsBytes other
        → printed_text one ≡ printed_text other
        → one ≡ other }
{}

/// No two numbers that fit have the same hexadecimal digits.
pub fn hexadecimal_digits_are_one_number()
    ensures { (count one other : ℕ)
        → one < 16 ^ count
        → other < 16 ^ count
        → hex_text count one ≡ hex_text count other
        → one ≡ other }
{}
