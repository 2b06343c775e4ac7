//! Instructions that move stack entries (JVM Specification SE 8, 6.5: pop to swap).
ghost use Rattle.std.specs.Prelude.{◌≡◌, ◌++◌, map, IfOk, OnOk};
ghost use Rattle.std.specs.Option.{option_map, option_copied};
ghost use Rattle.member_link.specs.Rows.Row.{row_frame};
ghost use Rattle.member_link.specs.Rows.ShuffleRows.{forms_of, form_in, has_width, have_widths, picked, shuffle_row};
ghost use Rattle.row_frames.specs.Inner.Forms.{form_meant, width_meant};

use crate::step::{Step, topmost};
use Width::{One, Two};
use class_model::{Frame, NoMemory, VType, VTypeList, opcodes};

/// Moves, copies or drops the topmost entries.
pub(crate) fn shuffle(step: &Step<'_>, opcode: u8) -> Result<Option<Frame>, NoMemory>
    ensures { IfOk result
        (λ frame. frame ≡ row_frame step.now.before.now (shuffle_row step.now.before.now opcode)) }
{
    let stack = step.before.stack.as_slice();
    let Some(form) = form_in(forms_of(opcode), stack) else {
        return step.no_row();
    };
    let operands = topmost(stack, form.takes.len());
    let mut behind = step.under(form.takes.len())?;
    push_picked(&mut behind, operands, form.gives)?;
    let locals = step.before.locals.copy(step.alloc)?;
    Ok(Some(Frame {
        locals,
        stack: behind,
    }))
}

/// How many units a value takes.
#[derive(Clone, Copy)]
pub(crate) enum Width {
    One,
    Two,
}

impl Width {
    // Whether an operand is of this width. A `Top` is of none.
    fn has(self, operand: &VType) -> bool
        ensures { result ≡ has_width (width_meant self) operand.now }
    {
        match operand {
            VType::Top => false,
            VType::Long | VType::Double => matches!(self, Two),
            _ => matches!(self, One),
        }
    }
}

/// A form of an instruction: the widths of its operands, and what it pushes by their numbers, the topmost last.
#[derive(Clone, Copy)]
pub(crate) struct Form {
    takes: &'static [Width],
    gives: &'static [usize],
}

const POP: [Form; 1] = [Form {
    takes: &[One],
    gives: &[],
}];

const POP2: [Form; 2] = [
    Form {
        takes: &[One, One],
        gives: &[],
    },
    Form {
        takes: &[Two],
        gives: &[],
    },
];

const DUP: [Form; 1] = [Form {
    takes: &[One],
    gives: &[0, 0],
}];

const DUP_X1: [Form; 1] = [Form {
    takes: &[One, One],
    gives: &[1, 0, 1],
}];

const DUP_X2: [Form; 2] = [
    Form {
        takes: &[One, One, One],
        gives: &[2, 0, 1, 2],
    },
    Form {
        takes: &[Two, One],
        gives: &[1, 0, 1],
    },
];

const DUP2: [Form; 2] = [
    Form {
        takes: &[One, One],
        gives: &[0, 1, 0, 1],
    },
    Form {
        takes: &[Two],
        gives: &[0, 0],
    },
];

const DUP2_X1: [Form; 2] = [
    Form {
        takes: &[One, One, One],
        gives: &[1, 2, 0, 1, 2],
    },
    Form {
        takes: &[One, Two],
        gives: &[1, 0, 1],
    },
];

const DUP2_X2: [Form; 4] = [
    Form {
        takes: &[One, One, One, One],
        gives: &[2, 3, 0, 1, 2, 3],
    },
    Form {
        takes: &[One, One, Two],
        gives: &[2, 0, 1, 2],
    },
    Form {
        takes: &[Two, One, One],
        gives: &[1, 2, 0, 1, 2],
    },
    Form {
        takes: &[Two, Two],
        gives: &[1, 0, 1],
    },
];

const SWAP: [Form; 1] = [Form {
    takes: &[One, One],
    gives: &[1, 0],
}];

// The forms of an opcode.
fn forms_of(opcode: u8) -> &'static [Form]
    ensures { map form_meant result.now ≡ forms_of opcode }
{
    match opcode {
        opcodes::POP => &POP,
        opcodes::POP2 => &POP2,
        opcodes::DUP => &DUP,
        opcodes::DUP_X1 => &DUP_X1,
        opcodes::DUP_X2 => &DUP_X2,
        opcodes::DUP2 => &DUP2,
        opcodes::DUP2_X1 => &DUP2_X1,
        opcodes::DUP2_X2 => &DUP2_X2,
        opcodes::SWAP => &SWAP,
        _ => &[],
    }
}

// The form that the topmost entries of a stack have.
fn form_in(forms: &'static [Form], stack: &[VType]) -> Option<&'static Form>
    ensures { option_map form_meant (option_copied result)
        ≡ form_in (map form_meant forms.now) stack.now }
{
    for form in forms {
        if have_widths(form.takes, topmost(stack, form.takes.len())) {
            return Some(form);
        }
    }
    None
}

// Whether operands are of these widths, one by one.
fn have_widths(widths: &[Width], operands: &[VType]) -> bool
    ensures { result ≡ have_widths (map width_meant widths.now) operands.now }
{
    let [width, widths @ ..] = widths else {
        return operands.is_empty();
    };
    let [operand, operands @ ..] = operands else {
        return false;
    };
    width.has(operand) && have_widths(widths, operands)
}

// Pushes copies of operands by their numbers.
fn push_picked(stack: &mut VTypeList, operands: &[VType], numbers: &[usize]) -> Result<(), NoMemory>
    ensures { OnOk result (stack.new ≡ stack.old ++ picked operands.now numbers.now) }
{
    for number in numbers {
        if let Some(operand) = operands.get(*number) {
            stack.push(operand.copy()?)?;
        }
    }
    Ok(())
}
