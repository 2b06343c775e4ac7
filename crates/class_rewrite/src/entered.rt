//! How many monitors written code enters.
ghost use Rattle.std.specs.Prelude.{◌≡◌, ◌≤◌, count_by, length};
ghost use Rattle.making_code.specs.CountedItems.{is_enter};

use class_model::Instr;
use code_layout::EmitItem;

/// How many `monitorenter` there are among items, which are no more than a code has bytes.
pub(crate) fn count_enters(items: &[EmitItem]) -> u32
    requires { length items.now ≤ 65535 }
    ensures { result ≡ count_by (λ item. is_enter item.instr) items.now }
{
    let mut count: u32 = 0;
    for item in items {
        if is_enter(&item.instr) {
            count += 1;
        }
    }
    count
}

// Whether an instruction is a monitorenter.
fn is_enter(instr: &Instr) -> bool
    ensures { result ≡ is_enter instr.now }
{
    matches!(instr, Instr::Enter)
}
