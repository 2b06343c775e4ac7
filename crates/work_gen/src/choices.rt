//! Which methods are generated, by draws from a number.
ghost use Rattle.std.specs.Prelude.{◌≡◌, ◌<◌, ◌≤◌, IfOk};
ghost use Rattle.work_gen.specs.Generated.{behind, choice_at, choices, kind_of};

use class_model::NoMemory;
use std::alloc::Global;

/// A kind of method: one that adds fields of an object, one that makes an object a turn of a loop, one on some of whose branches the object
/// escapes, and one that locks it.
#[derive(Clone, Copy)]
pub enum Kind {
    Adds,
    Loops,
    Branches,
    Locks,
}

/// A method, and the argument that it is called with.
#[derive(Clone, Copy)]
pub struct Choice {
    pub kind: Kind,
    pub argument: u64,
}

// The states of draws are below this.
const STATES: u64 = 1 << 31;

// What a draw leaves out of a state.
const LOW_BITS: u64 = 1 << 16;

/// So many choices, by draws from a number.
pub(crate) fn choices_of(alloc: Global, number: u32, size: u32) -> Result<Vec<Choice>, NoMemory>
    requires { number < 2147483648 }
    ensures { IfOk result (λ chosen. chosen.items ≡ choices number size) }
{
    let mut state = u64::from(number);
    let mut chosen = Vec::with_capacity(alloc, size as usize)?;
    for _ in 0..size {
        chosen.push(choice_at(state))?;
        state = behind(behind(state));
    }
    Ok(chosen)
}

// The choice by two draws.
fn choice_at(state: u64) -> Choice
    requires { state < 2147483648 }
    ensures { result ≡ choice_at state }
{
    let first = behind(state);
    let second = behind(first);
    Choice {
        kind: kind_of(first / LOW_BITS % 4),
        argument: second / LOW_BITS % 10,
    }
}

// The state behind a state.
fn behind(state: u64) -> u64
    requires { state < 2147483648 }
    ensures is { result ≡ behind state }
    ensures small { result < 2147483648 }
{
    (state * 1_103_515_245 + 12_345) % STATES
}

// The kind of a number below 4.
fn kind_of(number: u64) -> Kind
    ensures { result ≡ kind_of number }
{
    match number {
        0 => Kind::Adds,
        1 => Kind::Loops,
        2 => Kind::Branches,
        _ => Kind::Locks,
    }
}
