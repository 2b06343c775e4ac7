//! A case: a question, and the answer that it wants.
ghost use Rattle.std.specs.Prelude.{◌≡◌, None, IfOk};
ghost use Rattle.cases_notation.specs.Cases.{Wants};

use std::alloc::{AllocError, Global};

/// The question of a case, which stands before its ` => `.
pub fn question_of(case: &str) -> Option<&str> {
    let (question, _) = case.split_once(" => ")?;
    Some(question)
}

/// What is to be said at a place of the answer that came: nothing only where it is the one that the case wants.
pub fn difference(
    alloc: Global,
    place: &str,
    case: &str,
    came: &str,
) -> Result<Option<String>, AllocError>
    ensures { IfOk result (λ said. said ≡ None → Wants case.now came.now) }
{
    let Some((question, wanted)) = case.split_once(" => ") else {
        return Ok(Some(no_answer(alloc, place, case)?));
    };
    if came == wanted {
        return Ok(None);
    }
    Ok(Some(format!(in alloc; "{place}: {came}, not {wanted}: {question}")?))
}

// What is to be said where no answer came.
fn no_answer(alloc: Global, place: &str, case: &str) -> Result<String, AllocError> {
    format!(in alloc; "{place}: no answer: {case}")
}

/// Prints what there is to be said of the answer that came, or that none came. None where memory or the output fails.
pub fn print_difference(
    rt: &HostRuntime,
    place: &str,
    case: &str,
    came: Option<String>,
) -> Option<()> {
    let said = match came {
        Some(came) => difference(rt.alloc(), place, case, &came).ok()?,
        None => Some(no_answer(rt.alloc(), place, case).ok()?),
    };
    match said {
        Some(said) => println!(rt; "{said}").ok(),
        None => Some(()),
    }
}
