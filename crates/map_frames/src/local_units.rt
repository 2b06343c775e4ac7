//! Local units, and the entries that list them: all but the second units of longs and doubles
//! (JVM Specification SE 8, 4.7.4).
ghost use Rattle.std.specs.Prelude.{◌≡◌, ◌<◌, ◌≤◌, [], ◌∷◌, drop, take, length, reverse, if◌then◌else◌, IfOk, IfSome, IfNone};
ghost use Rattle.class_model.specs.Frames.{is_wide, entries_of_units, without_tops};
ghost use Rattle.map_frames.specs.Inner.Change.{AreApart, BeginSame, IsChange};
ghost use Rattle.map_frames.specs.Inner.Units.{is_top_there};
ghost use Rattle.std.specs.Option.{option_copied};

use class_model::{LocalTypeList, NoMemory, VType};
use std::alloc::Global;

/// How many units there are up to the last that is not `Top`.
pub(crate) fn count_listed(locals: &LocalTypeList) -> usize
    ensures few { result ≤ length locals.now }
    ensures listed { take result locals.now ≡ reverse (without_tops (reverse locals.now)) }
{
    let mut end = locals.listed();
    while end > 0 && is_top(locals.get(end - 1)) {
        end -= 1;
    }
    end
}

// Whether there is a unit and it is `Top`.
fn is_top(unit: Option<&VType>) -> bool
    ensures { result ≡ is_top_there (option_copied unit.entry) }
{
    matches!(unit, Some(VType::Top))
}

/// The units up to the last that is not `Top`.
pub(crate) fn listed_units(alloc: Global, locals: &LocalTypeList) -> Result<Vec<VType>, NoMemory>
    ensures { IfOk result (λ units. units.items ≡ reverse (without_tops (reverse locals.now))) }
{
    let end = count_listed(locals);
    let mut units = Vec::with_capacity(alloc, end)?;
    for at in 0..end {
        if let Some(unit) = locals.get(at) {
            units.push(unit.copy()?)?;
        }
    }
    Ok(units)
}

/// The first entry, and the units behind it.
pub(crate) fn first_entry(units: &[VType]) -> Option<(&VType, &[VType])>
    ensures some { IfSome result
        (λ first. entries_of_units units.now ≡ first.0.now ∷ entries_of_units first.1.now) }
    ensures shorter { IfSome result (λ first. length first.1.now < length units.now) }
    ensures none { IfNone result (units.now ≡ []) }
{
    match units {
        [] => None,
        [first, rest @ ..] => Some((first, behind_first(first, rest))),
    }
}

// What is behind the second unit of a long or double, and else what is given.
fn behind_first<'a>(first: &VType, rest: &'a [VType]) -> &'a [VType]
    ensures { result.now ≡ if is_wide first.now then drop 1 rest.now else rest.now }
{
    match rest {
        [_, others @ ..] if is_wide(first) => others,
        _ => rest,
    }
}

// Whether it takes two units.
fn is_wide(kind: &VType) -> bool
    ensures { result ≡ is_wide kind.now }
{
    matches!(kind, VType::Long | VType::Double)
}

/// How many entries list the units.
pub(crate) fn count_entries(units: &[VType]) -> usize
    ensures { result ≡ length (entries_of_units units.now) }
{
    let mut count = 0;
    let mut rest = units;
    while let Some((_, others)) = first_entry(rest) {
        count += 1;
        rest = others;
    }
    count
}

/// The units of both behind the entries with which both begin.
pub(crate) fn behind_common<'a>(
    before: &'a [VType],
    locals: &'a [VType],
) -> (&'a [VType], &'a [VType])
    ensures { IsChange (entries_of_units before.now) (entries_of_units locals.now)
        (entries_of_units result.0.now) (entries_of_units result.1.now) }
{
    let mut gone = before;
    let mut more = locals;
    while let Some((less_gone, less_more)) = behind_same(gone, more) {
        gone = less_gone;
        more = less_more;
    }
    (gone, more)
}

// The units of both behind their first entries, if those are the same.
fn behind_same<'a>(units: &'a [VType], others: &'a [VType]) -> Option<(&'a [VType], &'a [VType])>
    ensures some { IfSome result
        (λ behind. BeginSame (entries_of_units units.now) (entries_of_units others.now)
        (entries_of_units behind.0.now) (entries_of_units behind.1.now)) }
    ensures shorter { IfSome result (λ behind. length behind.0.now < length units.now) }
    ensures none { IfNone result
        (AreApart (entries_of_units units.now) (entries_of_units others.now)) }
{
    let (first, behind_first) = first_entry(units)?;
    let (other, behind_other) = first_entry(others)?;
    if first == other {
        Some((behind_first, behind_other))
    } else {
        None
    }
}
