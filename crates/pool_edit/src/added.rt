//! The constants that were appended, with their indices.
ghost use Rattle.std.specs.Prelude.{◌≡◌, ◌≤◌, ◌<◌, ◌++◌, ◌∷◌, [], None, length, OnOk, OnErr};
ghost use Rattle.indexmap.specs.IndexMap.{get};
ghost use Rattle.class_model.specs.contracts.pool.ConstPartialEq.TheImpl.{ghosts as comparison};
ghost use Rattle.pool_edit.specs.Inner.Kept.{EndsBelow, StartsFrom};

use class_model::Const;
use indexmap::IndexMap;
use std::alloc::AllocFailed;

/// Appends a constant that is not there, with its index. After an error nothing is appended.
pub(crate) fn append(
    added: &mut IndexMap<Const, u16>,
    value: Const,
    index: u16,
) -> Result<(), AllocFailed<(Const, u16)>>
    requires { get comparison.eq added.old value ≡ None }
    ensures ok { OnOk result (added.new.entries ≡ added.old.entries ++ (value, index) ∷ []) }
    ensures err { OnErr result (added.new.entries ≡ added.old.entries) }
{
    added.insert(value, index)?;
    Ok(())
}

/// How many of these are before the last ones whose indices are at least this number.
pub(crate) fn kept_below(added: &IndexMap<Const, u16>, index: u16) -> usize
    ensures few { result ≤ length added.now.entries }
    ensures kept { EndsBelow index result added.now.entries }
    ensures taken { StartsFrom index result added.now.entries }
{
    let mut kept = added.len();
    while kept > 0 {
        if let Some((_, last)) = added.get_index(kept - 1) {
            if *last < index {
                return kept;
            }
        }
        kept -= 1;
    }
    kept
}
