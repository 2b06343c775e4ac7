//! Laws: functions that do nothing, whose contracts say what always holds.
ghost use Rattle.std.specs.Prelude.{◌≡◌, ◌⊎◌, ℕ, Ok};
ghost use Rattle.class_model.specs.Checks.{Fault, AllHold, IsFirstFault};
ghost use Rattle.class_model.specs.Cutting.{Rest, pool_at};
ghost use Rattle.class_model.specs.Pool.{Constants, IsPool};
ghost use Rattle.class_model.specs.Values.{TagsStand};
ghost use Rattle.pool_bytes.specs.Items.{PoolFits};
ghost use Rattle.pool_bytes.specs.ReadBack.{IsReadBackIn};
ghost use Rattle.pool_bytes.specs.Reading.{pool_checks};

use class_model::each_pool_is_decided;

/// A pool whose constants fit their items is read from its bytes, in a class file of any version that has their tags.
pub fn a_pool_is_read_back()
    ensures { (major : ℕ) (pool : Constants)
        → IsPool pool
        → PoolFits pool
        → TagsStand major pool
        → IsReadBackIn major pool }
{}

/// A pool stands at the front of bytes and its checks hold, or they have a first fault.
pub fn each_pool_is_told()
    ensures { (major : ℕ) (rest : Rest)
        → (AllHold (pool_checks major rest)
        × ((pool : Constants) × (after : Rest) × (pool_at major rest ≡ Ok (pool, after))))
        ⊎ ((f : Fault) × IsFirstFault (pool_checks major rest) f) }
{
    each_pool_is_decided();
}
