//! How constants are compared.
ghost use Rattle.std.specs.Prelude.{◌≡◌, ◌↔◌, IsTrue};
ghost use Rattle.machine_values.specs.Heaps.{same_constant};
ghost use Rattle.machine_values.specs.contracts.object.ConstantPartialEq.TheImpl.{ghosts as constants};
ghost use Rattle.machine_values.specs.declared.object.Constant.{Constant};

/// The comparison of constants, by which a map finds them, and the one of the definitions hold of equal values alone.
pub(crate) fn constants_compare_by_value()
    ensures found { (one other : Constant) → IsTrue (constants.eq one other) ↔ (one ≡ other) }
    ensures same { (one other : Constant) → IsTrue (same_constant one other) ↔ (one ≡ other) }
{}
