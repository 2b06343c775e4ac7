//! Laws of the wide form: functions that do nothing, whose contracts say what always holds.
ghost use Rattle.stackmap_emit.specs.WideItems.{AreItemsWide};

/// Emitted items that are those of written code in the short form are, where they are made wide, those of written code in the wide form, if
/// the last of them does not go on.
pub fn items_that_are_made_wide_are_those_of_the_wide_form()
    ensures { AreItemsWide }
{}
