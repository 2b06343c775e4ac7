//! Laws: functions that do nothing, whose contracts say what always holds.
ghost use Rattle.std.specs.Prelude.{◌≡◌};
ghost use Rattle.code_layout.specs.Layout.{start_in, starts_from};
ghost use Rattle.member_link.specs.BodyTyping.{HasFrames};
ghost use Rattle.member_link.specs.Scope.{Scope};
ghost use Rattle.stackmap_emit.specs.PlacedFrames.{placed_frames, spelled_in};
ghost use Rattle.stackmap_emit.specs.TypedMethods.{AreWhole, HasLaidCode, IsGrownMethod, LaidCode, PassAccess, frames_by_offset, laid_body, stated_by_items};
ghost use Rattle.type_rules.specs.Stated.{stated};
ghost use Rattle.type_rules.specs.Typed.{Typed};

use type_rules::{
    a_grown_class_has_a_grown_header, a_grown_class_keeps_its_code, a_method_stands_in_order,
    frames_type_a_body_by_its_places, grown_classes_are_found_alike, rows_hold_among_grown_classes,
};

/// What types written items by their numbers types the method of the written class that has them laid out, by the offsets of its
/// instructions (JVM Specification SE 8, 4.10.1.6), where each item may use the protected member that it names.
pub fn what_types_items_types_the_laid_method()
    ensures { (w : LaidCode) (s : Scope)
        → IsGrownMethod w.host s
        → HasLaidCode w s
        → HasFrames (laid_body w s.part.max_stack) w.frames
        → PassAccess w s
        → AreWhole w
        → Typed s (frames_by_offset w) }
{
    a_grown_class_has_a_grown_header();
    a_grown_class_keeps_its_code();
    a_method_stands_in_order();
    frames_type_a_body_by_its_places();
    grown_classes_are_found_alike();
    rows_hold_among_grown_classes();
    class_model::constants_compare_by_value();
}

/// Where written items are typed by their numbers, the method of the written class that has them laid out states the frames that the items state, at
/// the offsets of its instructions (JVM Specification SE 8, 4.7.4).
pub fn a_laid_method_states_its_frames()
    ensures { (w : LaidCode) (s : Scope)
        → IsGrownMethod w.host s
        → HasLaidCode w s
        → HasFrames (laid_body w s.part.max_stack) w.frames
        → AreWhole w
        → stated s
        ≡ placed_frames (start_in (starts_from (spelled_in w.form) 0 w.items)) 0 (stated_by_items w) }
{
    a_grown_class_has_a_grown_header();
    a_grown_class_keeps_its_code();
    a_method_stands_in_order();
    frames_type_a_body_by_its_places();
    grown_classes_are_found_alike();
    rows_hold_among_grown_classes();
    class_model::constants_compare_by_value();
}
