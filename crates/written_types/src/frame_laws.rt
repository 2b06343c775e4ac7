//! What the frames are that written code states.
ghost use Rattle.std.specs.Prelude.{◌≡◌, ℕ, List, Option, Some, None, slice_get};
ghost use Rattle.class_model.specs.declared.frame.Frame.{Frame};
ghost use Rattle.class_tree.specs.Headers.{headers_of};
ghost use Rattle.expanded_runs.specs.NamedFrames.{FrameHas, HasFramedNames, IsFramedName};
ghost use Rattle.flow_code.specs.declared.point.Site.{Site};
ghost use Rattle.member_link.specs.Signatures.{result_of};
ghost use Rattle.plan_flow.specs.Written.FramedCode.{IsFramed};
ghost use Rattle.written_types.specs.Setting.{Setting};
ghost use Rattle.written_types.specs.StatedFrames.{IsWholeFrame};
ghost use Rattle.written_types.specs.Writing.{Writing, body_in, items_in};

/// The frames that written code states have a type for each local unit, and each uninitialised object in them is that of an item that is a `new`
/// (JVM Specification SE 8, 4.7.4).
pub fn stated_frames_are_whole()
    ensures { (w : Writing) (state : ℕ → Option Frame) (frames : List Frame)
        → Setting w
        → IsFramed w.s.flat w.form w.blocks (items_in w) (body_in w state) frames
        → (number : ℕ) (frame : Frame)
        → state number ≡ Some frame
        → IsWholeFrame w frame }
{
    class_model::constants_compare_by_value();
    class_tree::classes_of_a_tree_are_a_hierarchy();
    plan_flow::effect_grows();
}

/// They name classes and arrays by texts that a Class constant may have, and the classes that they name are there (JVM Specification SE 8, 4.4.1 and
/// 5.4.3.1), where the typed frames of the flat code, its sites and their fields do.
pub fn stated_frames_have_framed_names()
    ensures { (w : Writing) (state : ℕ → Option Frame) (frames : List Frame)
        → Setting w
        → HasFramedNames w.s.classes w.host w.s.flat
        → IsFramed w.s.flat w.form w.blocks (items_in w) (body_in w state) frames
        → (number : ℕ) (frame : Frame)
        → state number ≡ Some frame
        → FrameHas (IsFramedName (headers_of w.s.classes)) frame }
{
    class_tree::classes_of_a_tree_are_a_hierarchy();
    plan_flow::effect_grows();
}

/// The field constructors that written code calls have no result.
pub fn written_field_constructors_have_no_result()
    ensures { (w : Writing) (number : ℕ) (site : Site)
        → Setting w
        → slice_get w.s.flat.sites number ≡ Some site
        → result_of (w.constructor site.class) ≡ None }
{
    class_model::parameters_of_bytes_are_spelled();
    class_tree::classes_of_a_tree_are_a_hierarchy();
    plan_flow::effect_grows();
}
