//! Types along the ways that a plan leads.
ghost use Rattle.std.specs.Prelude.{◌≡◌, ℕ, Bool, List, slice_get, Option, Some, ◌≤◌};
ghost use Rattle.class_model.specs.declared.frame.Frame.{Frame};
ghost use Rattle.class_tree.specs.Headers.{Classes, headers_of};
ghost use Rattle.class_tree.specs.Trees.{IsTree};
ghost use Rattle.expanded_code.specs.CandidateSites.{HasCandidateSites};
ghost use Rattle.expanded_runs.specs.UsableNames.{IsUsableCode};
ghost use Rattle.flow_code.specs.FlatCode.{FlatCode};
ghost use Rattle.making_code.specs.IndexedItems.{IndexedItem};
ghost use Rattle.member_link.specs.BodyTyping.{HasFrames};
ghost use Rattle.member_link.specs.Machine.Links.{AreLinksOf};
ghost use Rattle.member_link.specs.Machine.Programs.{Links};
ghost use Rattle.member_link.specs.Rows.Table.{row_of};
ghost use Rattle.member_link.specs.Scope.{Scope};
ghost use Rattle.plan_flow.specs.PlanScope.{PlanScope, scope_of};
ghost use Rattle.plan_flow.specs.Plans.{IsValid, Plan};
ghost use Rattle.plan_flow.specs.Written.FramedCode.{IsFramed, greatest_of};
ghost use Rattle.plan_flow.specs.Written.Routes.{IsRouted, Routes};
ghost use Rattle.same_runs.specs.ReadyCode.{IsReadyCode};
ghost use Rattle.virtual_state.specs.States.{State};
ghost use Rattle.virtual_state.specs.Without.{without};
ghost use Rattle.written_types.specs.FitsTypes.{FitsRoutes, FitsTypes};
ghost use Rattle.written_types.specs.HeldRows.{RowFits};
ghost use Rattle.written_types.specs.Setting.{Setting};
ghost use Rattle.written_types.specs.Writing.{Writing, body_in, items_in, points_in, scope_in};

/// A valid plan of a flat code from which code can be written keeps its types: in the state of each reached point, before and after objects are made
/// there, and in the state behind each edge, what holds a virtual object may hold one of its class; each uninitialised object that is none of a
/// candidate site is made at a point that is reached; none is an uninitialised `this`; and a long or double is followed by its second unit.
pub fn ways_of_a_plan_keep_types()
    ensures { (classes : Classes) (links : Links) (s : Scope) (flat : FlatCode) (plan : Plan)
        (routes : Routes)
        → IsTree classes
        → AreLinksOf (headers_of classes) links
        → IsReadyCode classes s flat
        → HasCandidateSites classes flat
        → IsValid (scope_of classes links flat) plan
        → IsRouted (scope_of classes links flat) plan routes
        → FitsRoutes (scope_of classes links flat) routes }
{
    class_tree::classes_of_a_tree_are_a_hierarchy();
}

/// Where objects are made, types stay: what held one of them is plain.
pub fn made_objects_keep_types()
    ensures { (s : PlanScope) (reached : ℕ → Bool) (at : ℕ) (state : State) (away : ℕ → Bool)
        → FitsTypes s reached at state
        → FitsTypes s reached at (without state away) }
{}

/// Frames type written code (JVM Specification SE 8, 4.10.1), and there are such frames.
///
/// The code is written by the routes of a valid plan of a flat code that is ready, in the short or in the wide form, in a pool that has its constants;
/// its frames are stated where the definition of written code states them, and its stack may be as deep as those frames are.
pub fn frames_type_written_code()
    ensures types { (w : Writing) (state : ℕ → Option Frame) (frames : List Frame)
        → Setting w
        → IsFramed w.s.flat w.form w.blocks (items_in w) (body_in w state) frames
        → greatest_of (points_in w) frames ≤ w.max_stack
        → HasFrames (body_in w state) frames }
    ensures there { (w : Writing)
        → Setting w
        → (state : ℕ → Option Frame) × (frames : List Frame)
        × IsFramed w.s.flat w.form w.blocks (items_in w) (body_in w state) frames }
{
    class_model::parameters_of_bytes_are_spelled();
    class_model::constants_compare_by_value();
    class_tree::classes_of_a_tree_are_a_hierarchy();
    member_link::a_look_up_finds_one_field();
    member_link::a_found_field_is_above();
    plan_flow::effect_grows();
}

/// Each item of written code may use the protected member that it names (JVM Specification SE 8, 4.10.1.8) behind its frame, in the host, where
/// the host may use what the flat code names (`access`). So the row of each item holds there, but for the depth of the stack (`rows`).
pub fn written_items_may_use_what_they_name()
    ensures access { (w : Writing) (state : ℕ → Option Frame) (frames : List Frame)
        → Setting w
        → IsFramed w.s.flat w.form w.blocks (items_in w) (body_in w state) frames
        → IsUsableCode w.s.classes w.host w.s.flat
        → (number : ℕ) (item : IndexedItem) (frame : Frame)
        → slice_get (items_in w) number ≡ Some item
        → slice_get frames number ≡ Some frame
        → (row_of (scope_in w) frame number item.instr).access }
    ensures rows { (w : Writing) (state : ℕ → Option Frame) (frames : List Frame)
        → Setting w
        → IsFramed w.s.flat w.form w.blocks (items_in w) (body_in w state) frames
        → IsUsableCode w.s.classes w.host w.s.flat
        → (number : ℕ) (item : IndexedItem) (frame : Frame)
        → slice_get (items_in w) number ≡ Some item
        → slice_get frames number ≡ Some frame
        → RowFits (scope_in w) frame (row_of (scope_in w) frame number item.instr) }
{
    class_model::parameters_of_bytes_are_spelled();
    class_model::constants_compare_by_value();
    class_tree::classes_of_a_tree_are_a_hierarchy();
    member_link::a_look_up_finds_one_field();
    member_link::a_found_field_is_above();
    plan_flow::effect_grows();
}
