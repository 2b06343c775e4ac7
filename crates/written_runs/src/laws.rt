//! Laws of written code: functions that do nothing, whose contracts say what always holds.
ghost use Rattle.std.specs.Prelude.{ℕ, List};
ghost use Rattle.class_tree.specs.Headers.{headers_of};
ghost use Rattle.class_tree.specs.Hierarchy.{IsHierarchy};
ghost use Rattle.machine_values.specs.declared.action.Action.{Action};
ghost use Rattle.member_link.specs.Machine.Runs.{Run, begins_with, turns};
ghost use Rattle.member_link.specs.Machine.SameRuns.{SameRuns};
ghost use Rattle.typed_runs.specs.FolderTypings.{HasFlatTypings};
ghost use Rattle.written_runs.specs.Inner.MadeObjects.{MakesObjects};
ghost use Rattle.written_runs.specs.Inner.Setup.{IsSetup, Setup, first, second};
ghost use Rattle.written_runs.specs.Inner.Together.{Related};
ghost use Rattle.written_runs.specs.Laws.AddedConstructors.{AddsToCandidates};

/// A program in which methods run what is written of their flat codes, by any valid plans and in either form, shows for every list of actions the same
/// events and the same end as the one in which they run the flat codes, with no more allocations and monitor entries at each event. The folder is a
/// hierarchy, the first program is typed by the typed points of the flat codes, and field constructors are added to classes of candidates' chains
/// alone.
///
/// After any number of turns of the first program the relation holds between its run and some run of the second (`Related`): what the state of
/// the plan has as a virtual object the first run has as an object of its site's class, with the fields and the monitor count that the
/// state and the second run's local units tell. And make code makes such objects, wherever it stands: each gets a name, by which it has the
/// class, the fields and the monitor count that its virtual object stood for (`MakesObjects`).
pub fn written_codes_run_the_same()
    ensures runs { (u : Setup)
        → IsSetup u
        → IsHierarchy (headers_of u.classes)
        → AddsToCandidates u
        → HasFlatTypings u.flats u.typings
        → SameRuns (first u) (second u) }
    ensures related { (u : Setup) (actions : List Action) (count : ℕ)
        → IsSetup u
        → IsHierarchy (headers_of u.classes)
        → AddsToCandidates u
        → HasFlatTypings u.flats u.typings
        → (measure : ℕ) × (other : Run)
        × Related u measure (turns (first u) count (begins_with actions)) other }
    ensures made { (u : Setup)
        → IsSetup u
        → IsHierarchy (headers_of u.classes)
        → AddsToCandidates u
        → HasFlatTypings u.flats u.typings
        → MakesObjects u }
{
    class_model::parameters_of_bytes_are_spelled();
    member_link::a_look_up_finds_one_field();
    member_link::a_found_field_is_above();
    machine_laws::a_turn_keeps_what_was_shown();
    typed_runs::a_run_starts_typed();
    typed_runs::a_step_stays_typed();
    typed_runs::an_action_stays_typed();
}
