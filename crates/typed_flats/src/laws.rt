//! Laws of programs in which methods run other code: functions that do nothing, whose contracts say what always holds.
ghost use Rattle.std.specs.Prelude.{◌≡◌, ℕ, []};
ghost use Rattle.class_tree.specs.Headers.{Classes};
ghost use Rattle.class_tree.specs.Trees.{IsTree};
ghost use Rattle.member_link.specs.Machine.Classes.{program_of};
ghost use Rattle.member_link.specs.Machine.Programs.{Links, Program};
ghost use Rattle.member_link.specs.Machine.Replaced.{Replacement, replaced};
ghost use Rattle.same_runs.specs.ClearedFields.{ReplacesByFlats};
ghost use Rattle.same_runs.specs.Flats.{Flats};
ghost use Rattle.typed_flats.specs.FlatTypings.{AreReady, flat_typings};
ghost use Rattle.typed_flats.specs.TypedReplacements.{TypesCodes, all_typed_in};
ghost use Rattle.typed_runs.specs.FolderTypings.{HasFlatTypings};
ghost use Rattle.typed_runs.specs.LinkedInstrs.{LinksInstrs};
ghost use Rattle.typed_runs.specs.TypedPrograms.{IsTypedProgram, Typings};

/// A typed program stays one where typed codes take the place of methods' own and flags of private and final are cleared of fields: the typings are
/// the same, among its own classes.
pub fn a_program_with_typed_codes_is_typed()
    ensures { (P : Program) (typings others : Typings) (r : Replacement)
        → IsTypedProgram P typings
        → ((class : ℕ) → r.added class ≡ [])
        → TypesCodes P r others
        → IsTypedProgram (replaced P r) (all_typed_in (replaced P r) others) }
{
    class_tree::alike_classes_have_one_hierarchy();
    type_rules::a_replaced_program_has_grown_classes();
    type_rules::grown_classes_are_found_alike();
    type_rules::grown_classes_have_the_same_links();
    type_rules::rows_hold_among_grown_classes();
}

/// The program of a verified folder stays typed where methods run flat codes of which code can be written (`IsReadyCode`), in place of their own: these
/// methods are typed by the typed points of their flat codes, as they are read, and the others as they were. The folder is verified: its
/// program is typed, and linking gives typing what it asks of operations.
pub fn flat_codes_run_typed()
    ensures program { (classes : Classes) (links : Links) (typings : Typings) (flats : Flats)
        (r : Replacement)
        → IsTree classes
        → IsTypedProgram (program_of classes links) typings
        → LinksInstrs (program_of classes links) classes
        → AreReady classes flats
        → ReplacesByFlats classes links flats r
        → IsTypedProgram (replaced (program_of classes links) r)
        (all_typed_in (replaced (program_of classes links) r)
        (flat_typings classes flats typings)) }
    ensures frames { (classes : Classes) (links : Links) (typings : Typings) (flats : Flats)
        (r : Replacement)
        → AreReady classes flats
        → HasFlatTypings flats
        (all_typed_in (replaced (program_of classes links) r)
        (flat_typings classes flats typings)) }
{
    class_tree::alike_classes_have_one_hierarchy();
    type_rules::a_replaced_program_has_grown_classes();
    type_rules::grown_classes_are_found_alike();
    type_rules::grown_classes_have_the_same_links();
    type_rules::rows_hold_among_grown_classes();
}
