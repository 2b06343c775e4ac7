//! Laws of flat code: functions that do nothing, whose contracts say what always holds.
ghost use Rattle.same_runs.specs.ClearedFields.{ReplacesByFlats};
ghost use Rattle.same_runs.specs.TypedFlats.{TypesFlat};
ghost use Rattle.std.specs.Prelude.{◌≡◌, ℕ, Some, length};
ghost use Rattle.class_model.specs.declared.class_file.MethodAt.{MethodAt};
ghost use Rattle.class_tree.specs.Headers.{Classes, headers_of};
ghost use Rattle.class_tree.specs.Trees.{IsTree};
ghost use Rattle.expanded_code.specs.AloneAnswers.{IsFlatAlone};
ghost use Rattle.expanded_code.specs.CandidateSites.{HasCandidateSites};
ghost use Rattle.expanded_code.specs.ExpandAnswers.{IsExpanded, IsNoHost, IsWide};
ghost use Rattle.expanded_runs.specs.AlonePrograms.{AreAlone};
ghost use Rattle.expanded_runs.specs.ByteCodes.{HaveByteCodes};
ghost use Rattle.expanded_runs.specs.CarriedConstants.{CarriesConstants};
ghost use Rattle.expanded_runs.specs.CaughtNames.{AreNamedCatches};
ghost use Rattle.expanded_runs.specs.ExpandedPrograms.{AreExpanded};
ghost use Rattle.expanded_runs.specs.UsableNames.{AreUsableCatches, IsUsableCode};
ghost use Rattle.expanded_runs.specs.VersionsKept.{AreOfVersion};
ghost use Rattle.flow_code.specs.FlatCode.{FlatCode, point_at};
ghost use Rattle.flow_code.specs.TypedFrames.{FolderFrames};
ghost use Rattle.flow_code.specs.declared.point.Point.{Point};
ghost use Rattle.member_link.specs.Linked.{IsLinked};
ghost use Rattle.member_link.specs.Machine.Classes.{program_of};
ghost use Rattle.member_link.specs.Machine.Links.{AreLinksOf};
ghost use Rattle.member_link.specs.Machine.Programs.{Links};
ghost use Rattle.member_link.specs.Machine.Replaced.{Replacement, replaced};
ghost use Rattle.member_link.specs.Scope.{Scope, scope_at};
ghost use Rattle.plan_flow.specs.Narrow.{IsNarrow};
ghost use Rattle.plan_flow.specs.PlanScope.{scope_of as plan_scope};
ghost use Rattle.plan_flow.specs.Plans.{FlowsInside};
ghost use Rattle.plan_flow.specs.ReadyForPlans.{IsReadyForPlans};
ghost use Rattle.same_runs.specs.EqualRuns.{EqualRuns};
ghost use Rattle.same_runs.specs.FlatBodies.{body_of_flat, typed_points};
ghost use Rattle.same_runs.specs.Flats.{Flats, flat_program};
ghost use Rattle.same_runs.specs.ReadyCode.{IsReadyCode};
ghost use Rattle.type_rules.specs.Typed.{TypesBody};
ghost use Rattle.type_rules.specs.Verified.{TypesFolder};
ghost use Rattle.typed_runs.specs.FolderTypings.{HasTypings};
ghost use Rattle.typed_runs.specs.TypedPrograms.{IsTypedProgram, Typings};

/// To the machine the flat code of a method by itself is the method's own code. So a program in which any methods run such
/// flat codes is the program of the folder, and runs equally.
pub fn flat_codes_alone_run_equally()
    ensures program { (classes : Classes) (typed : FolderFrames) (links : Links) (flats : Flats)
        → TypesFolder classes typed
        → AreAlone classes typed flats
        → flat_program classes links flats ≡ program_of classes links }
    ensures runs { (classes : Classes) (typed : FolderFrames) (links : Links) (flats : Flats)
        → TypesFolder classes typed
        → AreAlone classes typed flats
        → EqualRuns (program_of classes links) (flat_program classes links flats) }
{
    type_rules::a_typed_folder_types_each_method();
    type_rules::a_typed_method_types_each_instruction();
    same_runs::programs_that_are_equal_run_equally();
}

/// The typed points of the flat code of a method by itself type it.
pub fn a_flat_code_alone_is_typed()
    ensures { (classes : Classes) (typed : FolderFrames) (at : MethodAt) (flat : FlatCode) (s : Scope)
        → TypesFolder classes typed
        → IsFlatAlone classes typed at flat
        → scope_at classes at ≡ Some s
        → TypesBody (body_of_flat classes s flat) (typed_points flat) }
{
    type_rules::a_typed_folder_types_each_method();
    type_rules::a_method_stands_in_order();
    type_rules::frames_type_a_body_by_its_places();
    type_rules::a_typed_body_goes_to_stated_frames();
}

/// Expanded flat codes of hosts can take the place of their codes: there is a replacement that does so, since of each field it is decided which of
/// its flags are cleared.
pub fn expanded_flat_codes_have_a_replacement()
    ensures { (classes : Classes) (typed : FolderFrames) (links : Links) (flats : Flats)
        → AreLinksOf (headers_of classes) links
        → AreExpanded classes typed flats
        → (r : Replacement) × ReplacesByFlats classes links flats r }
{
    member_link::a_look_up_finds_one_field();
}

/// A program in which any hosts run their expanded flat codes, callees in place of their calls, runs equally: for every list of
/// actions it shows the same events with equal counts and the same end, and it goes on exactly where the program of the folder does. The
/// folder is verified: frames type it, and its program is typed by them (`a_verified_folder_is_a_typed_program` of typed_programs).
pub fn expanded_flat_codes_run_equally()
    ensures { (classes : Classes) (typed : FolderFrames) (links : Links) (typings : Typings)
        (flats : Flats) (r : Replacement)
        → IsTree classes
        → TypesFolder classes typed
        → AreLinksOf (headers_of classes) links
        → IsTypedProgram (program_of classes links) typings
        → HasTypings typed typings
        → AreExpanded classes typed flats
        → ReplacesByFlats classes links flats r
        → EqualRuns (program_of classes links) (replaced (program_of classes links) r) }
{
    code_bytes::a_class_file_has_read_methods();
    code_bytes::instructions_are_consecutive();
    member_link::a_look_up_finds_one_field();
    member_link::a_found_field_is_above();
    member_link::a_look_up_finds_one_method();
    member_link::a_found_method_is_above();
    member_link::a_selection_chooses_one();
    member_link::a_choice_can_be_run();
    type_rules::a_typed_folder_types_each_method();
    type_rules::a_typed_method_types_each_instruction();
    type_rules::a_method_stands_in_order();
    typed_runs::a_run_starts_typed();
    typed_runs::a_step_stays_typed();
    typed_runs::an_action_stays_typed();
}

/// The typed points of the expanded flat code of a host type it, as the typing of code asks, where the object of a candidate site is read as one
/// of its class: its `new` makes such an object, and a call of java/lang/Object.<init> takes it away (`TypesFlat`). Access is not asked. The
/// folder is verified: it is linked, frames type it, and its program is typed by them.
pub fn an_expanded_flat_code_is_typed()
    ensures { (classes : Classes) (typed : FolderFrames) (links : Links) (typings : Typings)
        (at : MethodAt) (flat : FlatCode) (s : Scope)
        → IsTree classes
        → IsLinked classes
        → TypesFolder classes typed
        → AreLinksOf (headers_of classes) links
        → IsTypedProgram (program_of classes links) typings
        → HasTypings typed typings
        → IsExpanded classes typed at flat
        → ¬ IsNoHost classes at
        → scope_at classes at ≡ Some s
        → TypesFlat classes s flat }
{
    class_model::parameters_are_spelled();
    class_model::a_descriptor_of_a_text();
    code_bytes::a_class_file_has_read_methods();
    code_bytes::instructions_are_consecutive();
    member_link::a_linked_folder_passes_by_place();
    member_link::a_look_up_finds_one_method();
    member_link::a_found_method_is_above();
    member_link::a_selection_chooses_one();
    member_link::a_choice_can_be_run();
    type_rules::a_typed_folder_types_each_method();
    type_rules::a_typed_method_types_each_instruction();
    type_rules::a_method_stands_in_order();
    type_rules::frames_type_a_body_by_its_places();
    type_rules::a_typed_body_goes_to_stated_frames();
    typed_runs::a_step_stays_typed();
}

/// Plans can be made of the expanded flat code of a host (`least_plan`): there is a point, and a next one behind each from which control falls
/// through; the typed frame of each point has all local units of the flat code; and where the flat code has no more sites and units than written code
/// may have (`IsWide`), its numbers fit those of plans.
pub fn an_expanded_flat_code_can_be_planned()
    ensures flows { (classes : Classes) (typed : FolderFrames) (at : MethodAt) (flat : FlatCode)
        → IsTree classes
        → TypesFolder classes typed
        → IsExpanded classes typed at flat
        → FlowsInside flat }
    ensures locals { (classes : Classes) (typed : FolderFrames) (at : MethodAt) (flat : FlatCode)
        → IsTree classes
        → TypesFolder classes typed
        → IsExpanded classes typed at flat
        → (number : ℕ) (point : Point)
        → point_at flat number ≡ Some point
        → length point.typed.locals ≡ flat.locals }
    ensures narrow { (classes : Classes) (typed : FolderFrames) (at : MethodAt) (flat : FlatCode)
        → IsTree classes
        → TypesFolder classes typed
        → IsExpanded classes typed at flat
        → ¬ IsWide flat
        → IsNarrow flat }
{
    code_bytes::a_class_file_has_read_methods();
    type_rules::a_typed_folder_types_each_method();
    type_rules::a_typed_method_types_each_instruction();
    type_rules::a_method_stands_in_order();
    type_rules::frames_type_a_body_by_its_places();
    type_rules::a_typed_body_goes_to_stated_frames();
}

/// What it has of other classes than the host's may stand in the host's code: a call site, a method handle and a method type stay in their class.
pub fn an_expanded_flat_code_carries_constants()
    ensures { (classes : Classes) (typed : FolderFrames) (at : MethodAt) (flat : FlatCode)
        → TypesFolder classes typed
        → IsExpanded classes typed at flat
        → CarriesConstants classes flat }
{
    type_rules::a_typed_folder_types_each_method();
    type_rules::a_typed_method_types_each_instruction();
    type_rules::a_method_stands_in_order();
    type_rules::frames_type_a_body_by_its_places();
    type_rules::a_typed_body_goes_to_stated_frames();
}

/// Its instructions of other classes than the host's come from classes of the host's version.
pub fn an_expanded_flat_code_is_of_one_version()
    ensures { (classes : Classes) (typed : FolderFrames) (at : MethodAt) (flat : FlatCode) (s : Scope)
        → TypesFolder classes typed
        → IsExpanded classes typed at flat
        → scope_at classes at ≡ Some s
        → AreOfVersion classes s.class.major flat }
{
    type_rules::a_typed_folder_types_each_method();
    type_rules::a_typed_method_types_each_instruction();
    type_rules::a_method_stands_in_order();
    type_rules::frames_type_a_body_by_its_places();
    type_rules::a_typed_body_goes_to_stated_frames();
}

/// The classes that its handlers catch are named in the pool of the host's class.
pub fn an_expanded_flat_code_catches_what_its_host_names()
    ensures { (classes : Classes) (typed : FolderFrames) (at : MethodAt) (flat : FlatCode) (s : Scope)
        → TypesFolder classes typed
        → IsExpanded classes typed at flat
        → scope_at classes at ≡ Some s
        → AreNamedCatches s flat }
{
    type_rules::a_typed_folder_types_each_method();
    type_rules::a_typed_method_types_each_instruction();
    type_rules::a_method_stands_in_order();
    type_rules::frames_type_a_body_by_its_places();
    type_rules::a_typed_body_goes_to_stated_frames();
}

/// The same of the flat code of a method by itself, whose numbers fit in any case.
pub fn a_flat_code_alone_can_be_planned()
    ensures flows { (classes : Classes) (typed : FolderFrames) (at : MethodAt) (flat : FlatCode)
        → IsTree classes
        → TypesFolder classes typed
        → IsFlatAlone classes typed at flat
        → FlowsInside flat }
    ensures locals { (classes : Classes) (typed : FolderFrames) (at : MethodAt) (flat : FlatCode)
        → IsTree classes
        → TypesFolder classes typed
        → IsFlatAlone classes typed at flat
        → (number : ℕ) (point : Point)
        → point_at flat number ≡ Some point
        → length point.typed.locals ≡ flat.locals }
    ensures narrow { (classes : Classes) (typed : FolderFrames) (at : MethodAt) (flat : FlatCode)
        → IsTree classes
        → TypesFolder classes typed
        → IsFlatAlone classes typed at flat
        → IsNarrow flat }
{
    code_bytes::a_class_file_has_read_methods();
    type_rules::a_typed_folder_types_each_method();
    type_rules::a_typed_method_types_each_instruction();
    type_rules::a_method_stands_in_order();
    type_rules::frames_type_a_body_by_its_places();
    type_rules::a_typed_body_goes_to_stated_frames();
}

/// What an expanded flat code names may be used in the host's code (JVM Specification SE 8, 4.10.1.8 and 5.4.4). An instruction of the host's own code
/// passes linking there, and behind its stack the host may use the protected member that it names; one of a callee passes linking in the callee's class,
/// and what it names is accessible from the host's class (`code`). The classes that handlers catch are there and accessible (`catches`). The folder is
/// verified: it is linked and frames type it.
pub fn an_expanded_flat_code_names_what_the_host_may_use()
    ensures code { (classes : Classes) (typed : FolderFrames) (at : MethodAt) (flat : FlatCode) (s : Scope)
        → IsLinked classes
        → TypesFolder classes typed
        → IsExpanded classes typed at flat
        → scope_at classes at ≡ Some s
        → IsUsableCode classes s flat }
    ensures catches { (classes : Classes) (typed : FolderFrames) (at : MethodAt) (flat : FlatCode) (s : Scope)
        → IsLinked classes
        → TypesFolder classes typed
        → IsExpanded classes typed at flat
        → scope_at classes at ≡ Some s
        → AreUsableCatches s flat }
{
    member_link::a_linked_folder_passes_by_place();
    type_rules::a_typed_folder_types_each_method();
    type_rules::a_typed_method_types_each_instruction();
    type_rules::a_method_stands_in_order();
    type_rules::frames_type_a_body_by_its_places();
    type_rules::a_typed_body_goes_to_stated_frames();
}

/// The expanded flat code of a host is ready to be written.
///
/// Its points type it, and each, reached or not, is an instruction of a class of the folder that reading and linking accept (`code`; the codes of the
/// folder are bytes). Plans of it can be written: control stays inside, numbers fit, and the type of an uninitialised object of a site comes along
/// each edge from a place of the same type or from its `new` (`plans`; it has no more sites and units than written code may have). Its sites are
/// `new`s of candidate classes in the order of their points, and where it stores into a final field of a candidate's chain, it has a site of a class
/// whose chain has the field's class, since the store stands in an initialiser of that class, and that in place of a call on a site's object
/// (`sites`; JVM Specification SE 8, 6.5.putfield). The folder is verified: it is linked, frames type it, and its program is typed by them.
pub fn an_expanded_flat_code_is_ready()
    ensures code { (classes : Classes) (typed : FolderFrames) (links : Links) (typings : Typings)
        (at : MethodAt) (flat : FlatCode) (s : Scope)
        → IsTree classes
        → HaveByteCodes classes
        → IsLinked classes
        → TypesFolder classes typed
        → AreLinksOf (headers_of classes) links
        → IsTypedProgram (program_of classes links) typings
        → HasTypings typed typings
        → IsExpanded classes typed at flat
        → ¬ IsNoHost classes at
        → scope_at classes at ≡ Some s
        → IsReadyCode classes s flat }
    ensures plans { (classes : Classes) (typed : FolderFrames) (links : Links) (typings : Typings)
        (at : MethodAt) (flat : FlatCode)
        → IsTree classes
        → IsLinked classes
        → TypesFolder classes typed
        → AreLinksOf (headers_of classes) links
        → IsTypedProgram (program_of classes links) typings
        → HasTypings typed typings
        → IsExpanded classes typed at flat
        → ¬ IsNoHost classes at
        → ¬ IsWide flat
        → IsReadyForPlans (plan_scope classes links flat) }
    ensures sites { (classes : Classes) (typed : FolderFrames) (links : Links) (typings : Typings)
        (at : MethodAt) (flat : FlatCode)
        → IsTree classes
        → TypesFolder classes typed
        → AreLinksOf (headers_of classes) links
        → IsTypedProgram (program_of classes links) typings
        → HasTypings typed typings
        → IsExpanded classes typed at flat
        → ¬ IsNoHost classes at
        → HasCandidateSites classes flat }
{
    class_model::parameters_are_spelled();
    class_model::a_descriptor_of_a_text();
    code_bytes::a_class_file_has_read_methods();
    code_bytes::instructions_are_consecutive();
    member_link::a_linked_folder_passes_by_place();
    member_link::a_look_up_finds_one_method();
    member_link::a_found_method_is_above();
    member_link::a_selection_chooses_one();
    member_link::a_choice_can_be_run();
    type_rules::a_typed_folder_types_each_method();
    type_rules::a_typed_method_types_each_instruction();
    type_rules::a_method_stands_in_order();
    type_rules::frames_type_a_body_by_its_places();
    type_rules::a_typed_body_goes_to_stated_frames();
    typed_runs::a_step_stays_typed();
}
