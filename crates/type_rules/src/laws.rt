//! Laws: functions that do nothing, whose contracts say what always holds.
ghost use Rattle.std.specs.Prelude.{◌≡◌, ◌⊎◌, ◌↔◌, ℕ, Bool, List, [], length, slice_get, Option, Some, None, Ok, IsTrue};
ghost use Rattle.std.specs.List.{AllByRecursion};
ghost use Rattle.class_model.specs.Checks.{AllHold, asked_each};
ghost use Rattle.class_model.specs.Code.{OperandFits};
ghost use Rattle.class_model.specs.Header.{header_of, method_member};
ghost use Rattle.class_model.specs.Instructions.{decoded};
ghost use Rattle.class_model.specs.MethodCode.{code_of};
ghost use Rattle.class_model.specs.Methods.{IsHandle, entry_of, home_of};
ghost use Rattle.class_model.specs.Stated.{stated_in};
ghost use Rattle.class_model.specs.declared.class_file.ClassFile.{ClassFile};
ghost use Rattle.class_model.specs.declared.class_file.CodePart.{CodePart};
ghost use Rattle.class_model.specs.declared.class_file.Method.{Method};
ghost use Rattle.class_model.specs.declared.class_file.MethodAt.{MethodAt};
ghost use Rattle.class_model.specs.declared.frame.Frame.{Frame};
ghost use Rattle.class_model.specs.declared.frame.VType.{VType};
ghost use Rattle.class_model.specs.declared.header.Header.{Header};
ghost use Rattle.class_model.specs.declared.instr.Instr.{Instr};
ghost use Rattle.class_model.specs.declared.instr.Placed.{Placed};
ghost use Rattle.class_tree.specs.Alike.{AreAlike};
ghost use Rattle.class_tree.specs.Headers.{Name, Classes, Headers, IsClassFile, IsThere, headers_of};
ghost use Rattle.flow_code.specs.TypedFrames.{FolderFrames, typed_frames_at};
ghost use Rattle.member_link.specs.Bodies.{Body, BodyPoint, CodeItem, asked_access, item_row};
ghost use Rattle.member_link.specs.BodyTyping.{AreConsecutivePoints, AreInOrder, GoesToStated, HasFrames, IsThrowable, RowHolds, StatesAtPoints, frame_at};
ghost use Rattle.member_link.specs.Access.{IsAccessible, IsAtOrBelow, IsClassAccessible};
ghost use Rattle.member_link.specs.Assignability.{IsAssignable};
ghost use Rattle.member_link.specs.Declarations.{Site, declaration_checks, site_of};
ghost use Rattle.member_link.specs.DeclaredMembers.{Declared};
ghost use Rattle.member_link.specs.Fields.{FindsField};
ghost use Rattle.member_link.specs.Machine.Classes.{handles_in, run_method_of, starts_from};
ghost use Rattle.member_link.specs.Machine.FieldSteps.{is_barred};
ghost use Rattle.member_link.specs.Machine.Links.{AreLinksOf};
ghost use Rattle.member_link.specs.Machine.Codes.{call_op, instr_op};
ghost use Rattle.member_link.specs.Machine.Programs.{Links, Program, headers_in};
ghost use Rattle.member_link.specs.Machine.Replaced.{Replacement, replaced};
ghost use Rattle.member_link.specs.Methods.{FindsMethod};
ghost use Rattle.member_link.specs.References.{DescriptorNames, Reference};
ghost use Rattle.member_link.specs.RowScope.{RowScope};
ghost use Rattle.member_link.specs.Rows.FrameAssignability.{IsFrameAssignable};
ghost use Rattle.member_link.specs.Rows.Readings.{Reading, row_by};
ghost use Rattle.member_link.specs.Rows.Row.{row_frame};
ghost use Rattle.member_link.specs.Rows.Table.{row_of};
ghost use Rattle.member_link.specs.Scope.{Scope, scope_at, scope_of};
ghost use Rattle.member_link.specs.Uses.{attr_checks, instr_use_checks};
ghost use Rattle.type_rules.specs.Checks.{IsTypedAt};
ghost use Rattle.type_rules.specs.Grown.{AddsNewInitialisers, AreGrownClasses, AreGrownHeaders, IsGrownBody, IsGrownClass, IsGrownHeader, IsGrownOver, IsGrownScope, IsNewFound, IsSameFound};
ghost use Rattle.type_rules.specs.MethodBodies.{body_of};
ghost use Rattle.type_rules.specs.Typed.{BodyFails, Typed, TypesBody, flows_into};
ghost use Rattle.type_rules.specs.Verified.{TypesFolder, TypesMethod};
ghost use Rattle.type_rules.specs.declared.fault.TypeRule.{TypeRule};

/// There is at most one list of frames that types a body, and so a method.
pub fn a_method_has_one_typing()
    ensures { (b : Body) (one other : List Frame)
        → TypesBody b one
        → TypesBody b other
        → one ≡ other }
{}

/// Where a body fails, as that of a method, no frames type it, and it fails first in one place by one rule.
pub fn a_failing_method_has_no_frames()
    ensures none { (b : Body) (frames : List Frame) (offset : ℕ) (rule : TypeRule)
        → BodyFails b offset rule
        → ¬ TypesBody b frames }
    ensures one { (b : Body) (offset other : ℕ) (rule other_rule : TypeRule)
        → BodyFails b offset rule
        → BodyFails b other other_rule
        → (offset ≡ other) × (rule ≡ other_rule) }
{}

/// A typed folder types each method by its numbers: one with code has frames that type it, and one without has none.
pub fn a_typed_folder_types_each_method()
    ensures { (classes : Classes) (typed : FolderFrames)
        → TypesFolder classes typed
        → (at : MethodAt)
        → TypesMethod (scope_at classes at) (typed_frames_at typed at) }
{}

/// In a typed body, as that of a method, each instruction is typed by its frame behind what flows into it, and nothing flows
/// past the last.
pub fn a_typed_method_types_each_instruction()
    ensures count { (b : Body) (frames : List Frame)
        → TypesBody b frames
        → length frames ≡ length b.points }
    ensures each { (b : Body) (frames : List Frame)
        → TypesBody b frames
        → (number : ℕ) (point : BodyPoint)
        → slice_get b.points number ≡ Some point
        → (frame : Frame)
        × (slice_get frames number ≡ Some frame)
        × IsTypedAt b (flows_into b frames number) point frame }
    ensures past { (b : Body) (frames : List Frame)
        → TypesBody b frames
        → flows_into b frames (length b.points) ≡ None }
{}

/// Frames type a body whose points stand in order exactly where, place by place, what flows in, what is stated and where control
/// may go agree: the frame at each place where one is stated is equal to it, and so is that at each target and each handler.
pub fn frames_type_a_body_by_its_places()
    ensures places { (b : Body) (frames : List Frame)
        → AreInOrder b.points
        → TypesBody b frames
        → HasFrames b frames }
    ensures types { (b : Body) (frames : List Frame)
        → AreInOrder b.points
        → HasFrames b frames
        → TypesBody b frames }
{}

/// In a typed body whose points stand in order, and that states frames at points only, the frame at a place for which one is
/// stated is the stated one; and each frame behind a point that jumps, and each that a handler of it begins with, is assignable
/// to the frame at its place, which is the stated one.
pub fn a_typed_body_goes_to_stated_frames()
    ensures stated { (b : Body) (frames : List Frame)
        → AreInOrder b.points
        → StatesAtPoints b
        → TypesBody b frames
        → (place : ℕ) (stated : Frame)
        → b.stated place ≡ Some stated
        → frame_at b frames place ≡ Some stated }
    ensures edges { (b : Body) (frames : List Frame)
        → AreInOrder b.points
        → StatesAtPoints b
        → TypesBody b frames
        → AllByRecursion (GoesToStated b frames) b.points }
{}

/// The body of a method with code stands in order and states frames at its points only. Where the code has instructions, they
/// stand one after the other from its first byte to its end. So frames type a method exactly where they do so place by place.
pub fn a_method_stands_in_order()
    ensures order { (s : Scope) → AreInOrder (body_of s).points }
    ensures consecutive { (s : Scope) (instrs : List Placed)
        → decoded s.part.code ≡ Ok instrs
        → AreConsecutivePoints 0 (body_of s).points (body_of s).end }
    ensures stated { (s : Scope) → StatesAtPoints (body_of s) }
    ensures places { (s : Scope) (frames : List Frame)
        → Typed s frames ↔ HasFrames (body_of s) frames }
{
    code_bytes::instructions_are_consecutive();
    code_bytes::frames_are_stated_at_instructions();
}

/// Classes that have grown are alike. In them a look-up finds the field that it found before, but for flags of private and final,
/// and the method that it found before; only where it found none it may find an initialiser that is added. A class, a method and
/// a field that could be used from a class still can, and what was assignable is.
pub fn grown_classes_are_found_alike()
    ensures alike { (old new : Headers) → AreGrownHeaders old new → AreAlike old new }
    ensures fields { (old new : Headers) (class : Name) (name desc : List ℕ) (field : Declared)
        → AreGrownHeaders old new
        → FindsField old class name desc (Some field)
        → (found : Declared)
        × FindsField new class name desc (Some found)
        × IsSameFound field found }
    ensures fields_before { (old new : Headers) (class : Name) (name desc : List ℕ)
        (found : Declared)
        → AreGrownHeaders old new
        → FindsField new class name desc (Some found)
        → (field : Declared)
        × FindsField old class name desc (Some field)
        × IsSameFound field found }
    ensures methods { (old new : Headers) (class : Name) (name desc : List ℕ) (method : Declared)
        → AreGrownHeaders old new
        → FindsMethod old class name desc (Some method)
        → FindsMethod new class name desc (Some method) }
    ensures methods_before { (old new : Headers) (class : Name) (name desc : List ℕ)
        (method : Declared)
        → AreGrownHeaders old new
        → FindsMethod new class name desc (Some method)
        → FindsMethod old class name desc (Some method) ⊎ IsNewFound old method }
    ensures class_access { (old new : Headers) (from name : Name)
        → AreGrownHeaders old new
        → IsClassAccessible old from name ↔ IsClassAccessible new from name }
    ensures method_access { (old new : Headers) (from named : Name) (method : Declared)
        → AreGrownHeaders old new
        → IsAccessible old from named method ↔ IsAccessible new from named method }
    ensures field_access { (old new : Headers) (from named : Name) (field found : Declared)
        → AreGrownHeaders old new
        → IsSameFound field found
        → IsAccessible old from named field
        → IsAccessible new from named found }
    ensures above { (old new : Headers) (low high : Name)
        → AreGrownHeaders old new
        → IsAtOrBelow old low high ↔ IsAtOrBelow new low high }
    ensures throwables { (old new : Headers) (caught : Option Name)
        → AreGrownHeaders old new
        → IsThrowable old caught ↔ IsThrowable new caught }
    ensures types { (old new : Headers) (low high : VType)
        → AreGrownHeaders old new
        → IsAssignable old low high ↔ IsAssignable new low high }
    ensures frames { (old new : Headers) (from to : Frame)
        → AreGrownHeaders old new
        → IsFrameAssignable old from to ↔ IsFrameAssignable new from to }
{
    member_link::alike_classes_have_one_look_up();
}

/// What the row of an instruction, or of a test for null, asks behind a frame among classes holds behind the same frame where they and
/// the current class have grown, whether access is asked or not and however the instruction is read, and the same frame is left.
pub fn rows_hold_among_grown_classes()
    ensures held { (old new : RowScope) (before : Frame) (place : ℕ) (item : CodeItem)
        (asks : Bool)
        → IsGrownScope old new
        → RowHolds old before (asked_access asks (item_row old before place item))
        → RowHolds new before (asked_access asks (item_row new before place item)) }
    ensures left { (old new : RowScope) (before : Frame) (place : ℕ) (item : CodeItem)
        → IsGrownScope old new
        → row_frame before (item_row new before place item)
        ≡ row_frame before (item_row old before place item) }
    ensures read { (old new : RowScope) (before : Frame) (place : ℕ) (item : CodeItem)
        (reading : Reading)
        → IsGrownScope old new
        → RowHolds old before (row_by reading before (item_row old before place item))
        → RowHolds new before (row_by reading before (item_row new before place item)) }
    ensures left_read { (old new : RowScope) (before : Frame) (place : ℕ) (item : CodeItem)
        (reading : Reading)
        → IsGrownScope old new
        → row_frame before (row_by reading before (item_row new before place item))
        ≡ row_frame before (row_by reading before (item_row old before place item)) }
{
    member_link::alike_classes_have_one_look_up();
}

/// Frames that type a body among classes type it where they have grown.
pub fn grown_classes_keep_typings()
    ensures { (old new : Body) (frames : List Frame)
        → IsGrownBody old new
        → TypesBody old frames
        → TypesBody new frames }
{
    member_link::alike_classes_have_one_look_up();
}

/// The classes of a program have grown where flags of fields are cleared and only instance initialisers are added that a class may get; so
/// have they where no method is added.
pub fn a_replaced_program_has_grown_classes()
    ensures added { (P : Program) (r : Replacement)
        → AddsNewInitialisers r 0 P.classes
        → AreGrownHeaders (headers_in P) (headers_in (replaced P r)) }
    ensures cleared { (P : Program) (r : Replacement)
        → ((class : ℕ) → r.added class ≡ [])
        → AreGrownHeaders (headers_in P) (headers_in (replaced P r)) }
{}

/// The links of classes, which say nothing of instance initialisers, are those of the classes that have grown.
pub fn grown_classes_have_the_same_links()
    ensures { (old new : Headers) (links : Links)
        → AreGrownHeaders old new
        → AreLinksOf old links ↔ AreLinksOf new links }
{
    class_tree::alike_classes_have_one_hierarchy();
    member_link::alike_classes_have_one_look_up();
}

/// Where classes have grown, a store into a field that is refused because the field is final was refused before. Nothing else reads
/// whether a field is final, so that a store that was not refused is none of which more is asked.
pub fn grown_classes_bar_no_more_stores()
    ensures { (P Q : Program) (field : Reference) (initialises : Option Name)
        → AreGrownHeaders (headers_in P) (headers_in Q)
        → IsTrue (is_barred Q field initialises)
        → IsTrue (is_barred P field initialises) }
{}

/// The static fields of a class file that has grown begin with the same values, and its pool has the same method handles where none is
/// among the constants that are added.
pub fn a_grown_class_begins_alike()
    ensures starts { (old new : ClassFile)
        → IsClassFile old
        → IsGrownClass old new
        → starts_from new.pool 0 new.fields ≡ starts_from old.pool 0 old.fields }
    ensures handles { (old new : ClassFile) (grown : IsGrownClass old new)
        → IsClassFile old
        → AllByRecursion (λ entry. ¬ IsHandle entry) grown.more
        → handles_in new.pool new.pool ≡ handles_in old.pool old.pool }
{}

/// A class file that has grown has a header that has grown, and so has each class of a folder. A class file as it was is one that has
/// grown by nothing.
pub fn a_grown_class_has_a_grown_header()
    ensures itself { (class : ClassFile) → IsGrownClass class class }
    ensures class { (old new : ClassFile)
        → IsClassFile old
        → IsGrownClass old new
        → IsGrownHeader (header_of old) (header_of new) }
    ensures folder { (old new : Classes)
        → AllByRecursion IsClassFile old.folder
        → AreGrownClasses old new
        → AreGrownHeaders (headers_of old) (headers_of new) }
{}

/// What linking asks of the declarations of a class holds where it and the classes around it have grown, if the classes are there that the
/// descriptors of the added initialisers name.
pub fn grown_classes_declare_what_passes()
    ensures { (old new : Headers) (header twin : Header) (grown : IsGrownHeader header twin)
        → AreGrownHeaders old new
        → AllByRecursion (λ method. DescriptorNames (IsThere new) method.desc) grown.alike.added
        → AllHold (declaration_checks old header)
        → AllHold (declaration_checks new twin) }
{
    member_link::alike_classes_have_one_look_up();
}

/// An instruction whose operands fit the pool of a class file fits the pool of a grown one. What linking asks of it, and what its row asks
/// behind a frame, holds there too, and the row leaves the same frame; and it means the same to the machine by the same links, as a
/// call of a member does.
pub fn a_grown_class_keeps_its_instructions()
    ensures operands { (old new : ClassFile) (max_locals : ℕ) (instr : Instr)
        → IsClassFile old
        → IsGrownClass old new
        → OperandFits old.pool old.major max_locals instr
        → OperandFits new.pool new.major max_locals instr }
    ensures linked { (before after : Headers) (old new : ClassFile) (max_locals : ℕ)
        (instr : Instr) (site : Site)
        → AreGrownHeaders before after
        → IsClassFile old
        → IsGrownClass old new
        → OperandFits old.pool old.major max_locals instr
        → AllHold (instr_use_checks (record {
          headers = before;
          pool = old.pool;
          site = site;
        }) instr)
        → AllHold (instr_use_checks (record {
          headers = after;
          pool = new.pool;
          site = site;
        }) instr) }
    ensures held { (scope now : RowScope) (old new : ClassFile) (max_locals : ℕ) (instr : Instr)
        (before : Frame) (place : ℕ) (asks : Bool)
        → IsClassFile old
        → IsGrownClass old new
        → OperandFits old.pool old.major max_locals instr
        → IsGrownOver scope now old.pool new.pool
        → RowHolds scope before (asked_access asks (row_of scope before place instr))
        → RowHolds now before (asked_access asks (row_of now before place instr)) }
    ensures left { (scope now : RowScope) (old new : ClassFile) (max_locals : ℕ) (instr : Instr)
        (before : Frame) (place : ℕ)
        → IsClassFile old
        → IsGrownClass old new
        → OperandFits old.pool old.major max_locals instr
        → IsGrownOver scope now old.pool new.pool
        → row_frame before (row_of now before place instr)
        ≡ row_frame before (row_of scope before place instr) }
    ensures runs { (scope now : RowScope) (old new : ClassFile) (max_locals : ℕ) (instr : Instr)
        (links : Links) (number : ℕ → ℕ)
        → IsClassFile old
        → IsGrownClass old new
        → OperandFits old.pool old.major max_locals instr
        → IsGrownOver scope now old.pool new.pool
        → instr_op links number now instr ≡ instr_op links number scope instr }
    ensures calls { (scope now : RowScope) (links : Links) (opcode : ℕ) (reference : Reference)
        → AreGrownHeaders scope.headers now.headers
        → IsGrownHeader scope.own now.own
        → call_op links now opcode reference ≡ call_op links scope opcode reference }
{
    member_link::alike_classes_have_one_look_up();
}

/// A method of a class file keeps its code where the class file and the classes around it have grown, if it is not changed itself: the
/// frame that it begins with and those that it states, the frames that type it, what linking asks of it, and what it means to the
/// machine by the same links.
pub fn a_grown_class_keeps_its_code()
    ensures entry { (old new : ClassFile) (number : ℕ) (method : Method) (part : CodePart)
        → IsClassFile old
        → IsGrownClass old new
        → slice_get old.methods number ≡ Some method
        → entry_of (home_of new) method part ≡ entry_of (home_of old) method part }
    ensures stated { (old new : ClassFile) (number : ℕ) (method : Method) (part : CodePart)
        → IsClassFile old
        → IsGrownClass old new
        → slice_get old.methods number ≡ Some method
        → code_of method.attrs ≡ Some part
        → stated_in (home_of new) method part part.attrs
        ≡ stated_in (home_of old) method part part.attrs }
    ensures typed { (before after : Headers) (old new : ClassFile) (number : ℕ) (method : Method)
        (frames : Option (List Frame))
        → AreGrownHeaders before after
        → IsClassFile old
        → IsGrownClass old new
        → slice_get old.methods number ≡ Some method
        → TypesMethod (scope_of before old method) frames
        → TypesMethod (scope_of after new method) frames }
    ensures site { (old new : ClassFile) (number : ℕ) (method : Method)
        → IsClassFile old
        → IsGrownClass old new
        → slice_get old.methods number ≡ Some method
        → site_of (header_of new) (method_member new.pool method)
        ≡ site_of (header_of old) (method_member old.pool method) }
    ensures linked { (before after : Headers) (old new : ClassFile) (number : ℕ)
        (method : Method) (site : Site)
        → AreGrownHeaders before after
        → IsClassFile old
        → IsGrownClass old new
        → slice_get old.methods number ≡ Some method
        → AllHold (asked_each (attr_checks (record {
          headers = before;
          pool = old.pool;
          site = site;
        }) (home_of old) method) method.attrs)
        → AllHold (asked_each (attr_checks (record {
          headers = after;
          pool = new.pool;
          site = site;
        }) (home_of new) method) method.attrs) }
    ensures runs { (before after : Headers) (old new : ClassFile) (number : ℕ) (method : Method)
        (links : Links)
        → AreGrownHeaders before after
        → IsClassFile old
        → IsGrownClass old new
        → slice_get old.methods number ≡ Some method
        → run_method_of links after new method ≡ run_method_of links before old method }
{
    member_link::alike_classes_have_one_look_up();
    class_model::checks_hold_over_a_grown_pool();
}
