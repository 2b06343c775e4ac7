//! Each function says of one case what is written.
ghost use Rattle.std.specs.Prelude.{◌≡◌};
ghost use Rattle.written_cases.specs.CaseFrames.{HasFrames};
ghost use Rattle.written_cases.specs.CaseWords.{IsWritten, bytes_of};
ghost use Rattle.written_cases.specs.SumOfFields as sum_of_fields;
ghost use Rattle.written_cases.specs.KeptPastJoins as kept_past_joins;
ghost use Rattle.written_cases.specs.MadeInALoop as made_in_a_loop;
ghost use Rattle.written_cases.specs.MadeOnABackEdge as made_on_a_back_edge;
ghost use Rattle.written_cases.specs.EnteredAndLeft as entered_and_left;
ghost use Rattle.written_cases.specs.EnteredAgain as entered_again;
ghost use Rattle.written_cases.specs.MadeForAHandler as made_for_a_handler;
ghost use Rattle.written_cases.specs.PlainReceiver as plain_receiver;
ghost use Rattle.written_cases.specs.GotoItself as goto_itself;
ghost use Rattle.written_cases.specs.NopBetween as nop_between;
ghost use Rattle.written_cases.specs.GotoOmitted as goto_omitted;
ghost use Rattle.written_cases.specs.GotoNext as goto_next;
ghost use Rattle.written_cases.specs.MadeAtAJoin as made_at_a_join;
ghost use Rattle.written_cases.specs.StackSaved as stack_saved;
ghost use Rattle.written_cases.specs.HeldByAnother as held_by_another;
ghost use Rattle.written_cases.specs.MadeInOrder as made_in_order;
ghost use Rattle.written_cases.specs.Narrowed as narrowed;
ghost use Rattle.written_cases.specs.Decided as decided;
ghost use Rattle.written_cases.specs.NopBetweenFrames as nop_between_frames;
ghost use Rattle.written_cases.specs.TopOnStack as top_on_stack;
ghost use Rattle.written_cases.specs.MadeForAHandlerFrames as made_for_a_handler_frames;
ghost use Rattle.written_cases.specs.NullAtUninit as null_at_uninit;
ghost use Rattle.written_cases.specs.FieldInATry as field_in_a_try;
ghost use Rattle.plan_flow.specs.Narrow.{IsNarrow};
ghost use Rattle.plan_flow.specs.Plans.{FlowsInside};
ghost use Rattle.plan_flow.specs.ReadyForPlans.{KeepsUninit};

/// The fields of an object that never escapes are read: nothing is made, and the code has neither its `new` nor its calls.
pub fn sum_of_fields_is_written()
    ensures written { IsWritten sum_of_fields.this sum_of_fields.wanted }
    ensures bytes { bytes_of sum_of_fields.items ≡ sum_of_fields.bytes }
{}

/// An object that stays virtual past two joins is made on one path alone. In the wide form each conditional jump is the opposite one over a
/// goto.
pub fn object_kept_past_joins_is_written()
    ensures written { IsWritten kept_past_joins.this kept_past_joins.wanted }
    ensures bytes { bytes_of kept_past_joins.items ≡ kept_past_joins.bytes }
    ensures wide { IsWritten kept_past_joins.this_wide kept_past_joins.wanted_wide }
{}

/// An object of a loop is dropped on the back edge.
pub fn object_in_a_loop_is_written()
    ensures written { IsWritten made_in_a_loop.this made_in_a_loop.wanted }
    ensures bytes { bytes_of made_in_a_loop.items ≡ made_in_a_loop.bytes }
{}

/// An object is made on the edge to the next point, and one on the back edge of a loop, before its goto.
pub fn object_on_a_back_edge_is_written()
    ensures written { IsWritten made_on_a_back_edge.this made_on_a_back_edge.wanted }
{}

/// The monitor of a virtual object is entered and left: neither is written, and the handler is not reached.
pub fn virtual_monitor_is_written()
    ensures written { IsWritten entered_and_left.this entered_and_left.wanted }
    ensures bytes { bytes_of entered_and_left.items ≡ entered_and_left.bytes }
{}

/// An object whose monitor is held is made, and its monitor entered again; what leaves it is written with its handler.
pub fn monitor_entered_again_is_written()
    ensures written { IsWritten entered_again.this entered_again.wanted }
    ensures bytes { bytes_of entered_again.items ≡ entered_again.bytes }
{}

/// A handler pad makes the object that a handler finds made.
pub fn object_for_a_handler_is_written()
    ensures written { IsWritten made_for_a_handler.this made_for_a_handler.wanted }
    ensures bytes { bytes_of made_for_a_handler.items ≡ made_for_a_handler.bytes }
    ensures frames { HasFrames made_for_a_handler_frames.framed }
{}

/// A receiver that is no virtual object is tested for null. In the wide form the jump of the test keeps its form.
pub fn plain_receiver_is_written()
    ensures written { IsWritten plain_receiver.this plain_receiver.wanted }
    ensures bytes { bytes_of plain_receiver.items ≡ plain_receiver.bytes }
    ensures wide { IsWritten plain_receiver.this_wide plain_receiver.wanted }
{}

/// A loop that only copies a virtual object is written as a goto to itself.
pub fn goto_itself_is_written()
    ensures written { IsWritten goto_itself.this goto_itself.wanted }
    ensures bytes { bytes_of goto_itself.items ≡ goto_itself.bytes }
{}

/// A `nop` stands where a block writes nothing and the frame behind it differs in a local.
pub fn nop_between_blocks_is_written()
    ensures written { IsWritten nop_between.this nop_between.wanted }
    ensures bytes { bytes_of nop_between.items ≡ nop_between.bytes }
    ensures frames { HasFrames nop_between_frames.framed }
{}

/// A goto over one that leads to itself is written, and so is that one.
pub fn goto_over_a_goto_is_written()
    ensures written { IsWritten goto_omitted.this goto_omitted.wanted }
    ensures bytes { bytes_of goto_omitted.items ≡ goto_omitted.bytes }
{}

/// A goto over a block that writes nothing is not written, if the frames are alike.
pub fn goto_omitted_is_written()
    ensures written { IsWritten goto_next.this goto_next.wanted }
    ensures bytes { bytes_of goto_next.items ≡ goto_next.bytes }
{}

/// A jump pad makes the object on the edge to a join where another path made it.
pub fn object_at_a_join_is_written()
    ensures written { IsWritten made_at_a_join.this made_at_a_join.wanted }
    ensures bytes { bytes_of made_at_a_join.items ≡ made_at_a_join.bytes }
{}

/// Stack entries above an object that is made are saved and loaded again.
pub fn saved_stack_is_written()
    ensures written { IsWritten stack_saved.this stack_saved.wanted }
    ensures bytes { bytes_of stack_saved.items ≡ stack_saved.bytes }
{}

/// An object that another one holds is made, and the other one stays virtual.
pub fn object_held_by_another_is_written()
    ensures written { IsWritten held_by_another.this held_by_another.wanted }
    ensures bytes { bytes_of held_by_another.items ≡ held_by_another.bytes }
{}

/// Of two objects the one that the other holds is made first.
pub fn objects_in_order_are_written()
    ensures written { IsWritten made_in_order.this made_in_order.wanted }
    ensures bytes { bytes_of made_in_order.items ≡ made_in_order.bytes }
    ensures order { made_in_order.IsOrdered }
{}

/// A value is narrowed to the type of the field that it is stored into.
pub fn narrowed_field_is_written()
    ensures written { IsWritten narrowed.this narrowed.wanted }
    ensures bytes { bytes_of narrowed.items ≡ narrowed.bytes }
{}

/// Comparisons and tests of a virtual object are decided.
pub fn decided_comparisons_are_written()
    ensures written { IsWritten decided.this decided.wanted }
    ensures bytes { bytes_of decided.items ≡ decided.bytes }
{}

/// An object that no instruction can take from the stack any more is made on the edge behind its `new`.
pub fn object_under_top_is_written()
    ensures written { IsWritten top_on_stack.this top_on_stack.wanted }
    ensures bytes { bytes_of top_on_stack.items ≡ top_on_stack.bytes }
{}

/// Where null could be at an uninitialised object of a site, what is written would not raise as the flat code does. Such a flat code is not
/// ready for plans, and for no other reason.
pub fn null_at_an_uninitialised_object_is_refused()
    ensures written { IsWritten null_at_uninit.this null_at_uninit.wanted }
    ensures flows { FlowsInside null_at_uninit.scope.flat }
    ensures narrow { IsNarrow null_at_uninit.scope.flat }
    ensures refused { ¬ KeepsUninit null_at_uninit.scope }
{}

/// A static field that is read in a try has no handler in the written code, and one in the flat code. So of frames below an initialiser's
/// nothing is asked when an object is thrown.
pub fn field_in_a_try_has_no_handler()
    ensures written { IsWritten field_in_a_try.this field_in_a_try.wanted }
    ensures none { field_in_a_try.NoneThroughBoth }
    ensures alike { field_in_a_try.InitialisersAlike }
{}
