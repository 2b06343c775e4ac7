//! Small flat codes with plans made by hand, and the code that is written from them, computed from the definition of written code.
#![tactic(auto)]

mod rows;

pub use rows::{
    decided_comparisons_are_written, field_in_a_try_has_no_handler, goto_itself_is_written,
    goto_omitted_is_written, goto_over_a_goto_is_written, monitor_entered_again_is_written,
    narrowed_field_is_written, nop_between_blocks_is_written,
    null_at_an_uninitialised_object_is_refused, object_at_a_join_is_written,
    object_for_a_handler_is_written, object_held_by_another_is_written,
    object_in_a_loop_is_written, object_kept_past_joins_is_written,
    object_on_a_back_edge_is_written, object_under_top_is_written, objects_in_order_are_written,
    plain_receiver_is_written, saved_stack_is_written, sum_of_fields_is_written,
    virtual_monitor_is_written,
};
