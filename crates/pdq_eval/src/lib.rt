//! What a run of a plan makes of coded rows, and the laws by which its scan threads and its partition owners give the answer of the query.
#![tactic(auto)]

mod laws;
mod picks;

pub use laws::{
    built_rows_are_as_many, empty_runs_answer, group_inputs_are_foldable, group_keys_are_as_many,
    grouped_runs_answer, joins_forget_order, lanes_scan_together, left_fragments_are_enough,
    nulls_meet_nothing, owners_group_together, owners_join_together, owners_keys_add_up,
    owners_put_a_part, owners_take_one_table_more, plain_runs_answer, running_rows_are_the_choices,
    scans_are_of_the_step, shares_put_enough, the_first_table_is_scanned, too_many_running_rows,
};
pub use picks::Pick;
