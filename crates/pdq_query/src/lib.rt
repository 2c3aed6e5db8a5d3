//! Queries over tables, and what they mean.
#![tactic(auto)]

mod laws;
mod query;

pub use laws::{
    answers_forget_order, answers_sort_one_way, filters_may_come_first, plans_answer,
    plans_gather_the_choices, tables_have_any_order, tests_may_come_early,
};
pub use query::{At, Compare, Filter, Item, Key, Query, is_fold};
