//! Who sends how fast: the planner of `fair_rates`, and in `laws` what follows for its rates.
pub use fair_laws::rates as laws;
pub use fair_rates::bandwidth::{
    FairParts, Flow, FlowCaps, Rate, Room, Side, allocate, allocate_counted, allocate_linked,
    allocate_linked_counted, draining_splits, duration, fair_parts_in, fair_parts_on,
    nothing_is_left_from_the_least_time_on, parts_alone, rates_are_equal_by_value,
    there_is_one_duration, there_is_one_least_time, transfer,
};
