//! Flows of which some count for more than others, and in `laws` what follows for their rates.
pub use fair_laws::weighted as laws;
pub use fair_routes::routes::weighted::{WeightError, allocate_weighted_routes};
