//! Who sends how fast over a network whose links many flows share: the planner of `fair_routes`, and in `laws` what
//! follows for its rates.
pub use fair_laws::routes as laws;
pub use fair_routes::routes::{
    RouteError, WeightError, allocate_routes, allocate_routes_counted, allocate_weighted_routes,
    network,
};

pub mod weighted;
