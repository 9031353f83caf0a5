//! Why flows with weights were refused.
ghost use Rattle.std.specs.Prelude.{◌≡◌};
ghost use Rattle.fairness.specs.declared.error.Error.TheVariants.{OutOfMemory};
ghost use Rattle.fair_routes.specs.declared.routes.error.RouteError.TheVariants.{Refused};
ghost use Rattle.fair_routes.specs.declared.routes.weighted.error.WeightError.TheVariants.{Routes};

use crate::routes::RouteError;
use fairness::error::Error;
use std::alloc::{AllocError, AllocFailed};

/// Why flows with weights were refused. What was given stays as it is.
#[derive(Debug, Clone, Copy, PartialEq, Eq, thiserror::Error)]
pub enum WeightError {
    /// As flows without weights are: for memory, for a number, or for a link without a cap's entry.
    #[error(transparent)]
    Routes(RouteError),
    /// There are not as many weights as flows.
    #[error("{flows} flows have {weights} weights")]
    OtherCount {
        /// How many flows there are.
        flows: usize,
        /// How many weights.
        weights: usize,
    },
    /// The weight of the flow at that place is zero.
    #[error("flow {flow} has weight 0")]
    NoWeight {
        /// The place of the flow in the list of routes.
        flow: usize,
    },
    /// The flows that use some link with a cap have a weight of 2^64 or more together.
    #[error("the flows of a link have a weight of 2^64 or more together")]
    TooMuchWeight,
}

impl From<RouteError> for WeightError {
    ghost from_gives = { λ error refused. refused ≡ Routes error };

    fn from(error: RouteError) -> WeightError {
        WeightError::Routes(error)
    }
}

impl From<Error> for WeightError {
    ghost from_gives = { λ error refused. refused ≡ Routes (Refused error) };

    fn from(error: Error) -> WeightError {
        WeightError::Routes(RouteError::Refused(error))
    }
}

impl From<AllocError> for WeightError {
    ghost from_gives = { λ _ refused. refused ≡ Routes (Refused OutOfMemory) };

    fn from(_error: AllocError) -> WeightError {
        WeightError::Routes(RouteError::Refused(Error::OutOfMemory))
    }
}
