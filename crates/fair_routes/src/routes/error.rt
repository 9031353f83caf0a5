//! Why flows over routes were refused.
ghost use Rattle.std.specs.Prelude.{◌≡◌};
ghost use Rattle.fairness.specs.declared.error.Error.TheVariants.{OutOfMemory};
ghost use Rattle.fair_routes.specs.declared.routes.error.RouteError.TheVariants.{Refused};

use fairness::error::Error;
use std::alloc::{AllocError, AllocFailed};

/// Why flows over routes were refused. What was given stays as it is.
#[derive(Debug, Clone, Copy, PartialEq, Eq, thiserror::Error)]
pub enum RouteError {
    /// For memory or for a number, as flows between peers are: `OutOfMemory` or `NumberTooLarge`.
    #[error(transparent)]
    Refused(Error),
    /// The flow at that place uses a link whose number is that of no cap.
    #[error("flow {flow} uses link {link}, which has no entry in the list of caps")]
    NoSuchLink {
        /// The place of the flow in the list of routes.
        flow: usize,
        /// The number of the link.
        link: usize,
    },
}

impl From<Error> for RouteError {
    ghost from_gives = { λ error refused. refused ≡ Refused error };

    fn from(error: Error) -> RouteError {
        RouteError::Refused(error)
    }
}

impl From<AllocError> for RouteError {
    ghost from_gives = { λ _ refused. refused ≡ Refused OutOfMemory };

    fn from(_error: AllocError) -> RouteError {
        RouteError::Refused(Error::OutOfMemory)
    }
}

impl<T: Drop> From<AllocFailed<T>> for RouteError {
    ghost from_gives = { λ _ refused. refused ≡ Refused OutOfMemory };

    fn from(_error: AllocFailed<T>) -> RouteError {
        RouteError::Refused(Error::OutOfMemory)
    }
}
