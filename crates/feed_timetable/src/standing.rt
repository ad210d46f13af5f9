//! Where a traveller stands on the way.
use transit_base::{Moment, StopId};

/// Where a traveller stands, since when, and whether no ride was taken yet.
#[derive(Clone, Copy)]
pub struct Standing {
    pub stop: StopId,
    pub at: Moment,
    pub fresh: bool,
}
