//! What is known of ends, limits and blockers.
ghost use Rattle.ml_cert.specs.Known.{Known};

use ml_conflict::laws::{allowed_up_to, blocking, same_limits, smaller_ends};

/// The laws of ends, limits and blockers that the judge stands on, as one.
pub fn known_limits()
    ensures { Known }
{
    allowed_up_to();
    blocking();
    smaller_ends();
    same_limits();
}
