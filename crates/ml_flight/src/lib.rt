//! The zoom timeline: about a fixed centre, at which scales each label is shown.
//!
//! - [`window`]: a view without its scale; [`stay`]: an interval of scales;
//! - [`timeline`]: the scales at which a label is shown ([`stays`]), over `solve`: those at which one
//!   box meets the window;
//! - [`highest`]: the greatest number of labels shown at one scale ([`peak`]), over [`place`]: places
//!   along the scales;
//! - [`laws`]: what stays and peaks say of views, and that there is one timeline and one peak.
#![tactic(auto)]

pub mod highest;
pub mod laws;
pub mod place;
mod solve;
pub mod stay;
pub mod timeline;
pub mod window;

pub use highest::peak;
pub use place::Peak;
pub use stay::Stay;
pub use timeline::stays;
pub use window::Window;
