//! When and how long connections are served.

/// The port on which to listen, and how many connections to serve at most.
#[derive(Clone, Copy)]
pub struct Hours {
    pub port: u16,
    pub count: u64,
}
