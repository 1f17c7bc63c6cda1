// Which keys a configuration leaves out.

/// Which keys of the numbers that exchanges share a configuration leaves out.
#[derive(Clone, Copy)]
pub struct OmittedKeys {
    /// The key `backlog`.
    pub backlog: bool,
    /// The key `max` of the table `limit`.
    pub limit_max: bool,
    /// The key `bodies_mib`.
    pub bodies: bool,
}
