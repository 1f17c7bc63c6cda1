// How many workers serve a client.

/// How many workers serve a client at one moment, and of how many.
#[derive(Clone, Copy)]
pub struct Workers {
    /// How many serve a client: from when it was accepted, or its next request came, until its
    /// connection is closed or waits for its next request.
    pub busy: u32,
    /// How many workers the gateway was started with.
    pub count: u32,
}
