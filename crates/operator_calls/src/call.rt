// What an operator asks.

/// What is looked at: it changes nothing.
#[derive(Clone, Copy)]
pub enum Look {
    /// `GET /`: the page that draws the state.
    Page,
    /// `GET /metrics`: the state, and what was counted.
    Metrics,
    /// `GET /health`: whether clients are accepted, and a worker is free for them.
    Health,
    /// `GET /health?deep`: the same, and whether the backend can be connected to.
    DeepHealth,
}

/// What is to be changed.
#[derive(Clone, Copy)]
pub enum Change {
    /// `POST /limit`: the limit is to be this many permits, where its kind is set by hand.
    SetLimit(u32),
    /// `POST /reset`: the algorithm of the limit is to begin anew.
    Reset,
    /// `POST /drain`: no further client is to be accepted, and those inside are to be served.
    Drain,
    /// `POST /drain?after-ms=N`: the same in so many milliseconds, 1 to 3,600,000; until then
    /// clients are accepted, and the gateway tells that it isn't healthy.
    DrainAfter(u32),
}

/// What an operator asks of a gateway.
#[derive(Clone, Copy)]
pub enum Call {
    /// To be shown something.
    Look(Look),
    /// To change something.
    Change(Change),
}
