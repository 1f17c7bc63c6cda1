// What a desk asks and tells of.
use serve_reports::GatewayStats;

/// Shows what was noted of exchanges and troubles, and hears of what an operator changes. So a desk
/// knows nothing of the log.
pub trait DeskWatch {
    /// What was noted so far.
    fn noted(&self) -> GatewayStats;

    /// The limit was set to so many permits.
    fn limit_set(&self, n: u32);

    /// The algorithm of the limit began anew.
    fn limit_reset(&self);

    /// No further client comes from here on.
    fn draining(&self);

    /// None comes in so many milliseconds, or before where that was said already.
    fn draining_after(&self, delay_ms: u32);
}
