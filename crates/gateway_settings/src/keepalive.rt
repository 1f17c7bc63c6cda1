// Which connections are kept open between requests.
use crate::settings::Settings;

/// Which connections are kept open between requests.
#[derive(Clone, Copy)]
pub enum Keepalive {
    /// None: each connection carries one request.
    Off,
    /// Those of clients alone.
    Clients,
    /// Those to the backend alone.
    Backend,
    /// Both.
    On,
}

impl Keepalive {
    /// Its word in the log and in explanations.
    pub fn word(self) -> &'static str {
        match self {
            Keepalive::Off => "off",
            Keepalive::Clients => "clients",
            Keepalive::Backend => "backend",
            Keepalive::On => "on",
        }
    }
}

impl Settings {
    /// Which connections are kept open between requests.
    pub fn keepalive(&self) -> Keepalive {
        match (self.clients, self.backends) {
            (0, 0) => Keepalive::Off,
            (_, 0) => Keepalive::Clients,
            (0, _) => Keepalive::Backend,
            _ => Keepalive::On,
        }
    }
}
