//! A limit that needs no numbers but its bounds: [`Auto`] finds out what an answer takes without a
//! queue, and lets as many in as the backend works on at once and a headroom of their root.
//!
//! It looks at the limit where a window of answers is full, as many as the limit or more where they
//! differ. What a round trip takes above the base stands for a queue: less of it than the headroom
//! raises a limit that was met, and more lowers it half way. Now and then the limit dips below the
//! slots for a moment, and what answers take there is the new base. Quick drops, of which a backend
//! sheds more than answers, lower it too.
//!
//! The rules are `specs/AutoRules.antt`, one word a sentence, and each call's contract is that of
//! [`limit_laws::Limit`] at these rules. A step takes no memory: the state is 29 numbers. What an
//! operator may rely on stands on the functions of `laws`.
#![tactic(auto)]

mod auto;
mod laws;
mod learned;
mod moving;
mod root;
mod shedding;
mod showing;
mod window;

pub use auto::Auto;
pub use laws::{
    dips_end, drops_never_raise, moves_by_twice_at_most, rises_at_the_base, rises_only_where_met,
    roofs_end, windows_end,
};
