// What is told of a request: its class.
ghost use Rattle.std.specs.Prelude.{◌≡◌};
ghost use Rattle.std.specs.List.{list_any};
ghost use Rattle.classifier.specs.Class.{class_of, first_part, is_bypassed_by};

use crate::rules::Rules;
use message_parts::Request;
use partitions::{Part, PartitionTable};

/// What the limiter is told of a request.
#[derive(Clone, Copy)]
pub struct Class {
    /// Whether the request bypasses the limit.
    pub bypass: bool,
    /// The request's partition.
    pub part: Part,
}

/// The class of a request: the first resolver that gives a partition of the table decides the
/// part, which is unknown where none does; any bypass rule that holds sets `bypass`. Takes no
/// memory.
pub fn classify(rules: &Rules, table: &PartitionTable, request: &Request) -> Class
    ensures { result ≡ class_of rules.now table.now request.now }
{
    let bypass = is_bypassed(rules, request);
    let part = match first_part(rules, table, request) {
        Some(part) => part,
        None => Part::Unknown,
    };
    Class { bypass, part }
}

/// Whether some bypass rule holds.
fn is_bypassed(rules: &Rules, request: &Request) -> bool
    ensures { result ≡ list_any (is_bypassed_by request.now) rules.now.bypass }
{
    rules.bypass().iter().any(|rule| rule.holds(request))
}

/// The part that the first deciding resolver gives.
fn first_part(rules: &Rules, table: &PartitionTable, request: &Request) -> Option<Part>
    ensures { result ≡ first_part table.now request.now rules.now.resolvers }
{
    for resolver in rules.resolvers() {
        if let Some(part) = resolver.part(table, request) {
            return Some(part);
        }
    }
    None
}
