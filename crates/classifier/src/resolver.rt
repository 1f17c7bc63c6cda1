// How a request's partition is told.
ghost use Rattle.std.specs.Prelude.{◌≡◌, option_map};
ghost use Rattle.classifier.specs.Class.{held_part, resolved_part};

use crate::header::first_value;
use matchit::Router;
use message_parts::{Bytes, Request};
use partitions::{Part, PartitionTable};

/// Where a request's partition is read from.
#[derive(Drop)]
pub enum Resolver {
    /// The value of the first header line of this name, which names a partition byte for byte.
    /// The name of a line is compared without ASCII case.
    Header(Bytes),
    /// This partition, for requests of this method.
    Method(Bytes, Part),
    /// The partition of the route that the path matches.
    Route(Router<Part>),
}

impl Resolver {
    /// The partition that the resolver gives for a request, where the table holds it.
    pub fn part(&self, table: &PartitionTable, request: &Request) -> Option<Part>
        ensures { result ≡ resolved_part table.now request.now self.now }
    {
        match self {
            Resolver::Header(name) => match first_value(&request.headers, name.as_slice()) {
                Some(value) => table.find(value),
                None => None,
            },
            Resolver::Method(method, part) => {
                if request.method.as_slice() == method.as_slice() {
                    held(table, *part)
                } else {
                    None
                }
            }
            Resolver::Route(router) => match router.at(request.path.as_str()) {
                Ok(found) => held(table, *found.value),
                Err(_) => None,
            },
        }
    }
}

/// The part, where it is a partition that the table holds.
fn held(table: &PartitionTable, part: Part) -> Option<Part>
    ensures { result ≡ held_part table.now part }
{
    if table.place(part) < 4 {
        Some(part)
    } else {
        None
    }
}
