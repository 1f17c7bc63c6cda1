// A desk where operators are served.

use crate::attending::{Attended, attend};
use crate::caller::Peer;
use crate::desk::Desk;
use crate::memory::AnswerMemory;
use crate::operating::Operating;
use crate::protocol::OperatorCalls;
use counted_io::Counted;
use handling::Handler;
use lent_io::ReadAhead;
use std::io::{BufRead, Write};
use timed_io::Connection;

/// A desk, with the memory of the answers that are given there.
#[derive(Drop)]
pub struct ServedDesk<D> {
    /// Where calls are carried out.
    pub desk: D,
    /// What requests are read into and answers are made in.
    pub memory: AnswerMemory,
}

impl<'o, L, C, D: Desk> Handler<Operating<'o, L, C>> for ServedDesk<D> {
    type Told = Attended;

    type Protocol = OperatorCalls;

    ghost use Rattle.operator_serving.specs.Attending.{IsCarriedOut};
    ghost use Rattle.operator_serving.specs.Memory.{refused_of};

    ghost handles = { λ by old new before behind told. IsCarriedOut D.rows D.shows D.does
        by.audience by.page.now old.desk new.desk (refused_of old.memory)
        (refused_of new.memory) before behind told };

    fn handle<S: Connection, R: BufRead + ReadAhead, W: Write>(
        &mut self,
        by: &Operating<'o, L, C>,
        stream: &S,
        reader: &mut Counted<R>,
        writer: &mut Counted<W>,
    ) -> Attended {
        let caller = Peer { stream };
        attend(
            &mut self.memory,
            by.audience,
            by.page,
            &mut self.desk,
            &caller,
            reader,
            writer,
        )
    }
}
