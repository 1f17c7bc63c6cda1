// One request over a connection, and its answer.
ghost use Rattle.std.specs.Prelude.{◌≡◌, true, false, IfErr};
ghost use Rattle.std.specs.Io.KnownBytes.{Appends};
ghost use Rattle.wire.specs.Forwards.{IsCut};
ghost use Rattle.wire.specs.Written.{request_text};
ghost use Rattle.tcp_backend.specs.Answers.{answer_of};
ghost use Rattle.tcp_backend.specs.Ends.{HoldsFront};

use crate::answer_read::AnswerRead;
use crate::attempt::Attempt;
use crate::call_buffers::CallBuffers;
use crate::call_time::CallTime;
use crate::early::EarlyRead;
use crate::ends::RequestOutlet;
use crate::unanswered::UnansweredWrite;
use body_memory::BodyMemory;
use clocks::Clock;
use counted_io::Counted;
use lent_io::{BufferedRead, BufferedWrite, ReadBuffer, WriteBuffer};
use message_parts::Request;
use std::io::Read;
use std::net::OpenStream;
use std::os::fd::AsRawFd;
use std::time::Duration;
use timed_io::{Countdown, read_ready};
use wire::{BackendAnswer, Persistence, Response, WireFault, read_response, write_request};

/// How many reads the end of a connection may take, behind an answer that was read whole.
const LAST_READS: u32 = 16;

/// How long each of them may take, in milliseconds.
const LAST_MILLIS: u64 = 20;

/// A request that is to be sent.
#[derive(Clone, Copy)]
pub(crate) struct Sending<'a> {
    pub(crate) request: &'a Request,
    /// The host of a request that names none.
    pub(crate) host: &'a str,
    /// What it says of its connection.
    pub(crate) persistence: Persistence,
}

/// What writing a request leaves, and whether it was written whole.
struct SentRequest<S, E> {
    is_sent: bool,
    stream: S,
    end: E,
    behind: WriteBuffer,
}

/// What reading an answer leaves: the answer, whether a byte of one came, and what the clock told
/// when it was last read for.
#[derive(Drop)]
struct ReadAnswer<S> {
    answer: Result<Response, WireFault>,
    is_heard: bool,
    looked: u64,
    stream: S,
    ahead: ReadBuffer,
}

impl<S> ReadAnswer<S> {
    // With what was written before.
    fn behind_request<E>(self, is_sent: bool, end: E, behind: WriteBuffer) -> Attempt<S, E>
        ensures answer { result.answer ≡ self.answer }
        ensures sent { result.is_sent ≡ is_sent }
        ensures end { result.end ≡ end }
    {
        let ReadAnswer {
            answer,
            is_heard,
            looked,
            stream,
            ahead,
        } = self;
        Attempt {
            answer,
            is_sent,
            is_heard,
            looked,
            stream,
            end,
            buffers: CallBuffers { ahead, behind },
        }
    }
}

// Writes the request and reads its answer. A backend may answer before it has read the whole
// request, and close or read no further (RFC 9112, section 9.5), so the answer is looked for behind
// a write that failed or stands still, too; nothing more is written then. Both end with the time of
// the call.
pub(crate) fn ask<M, S, E, C>(
    memory: &mut M,
    call: &CallTime<'_, C>,
    stream: S,
    end: E,
    buffers: CallBuffers,
    sending: &Sending<'_>,
) -> Attempt<S, E>
where
    M: BodyMemory,
    S: Read + OpenStream + AsRawFd,
    E: RequestOutlet<S>,
    C: Clock,
    ensures sent { result.is_sent ≡ true → Appends (E.contents end) (E.contents result.end)
        (request_text sending.now.persistence sending.now.host.now sending.now.request.now) }
    ensures front { HoldsFront (E.contents end) (E.contents result.end)
        (request_text sending.now.persistence sending.now.host.now sending.now.request.now) }
    ensures cut { result.is_sent ≡ false → IfErr result.answer IsCut }
{
    let CallBuffers { ahead, behind } = buffers;
    let SentRequest {
        is_sent,
        stream,
        end,
        behind,
    } = send(stream, end, call.countdown(), behind, sending);
    let reader = AnswerRead::new(stream, call.countdown());
    if !is_sent {
        let read = read_early(memory, reader, ahead, sending.request);
        return read.behind_request(is_sent, end, behind);
    }
    let read = read_answer(memory, reader, ahead, sending.request);
    read.behind_request(is_sent, end, behind)
}

// Writes the request, and tells whether it was written whole.
fn send<S: OpenStream, E: RequestOutlet<S>, C: Clock>(
    stream: S,
    end: E,
    time: Option<Countdown<'_, C>>,
    behind: WriteBuffer,
    sending: &Sending<'_>,
) -> SentRequest<S, E>
    ensures sent { result.is_sent ≡ true → Appends (E.contents end) (E.contents result.end)
        (request_text sending.now.persistence sending.now.host.now sending.now.request.now) }
    ensures front { HoldsFront (E.contents end) (E.contents result.end)
        (request_text sending.now.persistence sending.now.host.now sending.now.request.now) }
{
    let Sending {
        request,
        host,
        persistence,
    } = *sending;
    let unanswered = UnansweredWrite::new(stream, end, time);
    let mut writer = Counted::new(BufferedWrite::new(unanswered, behind));
    let written = write_request(&mut writer, request, host, persistence);
    let writer = writer.into_inner();
    let is_sent = written.is_ok() && writer.is_sent();
    let (writer, behind) = writer.into_parts();
    let (stream, end) = writer.into_parts();
    SentRequest {
        is_sent,
        stream,
        end,
        behind,
    }
}

// The answer behind a request that was written whole.
fn read_answer<M: BodyMemory, S: Read + OpenStream + AsRawFd, C: Clock>(
    memory: &mut M,
    reader: AnswerRead<'_, S, C>,
    ahead: ReadBuffer,
    request: &Request,
) -> ReadAnswer<S> {
    let mut reader = Counted::new(BufferedRead::new(reader, ahead));
    let answer = read_response(memory, &mut reader, &request.method);
    let (reader, ahead) = reader.into_inner().into_parts();
    ReadAnswer {
        answer,
        is_heard: reader.is_heard(),
        looked: reader.looked(),
        stream: reader.into_stream(),
        ahead,
    }
}

// The answer that came before the request was written. It has to say its own length: its end may be
// a cut. Where there is none, the fault is that of the write.
fn read_early<M: BodyMemory, S: Read + OpenStream + AsRawFd, C: Clock>(
    memory: &mut M,
    reader: AnswerRead<'_, S, C>,
    ahead: ReadBuffer,
    request: &Request,
) -> ReadAnswer<S>
    ensures { IfErr result.answer IsCut }
{
    let mut reader = Counted::new(BufferedRead::new(EarlyRead::new(reader), ahead));
    let answer = match read_response(memory, &mut reader, &request.method) {
        Ok(response) => Ok(response),
        Err(WireFault::Memory) => Err(WireFault::Memory),
        Err(WireFault::Bodies) => Err(WireFault::Bodies),
        Err(_) => Err(WireFault::Write),
    };
    let (reader, ahead) = reader.into_inner().into_parts();
    let reader = reader.into_inner();
    ReadAnswer {
        answer,
        is_heard: reader.is_heard(),
        looked: reader.looked(),
        stream: reader.into_stream(),
        ahead,
    }
}

// Reads and drops what follows an answer, so that a backend which closes its connection does so
// first. One that keeps it open holds nobody for longer, and a fault changes nothing. Mostly the
// end has come already.
pub(crate) fn read_on<S: Read + OpenStream + AsRawFd>(stream: &mut S) {
    let mut dropped = [0u8; 64];
    if let Ok(0) = read_ready(&*stream, &mut dropped) {
        return;
    }
    let most = Duration::from_millis(LAST_MILLIS);
    if stream.set_read_timeout(Some(most)).is_err() {
        return;
    }
    for _ in 0..LAST_READS {
        match stream.read(&mut dropped) {
            Ok(0) | Err(_) => return,
            Ok(_) => {}
        }
    }
}

// What becomes of a request that was sent over a connection; whether the last look found the call's
// time to be over, and whether the connection had been kept and no byte of an answer came.
pub(crate) fn answer_of(
    asked: Result<Response, WireFault>,
    is_over: bool,
    is_stale: bool,
) -> BackendAnswer
    ensures { result ≡ answer_of asked is_over is_stale }
{
    match asked {
        Ok(response) => BackendAnswer::Answered(response),
        Err(WireFault::Memory) => BackendAnswer::Memory,
        Err(WireFault::Bodies) => BackendAnswer::Bodies,
        Err(WireFault::Read | WireFault::Write) if is_over => BackendAnswer::Late,
        Err(fault) if is_stale => BackendAnswer::Stale(fault),
        Err(fault) => BackendAnswer::Broken(fault),
    }
}
