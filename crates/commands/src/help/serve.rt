// The help of `serve`.
use crate::options::{option_row, option_rows, serve_rows};

pub(crate) const SERVE_ABOUT: &str = "Stands before a backend, and forwards what the limit admits";

/// A text, the lines of the options, and the text behind them.
macro_rules! with_options {
    ([$before:literal, $behind:literal] $($rows:tt)*) => {
        with_options! { @ [$before,] [$behind] $($rows)* }
    };
    // The lines of each row go behind those before it.
    (
        @ [$($lines:tt)*] [$behind:literal]
        $name:ident $word:literal $value_name:literal
            [$least:literal to $most:literal; default $default:literal]
            listed $($listed:literal)*
            told $before:literal $between:literal $rest:literal;
        $($rows:tt)*
    ) => {
        with_options! {
            @
            [
                $($lines)* "  --", $word, " ", $value_name, $before, stringify!($least), " to ",
                stringify!($most), $between, "default ", stringify!($default), $rest, "\n",
            ]
            [$behind]
            $($rows)*
        }
    };
    (
        @ [$($lines:tt)*] [$behind:literal]
        $name:ident $word:literal $value_name:literal [$least:literal to $most:literal]
            listed $($listed:literal)*
            told $before:literal $rest:literal;
        $($rows:tt)*
    ) => {
        with_options! {
            @
            [
                $($lines)* "  --", $word, " ", $value_name, $before, stringify!($least), " to ",
                stringify!($most), $rest, "\n",
            ]
            [$behind]
            $($rows)*
        }
    };
    (
        @ [$($lines:tt)*] [$behind:literal]
        $name:ident $word:literal $value_name:literal [log lines; default $form:ident]
            listed $($listed:literal)*
            told $before:literal $rest:literal;
        $($rows:tt)*
    ) => {
        with_options! {
            @
            [
                $($lines)* "  --", $word, " ", $value_name, $before, "default ", stringify!($form),
                $rest, "\n",
            ]
            [$behind]
            $($rows)*
        }
    };
    (
        @ [$($lines:tt)*] [$behind:literal]
        $name:ident $word:literal $value_name:literal [flag]
            listed $($listed:literal)*
            told $rest:literal;
        $($rows:tt)*
    ) => {
        with_options! {
            @ [$($lines)* "  --", $word, $rest, "\n",] [$behind] $($rows)*
        }
    };
    (
        @ [$($lines:tt)*] [$behind:literal]
        $name:ident $word:literal $value_name:literal [$($address:ident)*]
            listed $($listed:literal)*
            told $rest:literal;
        $($rows:tt)*
    ) => {
        with_options! {
            @ [$($lines)* "  --", $word, " ", $value_name, $rest, "\n",] [$behind] $($rows)*
        }
    };
    (@ [$($lines:tt)*] [$behind:literal]) => {
        concat!($($lines)* $behind)
    };
}

pub(crate) const SERVE_HELP: &str = serve_rows!(
    with_options,
    "\
Serves clients at the address `listen` of the file CONFIG and forwards to its `backend` what its
limit admits. CONFIG is TOML text of at most 1 MiB; `admission check --help` has its keys, and
`admission check` says whether a file is right before anything is served. A connection carries one
request, HTTP/1.1 or 1.0, and is closed after its answer. With the key `clients`, connections of
HTTP/1.1 clients are kept for further requests; with `backends`, connections to the backend are.
Bodies are read whole, up to 8 MiB each way.

",
    "
For example, with this file as gate.toml

  version = 2
  listen = \"127.0.0.1:8080\"
  backend = \"127.0.0.1:9000\"
  backlog = 10

  [limit]
  kind = \"fixed\"
  initial = 40

`admission serve gate.toml --workers 64` lets 40 requests be at the backend at once and 10 more wait
for a second each; `python3 -m http.server 9000` is a backend to try it with, and
`curl http://127.0.0.1:8080/` a client. The packaged configuration finds its limit by itself: it is
of the kind auto, and goes up to what the workers leave over.

An answer of the backend lets the newest waiter in if it has room; with `promote = \"all\"` it lets
in all waiters that have room, so that nobody waits below a limit that has risen.

An admitted request is forwarded once and never tried again. What the client gets, and what the
limit learns from it:

  what happened                                                 the client gets   the limit learns
  no permit: refused, backlog full, or waited too long          429               nothing
  the backend answered 200 to 499, but not 429                  that answer       success
  the backend answered 429, 503 or 504                          that answer       dropped
  the backend answered another status from 500 to 999           that answer       ignored
  the backend's answer is unreadable, cut off or above 8 MiB    502               dropped
  the backend ends a kept connection under a later request      no answer         dropped
  the backend can't be reached                                  502               ignored
  the backend took longer than --backend-timeout-ms             504               dropped
  out of memory                                                 500               ignored
  the request is malformed, cut off, or has two lengths         400               nothing
  the request's body is above 8 MiB                             413               nothing
  all bodies together are above bodies_mib: a request's         503               nothing
  all bodies together are above bodies_mib: a response's        502               ignored
  the request's head is above 64 KiB or 100 lines               431               nothing
  the method is CONNECT or TRACE, or the coding isn't chunked   501               nothing
  the client left or was too slow with its request              no answer         nothing

An ignored ending gives the permit back and changes no limit.

The log on standard error says `listening`, with the address, the number of workers and the kind of
limit, once the address is bound. Warnings may come before it: a route matches no path, or none but
itself; the limit, or its max, with its shares and the backlog exceed the workers, so that callers
past the workers wait unseen in the system's accept queue and are never refused; the workers may
need more descriptors than the system gives; or the backend is this gateway itself.

While it serves the log says, at most once in ten seconds each and with the count since the last
time, that the backend can't be reached, broke an answer or took too long, that no descriptor was
free, or that bodies are at their bound. With --report-seconds N one line every N seconds tells the
state: the limit, the requests in flight and those that wait, each class as in flight/share, the
counters since the start, and how many exchanges ended in each status of the gateway's own, so that
a stop loses N seconds of counters at most:
`report limit=L inflight=I waiters=V granted=G class.NAME=C/S class.unknown=C admitted=A ..
dropped=D 400=N 413=N 429=N 431=N 500=N 501=N 502=N 504=N`.

With --admin each connection to ADDRESS carries one call. Its Host has to be the address itself, and
a POST needs the line `X-Admission: yes`, so that no page in a browser can send one:

  GET /         a page that draws the last minutes in a browser
  GET /metrics  the state, in the text format of Prometheus
  GET /health   200 while clients are accepted; 503 while all workers are held, and once the gateway
                drains
  POST /limit   sets the limit to the number in the body, if its kind is settable
  POST /reset   begins the algorithm of the limit anew
  POST /drain   accepts nobody any more; the program ends once those inside, or waiting to be
                accepted, are served. With ?after-ms=N /health says so at once, and clients are
                accepted for N milliseconds more

At its end `serve` writes its counters to standard output, in one line:
`admitted A bypassed B full F backlog G waiting W promoted P timed-out T success S ignored I
dropped D`. SIGTERM, SIGINT, SIGHUP and SIGUSR1 end it at once, without counters; `admission-run`
starts it so that these drain it, and so does the end of admission-run itself.

Exits with status 0 once all workers have ended, with 2 for a wrong command line, and otherwise with
1 and one line on standard error:

  admission: config: ..    the file can't be read or isn't right: see `admission check --help`
  admission: exchanges: E are wanted
                           the configuration needs E exchanges at once: give so many, or lower the
                           limit, the shares, `backlog` or `places`
  admission: descriptors: W are wanted, G are given
                           the exchanges at once want more open files than the system gives: raise
                           `ulimit -n`, or take fewer exchanges
  admission: listen        the address can't be bound: another program has it, it isn't one of this
                           machine's, or its port is below 1024, which needs more rights
  admission: memory        out of memory, also for the stacks of all threads, as the log then says:
                           lower the workers, the limit, `backlog`, `keep` or `ulimit -s`
  admission: thread        a thread can't be started, and those that were have ended: take fewer
                           workers, or raise the system's limit on threads
  admission: miscounted    the gate's counters tell of calls that no worker made: never seen, and to
                           be reported
  admission: write         standard output can't be written: a full disk, a closed pipe"
);
