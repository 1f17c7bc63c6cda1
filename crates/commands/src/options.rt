// The options that take a value: the one table of their words, ranges and defaults.
//
// A row has
//
// - the option's name here, its word, and what help calls its value;
// - what it takes: `[0 to 9; default 5]` is a number, `[0 to 9]` one that may be left out, as a
//   `[loopback address]` and an `[address]` may, and `[log lines; default plain]` a form of them;
//   a `[flag]` takes nothing, and its value has no name;
// - `listed`, its line in the list of options: what stands there before its range, and behind it;
// - `told`, its lines in the text behind that list, from the blanks behind its value's name on:
//   what stands there before its range, between that and its default where it has one, and behind.

/// The row of an option, for the macro of the path in brackets, which takes it behind the tokens
/// given.
macro_rules! option_row {
    (Limit [$($row:tt)*] $($given:tt)*) => { $($row)*! { $($given)*
        Limit "limit" "N" [1 to 10000; default 20]
            listed "The limit of a text without a limit line, " " permits";
    } };
    (Workers [$($row:tt)*] $($given:tt)*) => { $($row)*! { $($given)*
        Workers "workers" "W" [1 to 64; default 4]
            listed "How many threads work, " ""
            told "             threads that serve, " "; " ". Each serves one request at a
                          time, from its first byte to the last of its answer, also while it waits
                          for a permit: at most W requests are in flight or wait. Use 64 unless the
                          limit is small";
    } };
    (Exchanges [$($row:tt)*] $($given:tt)*) => { $($row)*! { $($given)*
        Exchanges "exchanges" "N" [1 to 4096]
            listed "Exchanges at once, one thread each, " "; without it --workers"
            told "           exchanges at once, " ", one thread for each. Use it in place of
                          --workers: both together are an error, and without it --workers applies.
                          The limit, the shares and the backlog must fit into N, and omitted ones
                          are derived from N: see `admission check --help`";
    } };
    (PerWorker [$($row:tt)*] $($given:tt)*) => { $($row)*! { $($given)*
        PerWorker "per-worker" "M" [1 to 1000000000; default 1000000000]
            listed "Exchanges of each worker, " ""
            told "          exchanges that each worker carries out before it ends, " ";
                          " ". The program ends once all workers have";
    } };
    (ClientTimeoutMs [$($row:tt)*] $($given:tt)*) => { $($row)*! { $($given)*
        ClientTimeoutMs "client-timeout-ms" "T" [1 to 3600000; default 10000]
            listed "Milliseconds that a client may take, " ""
            told "   milliseconds that a client may take, " "; " ": for its
                          whole request, and again to take its whole answer. A slower client is cut
                          off, and its permit is ended";
    } };
    (HeadTimeoutMs [$($row:tt)*] $($given:tt)*) => { $($row)*! { $($given)*
        HeadTimeoutMs "head-timeout-ms" "T" [1 to 3600000; default 1000]
            listed "Milliseconds for the head of a request, " ""
            told "     milliseconds that a client may hold a worker before its head is whole,
                          where no other one is free, " "; " ". It isn't longer
                          than --client-timeout-ms";
    } };
    (BodyRate [$($row:tt)*] $($given:tt)*) => { $($row)*! { $($given)*
        BodyRate "body-rate" "BYTES" [0 to 1000000000]
            listed "Least bytes per second of a body, " "; 0 sets none"
            told "       least bytes per second at which the body of a request has to arrive,
                          " "; without it 500 with --exchanges, and otherwise 0,
                          which sets no rate. While three quarters of the threads read requests,
                          clients below it are closed, those that are furthest behind first";
    } };
    (BackendTimeoutMs [$($row:tt)*] $($given:tt)*) => { $($row)*! { $($given)*
        BackendTimeoutMs "backend-timeout-ms" "T" [1 to 3600000]
            listed "Milliseconds for the backend, " "; without it no limit"
            told "  milliseconds that the backend may take from the connect to the end of its
                          answer, " "; without it there is no limit. Past it the client is
                          answered 504";
    } };
    (ReportSeconds [$($row:tt)*] $($given:tt)*) => { $($row)*! { $($given)*
        ReportSeconds "report-seconds" "N" [1 to 3600]
            listed "Seconds between two lines of the report, " "; without it none"
            told "      seconds between two lines of the report in the log, " "; without it
                          there are none";
    } };
    (Admin [$($row:tt)*] $($given:tt)*) => { $($row)*! { $($given)*
        Admin "admin" "ADDRESS" [loopback address]
            listed "The operator's address, such as 127.0.0.1:9901; without it none"
            told "         a loopback address of IPv4 with a port, such as 127.0.0.1:9901, at which
                          the operator of this machine sees the state and changes it; without it
                          there is none";
    } };
    (Status [$($row:tt)*] $($given:tt)*) => { $($row)*! { $($given)*
        Status "status" "ADDRESS" [address]
            listed "An address for health and metrics alone; without it none"
            told "        an address of IPv4 with a port, such as 0.0.0.0:9902, at which GET /health
                          and GET /metrics are answered, and nothing changes; without it there is
                          none";
    } };
    (LogLines [$($row:tt)*] $($given:tt)*) => { $($row)*! { $($given)*
        LogLines "log-lines" "FORM" [log lines; default plain]
            listed "How lines of the log begin: plain, time or journal"
            told "        how each line of the log begins; " ": with its level. With time
                          it begins with the time in UTC, and with journal with the priority that
                          systemd reads";
    } };
    (Mark [$($row:tt)*] $($given:tt)*) => { $($row)*! { $($given)*
        Mark "mark" "" [flag]
            listed "Tells in the gateway's own answers why; without it they don't"
            told "                  gives each of the gateway's own answers the line X-Admission
                          with the reason in a word, full, backlog, waited, unreached, broken, late,
                          unread, bodies, memory, lost or exhausted; without it they have no such
                          line";
    } };
    (Parent [$($row:tt)*] $($given:tt)*) => { $($row)*! { $($given)*
        Parent "parent" "PID" [1 to 4194304]
            listed "The process to drain with, by its id, " "; without it none"
            told "            the id of the process that starts this one, " "; without it
                          the gateway outlives that. Once it has ended, the gateway drains; it looks
                          each second. admission-run gives it, so that killing admission-run leaves
                          no gateway behind";
    } };
}

/// The rows of some options, for a macro that takes them behind the tokens given.
macro_rules! option_rows {
    ([$($name:ident)*] $rows:ident $(, $($given:tt)*)?) => {
        option_rows! { @ $rows [$($($given)*)?] $($name)* }
    };
    // Each row goes behind those before it.
    (@ $rows:ident $given:tt $first:ident $($name:ident)*) => {
        option_row! { $first $([option_row] $name)* [$rows] $given }
    };
}

/// Those of `serve` in the order of its help.
macro_rules! serve_rows {
    ($($rows:tt)*) => {
        option_rows! {
            [
                Workers
                Exchanges
                PerWorker
                ClientTimeoutMs
                HeadTimeoutMs
                BodyRate
                BackendTimeoutMs
                ReportSeconds
                Admin
                Status
                LogLines
                Mark
                Parent
            ]
            $($rows)*
        }
    };
}

/// How many these are.
pub(crate) const SERVE_OPTIONS: usize = 13;

/// The value of an option, by its row. The caller has the functions that read in scope.
macro_rules! read {
    ($matches:ident, $name:ident) => {
        option_row! { $name [read_by_row] $matches }
    };
}

/// The same by the row.
macro_rules! read_by_row {
    (
        $matches:ident $name:ident $word:literal $value_name:literal
            [$least:literal to $most:literal; default $default:literal] $($texts:tt)*
    ) => {
        number($matches, $word, $least, $most)
    };
    (
        $matches:ident $name:ident $word:literal $value_name:literal
            [$least:literal to $most:literal] $($texts:tt)*
    ) => {
        optional_number($matches, $word, $least, $most)
    };
    (
        $matches:ident $name:ident $word:literal $value_name:literal
            [loopback address] $($texts:tt)*
    ) => {
        optional_loopback($matches, $word)
    };
    (
        $matches:ident $name:ident $word:literal $value_name:literal
            [address] $($texts:tt)*
    ) => {
        optional_address($matches, $word)
    };
    (
        $matches:ident $name:ident $word:literal $value_name:literal
            [log lines; default $form:ident] $($texts:tt)*
    ) => {
        log_lines($matches, $word)
    };
    ($matches:ident $name:ident $word:literal $value_name:literal [flag] $($texts:tt)*) => {
        is_set($matches, $word)
    };
}

pub(crate) use option_row;
pub(crate) use option_rows;
pub(crate) use read;
pub(crate) use read_by_row;
pub(crate) use serve_rows;
