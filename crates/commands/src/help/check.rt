// The help of `check`.
use config_words::key_rows;

pub(crate) const CHECK_ABOUT: &str =
    "Says whether a configuration is right, before anything is served";

/// A text, the lines of the keys, and the text behind them.
macro_rules! with_lines {
    (
        [$before:literal, $behind:literal]
        $(
            $key:ident $start:literal $held:literal $([$($range:tt)*])?
                $(help $help:literal)? $(explained $explained:literal)?;
        )*
    ) => {
        concat!(
            $before,
            $($start, $held, $(stringify!($($range)*),)? $($help,)? "\n",)*
            $behind
        )
    };
}

pub(crate) const CHECK_HELP: &str = key_rows!(
    with_lines,
    "\
Reads the file CONFIG, TOML text of at most 1 MiB, and serves nothing. - as CONFIG reads standard
input; a file of that name is ./-.

With --explain standard output first gets more, for a person. Of a fault: the line where it is, of
a class, resolver or bypass which of them, and what the key holds, its range and its default. Of a
configuration without fault: how many callers may be inside together, and so how many workers it
wants, what has no effect, which routes match nothing but themselves, and which connections aren't
kept.

With --exchanges N the configuration must fit into N exchanges at once, as `admission serve
--exchanges N` requires: the greatest limit with what the shares add, the backlog with the places of
the classes, and one more. Omitted keys are derived from N:

- `backlog` becomes N / 4, at most 100. With `wait = false` the backlog counts as 0.
- `max` of aimd, vegas and auto becomes what is left, and a greater `max` of auto is lowered to it.
- `initial` is lowered to `max`. A `min` above `max` doesn't fit.

The line on standard output then ends with ` exchanges N max M`, where M is the greatest limit.

A small configuration, for 64 workers, is

  version = 2
  listen = \"127.0.0.1:8080\"    # where requests come in
  backend = \"127.0.0.1:9000\"   # where they go to
  backlog = 10                 # callers that may wait

  [limit]
  kind = \"fixed\"               # or another of those below
  initial = 40                 # requests at the backend at once

The keys, with unit, range and default. An omitted key takes its default, or the nearer end of its
range if an earlier key leaves the default outside.

Before the tables:
",
    "
The packaged configuration is

  version = 2
  listen = \"127.0.0.1:8080\"
  backend = \"127.0.0.1:9000\"
  backlog = 10
  clients = 1_000              # client connections are kept between requests
  backends = 64                # and connections to the backend

  [limit]
  kind = \"auto\"                # up to what the workers leave over; no [window] beside it

With a table of each kind:

  version = 2
  listen = \"127.0.0.1:8080\"
  backend = \"127.0.0.1:9000\"
  backlog = 10

  [limit]
  kind = \"vegas\"
  min = 3
  max = 32
  initial = 6
  alpha = 2
  beta = 8
  probe_every = 3_000

  [window]
  size = 3
  min_us = 50_000
  max_us = 2_000_000
  min_rtt_us = 3_000

  [[class]]
  name = \"live\"
  share = 600

  [[resolver]]
  kind = \"route\"
  routes = { \"/live/{*rest}\" = \"live\" }

  [[bypass]]
  kind = \"prefix\"
  prefix = \"/health\"

Writes `ok KIND INITIAL classes N resolvers R bypass B backlog Q` and exits with status 0; exits
with 2 for a wrong command line, and otherwise with 1 and one line on standard error, which names
the first key at fault:

  admission: config: read         no such file, no permission, a folder, or more than 1 MiB;
                                  the next line has the path and the reason
  admission: config: toml         not TOML in UTF-8: a number with a unit, such as 5s, a text
                                  without quotes or with typographic ones, a key given twice
  admission: config: version      version is missing or isn't the whole number 1 or 2
  admission: config: missing KEY  a required key isn't there, or stands in another table
  admission: config: kind KEY     a text where a number is wanted, [class] in place of [[class]]
  admission: config: value KEY    out of the key's range, or a class that isn't there or is there
                                  twice
  admission: config: unknown KEY  misspelt, in the wrong table, of another version, or of another
                                  kind of limit, resolver or rule
  admission: config: route        a pattern that can't be read, or two that can't stand together
  admission: config: memory       out of memory: lower the memory that other programs take
  admission: exchanges: E are wanted
                                  the configuration needs E exchanges at once: give so many, or
                                  lower the limit, the shares, `backlog` or `places`
  admission: write                standard output can't be written: a full disk, a closed pipe"
);
