// The help of `simulate`.

pub(crate) const SIMULATE_ABOUT: &str =
    "Carries a trace of arrivals out in virtual time, to try settings before they are used";

pub(crate) const SIMULATE_HELP: &str = "\
Reads a trace from standard input and writes one line for each decision. No clock is read and nobody
waits: each arrival comes at its moment, holds its permit for as long as the trace says, and gives
up once it has waited for the timeout. The trace is read whole, at most 16 MiB, before the first
answer. Numbers are decimal without sign or unit, and times are nanoseconds (one hour:
3600000000000).

The settings are those of `admission replay --help`, before any other line, and

  timeout T                    how long an arrival waits, 1 ns to one hour; default 1000000000, one
                               second

Then the arrivals, in any order of their moments:

  arrive CLASS AT DURATION OUTCOME
                           a call of a class comes at AT; where it gets a permit, it ends DURATION
                           later (0 to one hour) with the outcome success, ignored or dropped
  arrive CLASS AT DURATION OUTCOME wait
                           the same, and waits where there is no permit
  bypass AT                a call that is neither limited nor counted
  # ..                     a comment; empty lines are skipped too

What comes first by moment is done first; of one moment, endings come before givings up, these
before arrivals, and of one kind what stands earlier in the trace. Who was promoted by an ending
gets its permit right after it, and of several the first promoted first.

For example, `admission simulate < trace` answers the trace

  limit fixed 1
  class a 100
  timeout 50
  arrive a 0 100 success wait
  arrive a 10 100 success wait
  arrive a 60 5 success wait

by the lines

  0 admitted a inflight 1
  1 waiting
  2 timed out
  3 waiting
  4 ended promoted 1
  5 promoted 3 inflight 1
  6 granted inflight 1
  7 ended promoted 0

Once K entries are kept, further arrivals are answered `- exhausted`, unless the history rolls: put
`keep 1000 rolling` before a long trace.

Exits with status 0 once all is written, with 2 for a wrong command line, and otherwise with 1 and
one line on standard error, which comes after what became of the lines before it:

  admission: line L: words   no such line: a word too many, too few or misspelt, a number with a
                             sign, a point or a unit, a line of a script
  admission: line L: late    a setting after another line
  admission: line L: twice   a second limit, window, backlog, keep, timeout or promote, or places
                             for a class that has some
  admission: line L: value   a number out of its range, N outside LO to HI, MIN above MAX, a class
                             given twice, a fifth class, shares above the whole together, or
                             more than 10000 places
  admission: line L: class   no class or share line has this name, or none before of places
  admission: read            standard input can't be read, such as a folder, or doesn't end
  admission: too large       the trace has more than 16 MiB
  admission: memory          out of memory: lower the memory that other programs take
  admission: write           standard output can't be written: a full disk, a closed pipe

With --explain a line more follows that of a line at fault, for a person: which of its words is
wrong, counted from 1, and what is wanted there. Of `arrive a 0 5 done` it is

  word 5, \"done\": success, ignored or dropped";
