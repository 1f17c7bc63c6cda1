// The help of `load`.
use crate::options::{option_row, option_rows};

pub(crate) const LOAD_ABOUT: &str =
    "Makes the calls of a trace by threads at one gate, and audits what they were told";

/// Texts with the ranges and defaults of options between them.
macro_rules! with_ranges {
    (
        [$($before:literal,)* in $behind:literal]
        $(
            $name:ident $word:literal $value_name:literal
                [$least:literal to $most:literal; default $default:literal]
                listed $($listed:literal)* $(told $($told:literal)*)?;
        )*
    ) => {
        concat!(
            $(
                $before,
                stringify!($least),
                " to ",
                stringify!($most),
                "; default ",
                stringify!($default),
            )*
            $behind
        )
    };
}

pub(crate) const LOAD_HELP: &str = option_rows!(
    [Limit Workers] with_ranges,
    "\
Reads a trace from standard input, whole and at most 16 MiB, before the first call. Its lines are
those of `admission simulate --help`, its settings those of `admission replay --help`.

Arrival number i, from 0 and with the bypass lines counted, is made by worker i mod W, and each
worker makes its own in their order. A call asks at its AT; where it gets a permit, it ends it at
once, with the moment at which it started plus its DURATION. With `wait` it waits where there is no
permit, for the timeout of the trace by the machine's own clock, until another worker's ending
promotes it. Which worker comes first depends on the machine: where calls are refused or wait, two
runs may end differently.

  --limit N      the fixed limit of a trace without a limit line, permits, ",
    "
  --workers W    threads that make the calls, ",
    in "
  --explain      says more after a line's fault

At the end all that the workers were told is compared with the gate's history: each call stands in
it once, in its worker's order, and each ending ends a permit that was handed out. Then two lines
are written: how many calls the history holds, and what they were answered.

For example, `admission load --workers 2 < trace` answers the trace

  limit fixed 10
  arrive unknown 0 10 success
  arrive unknown 0 10 success
  arrive unknown 0 10 success
  arrive unknown 0 10 success

by two lines, of which the second is cut here:

  audit ok calls 8
  admitted 4 bypassed 0 full 0 backlog 0 waiting 0 promoted 0 timed-out 0
      success 4 ignored 0 dropped 0

Once K entries are kept, further calls are refused and stand in no count, unless the history rolls;
then it can't be audited.

Exits with status 0 once both lines are written, with 2 for a wrong command line, and otherwise with
1 and one line on standard error. Nothing is written before it, unless a disk fills or a pipe
closes:

  admission: line L: words   no such line: a word too many, too few or misspelt, a number with a
                             sign, a point or a unit, a line of a script
  admission: line L: late    a setting after another line
  admission: line L: twice   a second limit, window, backlog, keep, timeout or promote, or places
                             for a class that has some
  admission: line L: value   a number out of its range, N outside LO to HI, MIN above MAX, a class
                             given twice, a fifth class, shares above the whole together, or
                             more than 10000 places
  admission: line L: class   no class or share line has this name, or none before of places
  admission: read            standard input can't be read, such as a folder, or doesn't end
  admission: too large       the trace has more than 16 MiB
  admission: memory          out of memory: lower K, or the memory that other programs take
  admission: thread          a thread can't be started: take fewer workers, or raise the system's
                             limit on threads
  admission: audit: rolled   the history forgot entries: leave `rolling` out, or raise K
  admission: audit: memory   out of memory during the audit
  admission: audit: passes missing, strange, order, uncovered, unmatched
                             the gate contradicts what it told: a bug of this program, please report
                             the trace
  admission: write           standard output can't be written: a full disk, a closed pipe

With --explain a line more follows that of a line at fault, as `simulate` has it."
);
