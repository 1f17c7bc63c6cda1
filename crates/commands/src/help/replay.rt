// The help of `replay`.

pub(crate) const REPLAY_ABOUT: &str = "Answers a script of acquires and endings, line by line";

pub(crate) const REPLAY_HELP: &str = "\
Reads a script from standard input and writes one line for each decision. The script is read whole,
at most 16 MiB, before the first answer: lines that are typed are answered at the end of the input.
Numbers are decimal without sign or unit, and times are nanoseconds (one hour: 3600000000000).

Settings, before any other line, with 1 <= LO <= N <= HI <= 10000 permits. Without a limit line the
limit is fixed at the N of --limit.

  limit fixed N                a limit that never changes
  limit settable LO N HI       a limit that `set` changes, from LO to HI
  limit aimd LO N HI RATIO TIMEOUT
                               one more for a good sample, RATIO thousandths (500 to 999) of it
                               after a drop or a round trip above TIMEOUT (1 ns to one hour)
  limit vegas LO N HI ALPHA BETA PROBE
                               rises while the queue is below ALPHA permits (1 to 100), falls above
                               BETA (ALPHA to 100), and measures the least round trip anew after
                               PROBE samples (0 to 1000000; 0: never)
  limit auto LO N HI           finds itself, by the time of answers and how many are in flight
  window SIZE MIN MAX MINRTT   the limit learns from windows of at least SIZE samples (1 to 1000000)
                               that last MIN to MAX (1 ns to one hour, MIN at most MAX); round trips
                               below MINRTT (0 to one hour) are left out. Without this line it
                               learns from each sample
  share NAME THOUSANDTHS       a class and its share of the limit: 1 to 32 of a-z 0-9 - _ and not
                               unknown, at most four; 1 to 1000 thousandths, together at most 1000
  class NAME PERCENT           the same in percent, 1 to 100; both kinds of lines may stand together
  places NAME N                so many places of the backlog are this class's own, 0 to 10000; the
                               class stands before, and has none yet
  backlog N                    how many may wait beside those of their own places, 0 to 10000;
                               default 100; with all own places at most 10000
  keep K                       how many entries of the history are kept, 1 to 1000000; default
                               100000
  keep K rolling               the same of a history that rolls: it forgets entries to go on
  promote newest               who gets the room that falls free: after an ending the newest waiter,
                               if it has room, and nobody else; the default
  promote all                  after an ending, an accepted set and a reset the newest of those that
                               have room, again and again until none has
  timeout T                    accepted and ignored: it is a setting of `simulate`

Then, with every NOW in nanoseconds:

  acquire CLASS NOW        asks for a permit; CLASS is a name above, or unknown
  acquire CLASS NOW wait   the same, and waits where there is none
  bypass NOW               lets a call through, neither limited nor counted
  end N OUTCOME NOW        ends the permit of acquire number N: success, ignored or dropped;
                           the newest waiter gets a permit where it then has room
  claim N                  asks for the permit of acquire number N, which waits or was promoted
  giveup N                 ends the wait of acquire number N, or takes its permit if it got one
  set N NOW                sets a settable limit
  reset NOW                puts the algorithm into its first state
  look CLASS               shows the limit, what is in flight, who waits, and the share of the class
  # ..                     a comment; empty lines are skipped too

For example, `admission replay < script` answers the script

  limit fixed 1
  class a 100
  acquire a 0
  acquire a 1 wait
  end 0 success 5
  claim 1

by the lines

  0 admitted a inflight 1
  1 waiting
  2 ended promoted 1
  3 promoted 1 inflight 1
  4 granted inflight 1

An ending of no open permit is answered `- not open`. Once K entries are kept, further events are
answered `- exhausted`, unless the history rolls; what waits may still be given up, and what is open
ended.

Exits with status 0 once all is written, with 2 for a wrong command line, and otherwise with 1 and
one line on standard error, which comes after the answers to the lines before it:

  admission: line L: words   no such line: a word too many, too few or misspelt, a number with a
                             sign, a point or a unit
  admission: line L: late    a setting after another line
  admission: line L: twice   a second limit, window, backlog, keep, timeout or promote, or places
                             for a class that has some
  admission: line L: value   a number out of its range, N outside LO to HI, MIN above MAX, a class
                             given twice, a fifth class, shares above the whole together, or
                             more than 10000 places
  admission: line L: class   no class or share line has this name, or none before of places
  admission: read            standard input can't be read, such as a folder, or doesn't end
  admission: too large       the script has more than 16 MiB
  admission: memory          out of memory: lower the memory that other programs take
  admission: write           standard output can't be written: a full disk, a closed pipe

With --explain a line more follows that of a line at fault, for a person: which of its words is
wrong, counted from 1, and what is wanted there. Of `limit fixed 0` it is

  word 3, \"0\": N, permits, 1 to 10000";
