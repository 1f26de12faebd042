//! The texts of `--help` for the program and its arguments, and of `--version`.

/// The program's version, the same as in the file VERSION.
pub const VERSION: &str = "1.1.0";

/// What the program does.
pub const PROGRAM: &str = "\
Checks the proofs of SAT solvers that share their clauses, while the solvers
write them. The answer is 's UNSATISFIABLE' only if a checked line derived the
empty clause.";

/// The help for FORMULA.
pub const FORMULA: &str = "The formula, a file in DIMACS CNF.";

/// The help for STREAM.
pub const STREAM: &str = "\
The proofs, 1 to 64 files or pipes, one from each solver, in LRAT text
without RAT steps: a line 'id literals 0 hints 0' derives a clause; a
line 'number d ids 0' deletes clauses, and its first number means
nothing; a line 'id i literals 0' says that a clause of another stream
or of the formula was taken over. With M clauses in the formula and N
streams, the first stream derives the clauses M+1, M+1+N, M+1+2N and so
on, the second M+2, M+2+N and so on, each in rising order.";

/// The help for `--tries`.
pub const TRIES: &str = "\
How often a hint is looked up again while another stream hasn't
derived its clause yet, each time after a microsecond.
0 to 1,000,000, default 1,000. Raise it to 1000000 for streams that
cite each other, or if a report says 'missing'.";

/// The help for `--lines`.
pub const LINES: &str = "\
How many ids each stream has. Each takes 8 bytes, 12 with --serial.
0 to 268,435,456, default 65,536. Raise it for streams that derive more
clauses or leave gaps, or if a report says 'identity'.";

/// The help for `--room`.
pub const ROOM: &str = "\
How many literals all clauses that a stream derives may have together,
deleted clauses included. Each takes 8 bytes in each stream, 4 with
--serial. 0 to 268,435,456, default 1,048,576. Raise it for streams with
more or longer clauses, or if a report says 'no room'.";

/// The help for `--assume`.
pub const ASSUME: &str = "\
A file of assumed literals, in one line that ends with 0: '-2 5 0'. If a
checked line derived a clause whose literals are all false under these
assumptions, and no line derived the empty clause, the answer is
's UNSATISFIABLE UNDER ASSUMPTIONS'.";

/// The help for `--checkpoint`.
pub const CHECKPOINT: &str = "\
Save the clauses that are live at the end as a formula in FILE, which must
not exist yet. A later run can take FILE as its FORMULA, and go on. With
the answer 's UNSATISFIABLE' nothing is saved, and FILE stays empty.";

/// The help for `--rounds`.
pub const ROUNDS: &str = "\
Continue in rounds. Round 1 checks STREAM... over FORMULA. Then the clauses
that are live are saved, as by --checkpoint, in DIR/round-2.cnf. If all
streams ended and the answer is 's UNKNOWN', round 2 checks the streams
DIR/round-2.stream-1, -2 and so on over these clauses. DIR/round-2.sizes, if
it exists, has the number of these streams, and the round's --lines and
--room: '4 65536 1048576'. The files of round 3 have a 3 in their names, and
so on. The run ends when the next round has no stream 1. Excludes
--checkpoint.";

/// The help for `--serial`.
pub const SERIAL: &str = "\
Check all streams on one thread, one line of each stream in turn. Two runs
over the same bytes, with the same options and assumptions, then have the
same report, unless memory runs out or a read fails. Without this option
each stream has a thread that reads and a thread that checks.";

/// The help for `--watch`.
pub const WATCH: &str = "\
Report progress on standard error: when a stream ends, its result; when it
has waited for another stream's clause for a second, the clause's id; every
ten seconds, how many clauses each stream has added; and which pipe has no
writer after a second. With --serial no stream waits for a clause.";

/// The text after the options.
pub const EXAMPLE: &str = "\
The clauses and literals of the formula, the ids and the room of all streams
are at most 268,435,455 together.

Example:
  lrupd --tries 1000000 --lines 4000000 --room 60000000 big.cnf one.lrup two.lrup";
