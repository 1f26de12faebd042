//! If a run is refused memory or a thread, it still closes each file that it created.
use super::shelf::Thing::{self, Text};
use super::*;

/// The option, the stream, the files of round 2, and the status: the formula is refuted or not, in
/// the only round or in the second.
static ENDING: [(&str, &str, &[(&str, Thing)], u8); 4] = [
    ("--checkpoint=ck", DROPS, &[], 3),
    ("--checkpoint=ck", REFUTES, &[], 0),
    ("--rounds=d", ADDS, &[("d/round-2.stream-1", Text(""))], 3),
    (
        "--rounds=d",
        ADDS,
        &[("d/round-2.stream-1", Text("6 0 5 3 4 0\n"))],
        0,
    ),
];

/// Whether these are complete texts of formulas, one after the other. If a stream has no memory for
/// what it drops, it stops, and the first clause is saved, too.
fn are_whole(kept: &str) -> bool {
    let rest = kept.strip_prefix(LESS).unwrap_or(kept);
    let rest = rest.strip_prefix(ALL).unwrap_or(rest);
    rest.strip_prefix(ALL).unwrap_or(rest).is_empty()
}

/// Whether the last effect has this sign.
fn is_last(done: &str, sign: &str) -> bool {
    match done.rsplit_once(sign) {
        None => false,
        Some((_, rest)) => rest.matches(" ").count() == 1,
    }
}

/// Whether a run that would have had this status may end in this way after one allocation or thread
/// was refused. A file was discarded if the formula was refuted or a checkpoint couldn't be saved;
/// no file was discarded if a report says 'unknown' and everything was saved.
fn may_end(ran: &Ran, in_rounds: bool, status: u8) -> bool {
    let (found, out, err) = ran.ends();
    let (done, kept, _) = ran.left();
    let is_discarded = is_last(done, " -");
    let is_unsaved = is_discarded || is_last(done, " =");
    let is_right = match found {
        0 => status == 0 && is_discarded && err.is_empty(),
        3 => !done.contains(" -") && err.is_empty(),
        6 => out.is_empty() && (kept.is_empty() || in_rounds),
        7 => is_discarded == (status == 0),
        9 => is_unsaved && err.contains("checkpoint not written"),
        _ => false,
    };
    // Discarding a file is the last effect.
    is_right && are_whole(kept) && is_discarded == done.contains(" -")
}

/// `make sweep` refuses each allocation and each thread of this test in turn.
#[test]
fn memory_that_runs_out(rt: HostRuntime) {
    for way in &WAYS {
        for &(option, stream, things, status) in &ENDING {
            let streams = [stream];
            let setup = Setup::of(&streams).with(things);
            let ran = run(&rt, &rt, &[way, option, "f", "1"], setup);
            let may_end = may_end(&ran, option == "--rounds=d", status);
            let found = (may_end, ran.files.unclosed);
            let ends = (option, ran.ends(), ran.files.done.as_str());
            same(&rt, (ends, found), (ends, (true, 0)));
        }
    }
}
