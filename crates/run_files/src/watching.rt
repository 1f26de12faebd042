//! Openings that are reported on standard error if they take long.
ghost use Rattle.std.specs.Prelude.{◌≡◌, IfErr, IfOk, IfSome, None, Ok, false, string_bytes};
ghost use Rattle.run_files.specs.internal.Watching.{unopened_line};

use crate::files::{Machine, OpenFault};
use lrup_text::{Sink, write_all};
use std::alloc::{AllocError, Global};
use std::sync::Wait;
use std::sync::atomic::{AtomicU64, Ordering};
use std::thread::{Threads, join_mut};
use std::time::Duration;

/// After how many tenths of a second an opening is reported.
const TENTHS: u64 = 10;

/// Opens the file at a path as `open` of `Files` does. If `watch` is set, the opening is reported
/// to a watcher once it has taken a second.
pub(crate) fn open_watched<T: Threads + Wait + Sync, F: Machine>(
    threads: &T,
    alloc: Global,
    watch: bool,
    files: &mut F,
    path: &str,
) -> Result<F::Input, OpenFault>
    ensures left { IfOk result (λ input.
        F.Input.Source.left input ≡ F.contents files.old path.now) }
    ensures running { IfOk result (λ input. F.Input.Source.has_failed input ≡ false) }
    ensures opens { IfOk result (λ input. F.opens files.old path.now input files.new) }
    ensures refuses { IfErr result (λ fault. F.refuses files.old path.now fault files.new) }
    ensures stays { F.contents files.new ≡ F.contents files.old }
{
    if !watch {
        return files.open(path);
    }
    let watcher = files.watcher();
    while_reporting(threads, alloc, watcher, path, &mut || files.open(path))
}

/// Opens the file at a path, if there is one, as `open_if_there` of `Machine` does. It reports as
/// `open_watched` does.
pub(crate) fn open_watched_if_there<T: Threads + Wait + Sync, F: Machine>(
    threads: &T,
    alloc: Global,
    watch: bool,
    files: &mut F,
    path: &str,
) -> Result<Option<F::Input>, OpenFault>
    ensures left { IfOk result (λ found. IfSome found (λ input.
        F.Input.Source.left input ≡ F.contents files.old path.now)) }
    ensures running { IfOk result (λ found. IfSome found (λ input.
        F.Input.Source.has_failed input ≡ false)) }
    ensures opens { IfOk result (λ found. IfSome found (λ input.
        F.opens files.old path.now input files.new)) }
    ensures lacks { result ≡ Ok None → F.lacks files.old path.now files.new }
    ensures fails { IfErr result (λ fault. F.fails files.old path.now fault files.new) }
    ensures stays { F.contents files.new ≡ F.contents files.old }
{
    if !watch {
        return files.open_if_there(path);
    }
    let watcher = files.watcher();
    while_reporting(
        threads,
        alloc,
        watcher,
        path,
        &mut || files.open_if_there(path),
    )
}

/// Calls `opening`, which opens the file at `path`. Meanwhile another thread reports the opening if
/// it takes a second. If that thread isn't started, nothing is reported.
fn while_reporting<T: Threads + Wait + Sync, S: Sink + Send + Drop, O, G: FnMut() -> O>(
    threads: &T,
    alloc: Global,
    mut watcher: S,
    path: &str,
    opening: &mut G,
) -> O
    requires { G.IsAlwaysCallable opening.old }
    ensures { G.step opening.old result opening.new }
{
    let finished = AtomicU64::new(0);
    let (_, opened) = join_mut(
        threads,
        &mut || report_unopened(threads, alloc, &finished, path, &mut watcher),
        &mut || {
            let opened = opening();
            finished.store(1, Ordering::SeqCst);
            finished.wake_all();
            opened
        },
    );
    opened
}

/// Reports an opening that isn't finished after a second. `finished` becomes 1 when the opening
/// ends.
fn report_unopened<W: Wait, S: Sink>(
    wait: &W,
    alloc: Global,
    finished: &AtomicU64,
    path: &str,
    watcher: &mut S,
) {
    for _tenth in 0..TENTHS {
        finished.park_timeout(wait, 0, Duration::from_millis(100));
        if finished.load(Ordering::SeqCst) == 1 {
            return;
        }
    }
    if watcher.failed() {
        return;
    }
    if let Ok(line) = unopened_line(alloc, path) {
        let _ = write_all(line.as_bytes(), watcher);
    }
}

/// The line for a file that isn't open after a second.
fn unopened_line(alloc: Global, path: &str) -> Result<String, AllocError>
    ensures { IfOk result (λ line. string_bytes line ≡ unopened_line path.now) }
{
    format!(in alloc; "lrupd: {path}: waits for a writer\n")
}
