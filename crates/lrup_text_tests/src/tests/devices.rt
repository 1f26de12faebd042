//! Devices that fail at one of their calls, and sources that end.
ghost use Rattle.std.specs.Prelude.{◌≡◌, ◌++◌, ℕ, List, false, take, IfOk};

use super::same;
use super::writing::write_fails;
use lrup_text::{Line, ReadFault, Reading, Sink, Source, WriteBuffer, WriteFault, Writing};
use std::io;
use std::process::Abort;
use std::test::Fail;

/// A device that moves all bytes it is offered, but fails at call number `fails_at`.
#[derive(Drop)]
struct FailsOnce {
    calls: usize,
    fails_at: usize,
}

impl FailsOnce {
    fn new(fails_at: usize) -> FailsOnce {
        FailsOnce { calls: 0, fails_at }
    }

    fn call(&mut self, bytes: usize) -> io::Result<usize>
        ensures { IfOk result (λ count. count ≡ bytes) }
    {
        self.calls = self.calls.saturating_add(1);
        if self.calls == self.fails_at {
            return Err(io::Error::from(io::ErrorKind::Interrupted));
        }
        Ok(bytes)
    }
}

impl io::Read for FailsOnce {
    fn read(&mut self, buffer: &mut [u8]) -> io::Result<usize> {
        buffer.fill(b'1');
        self.call(buffer.len())
    }
}

impl io::Write for FailsOnce {
    fn write(&mut self, bytes: &[u8]) -> io::Result<usize> {
        self.call(bytes.len())
    }

    fn flush(&mut self) -> io::Result<()> {
        Ok(())
    }
}

/// Reads until the device fails, at call number `fails_at`.
fn read_until_it_fails(rt: &impl Abort, buffer: &mut [u8], fails_at: usize) {
    let mut source = Reading::new(FailsOnce::new(fails_at));
    for call in 1..=8usize {
        if source.failed() {
            break;
        }
        let wanted = if call == fails_at {
            Err(ReadFault)
        } else {
            Ok(buffer.len())
        };
        same(rt, source.read(buffer), wanted);
    }
    let failed = source.failed();
    same(rt, (failed, source.into_inner().calls), (true, fails_at));
}

#[test]
fn failed_reads_are_not_repeated(rt: HostRuntime) -> Result<(), Fail> {
    for size in [8usize, 70_000] {
        let mut buffer = vec![in rt.alloc(); 0u8; size]?;
        for fails_at in 1..=5usize {
            read_until_it_fails(&rt, buffer.as_mut_slice(), fails_at);
        }
    }
    Ok(())
}

/// One read of known bytes. Which bytes it gives follows from the contract of `Reading`.
fn read_once(bytes: &[u8], buffer: &mut [u8]) -> Result<usize, ReadFault>
    ensures { IfOk result (λ count. (rest : List ℕ)
        × (bytes.now ≡ take count buffer.new ++ rest)) }
{
    let mut source = Reading::new(bytes);
    source.read(buffer)
}

#[test]
fn a_read_gives_the_next_bytes(rt: HostRuntime) {
    let mut buffer = [0u8; 4];
    for room in 0..=4usize {
        same(&rt, read_once(b"5 2", &mut buffer[..room]), Ok(room.min(3)));
    }
}

/// How many bytes a source of these bytes gives, four at a time, and whether it failed.
fn read_to_end(bytes: &[u8]) -> (usize, bool) {
    let mut source = Reading::new(bytes);
    let mut count = 0usize;
    let mut buffer = [0; 4];
    for _ in 0..64 {
        if source.failed() {
            break;
        }
        count = count.saturating_add(source.read(&mut buffer).unwrap_or(0));
    }
    (count, source.failed())
}

#[test]
fn bytes_end_without_a_failure(rt: HostRuntime) {
    for end in 0..=25usize {
        same(&rt, read_to_end(&BYTES[..end]), (end, false));
    }
}

/// Writes until the device fails, at call number `fails_at`.
fn write_until_it_fails(rt: &impl Abort, bytes: &[u8], fails_at: usize) {
    let mut sink = Writing::new(FailsOnce::new(fails_at));
    for call in 1..=8usize {
        if sink.failed() {
            break;
        }
        let wanted = if call == fails_at {
            Err(WriteFault)
        } else {
            Ok(bytes.len())
        };
        same(rt, sink.write(bytes), wanted);
    }
    let failed = sink.failed();
    same(rt, (failed, sink.into_inner().calls), (true, fails_at));
}

/// Bytes to write.
static BYTES: [u8; 70_000] = [b'1'; 70_000];

#[test]
fn failed_writes_are_not_repeated(rt: HostRuntime) {
    for size in [8usize, 512, 513, 70_000] {
        for fails_at in 1..=5usize {
            write_until_it_fails(&rt, &BYTES[..size.min(70_000)], fails_at);
        }
    }
}

/// Writes a line, which takes more than 300 calls, to a device that fails at call number
/// `fails_at`.
fn write_long(rt: &impl Abort, line: &Line, fails_at: usize) {
    let mut sink = Writing::new(FailsOnce::new(fails_at));
    let fails = write_fails(line, &mut sink);
    let failed = sink.failed();
    let calls = sink.into_inner().calls;
    let stops = calls > 300 || calls == fails_at;
    let breaks = fails_at > 0;
    same(rt, (fails, failed, stops), (breaks, breaks, true));
}

/// The longest deletion.
static LONGEST: Line = Line::Delete {
    lead: 5,
    ids: &[999_999_999_999_999_999; 65_536],
};

#[test]
fn long_lines_are_written_up_to_a_fault(rt: HostRuntime) {
    for fails_at in [0usize, 1, 2, 3, 300] {
        write_long(&rt, &LONGEST, fails_at);
    }
}

/// Writes these bytes through a buffer, and returns whether the sink failed.
fn put_fails<W: Sink>(bytes: &[u8], sink: &mut W) -> bool
    requires { W.has_failed sink.old ≡ false }
{
    let mut buffer = WriteBuffer::new();
    buffer.put(bytes, sink).is_err() || buffer.flush(sink).is_err()
}

/// More bytes than two buffers hold.
static MANY: [u8; 10_000] = [b'x'; 10_000];

/// Writes `MANY` to a device that fails at call number `fails_at`; if `fails_at` is 0, no call
/// fails.
fn put_many(rt: &impl Abort, fails_at: usize, calls: usize) {
    let mut sink = Writing::new(FailsOnce::new(fails_at));
    let fails = put_fails(&MANY, &mut sink);
    let failed = sink.failed();
    let breaks = fails_at > 0;
    let found = (fails, failed, sink.into_inner().calls);
    same(rt, found, (breaks, breaks, calls));
}

#[test]
fn buffers_write_4096_bytes_at_a_time(rt: HostRuntime) {
    for (fails_at, calls) in [(0usize, 3), (1, 1), (2, 2), (3, 3)] {
        put_many(&rt, fails_at, calls);
    }
}
