//! A source and a sink over a device, as the program makes them from its files and outputs: they
//! never repeat a call.
ghost use Rattle.std.specs.Prelude.{◌≤◌, IfOk};

use super::*;
use lrup_text::{ReadFault, Reading, Sink, Source, WriteFault, Writing};
use std::io;

/// A device whose first call moves at most this many bytes, or fails; later calls move as many as
/// they can.
#[derive(Drop)]
struct Device {
    first: Result<usize, io::ErrorKind>,
    calls: usize,
}

impl Device {
    fn call(&mut self, bytes: usize) -> io::Result<usize>
        ensures { IfOk result (λ count. count ≤ bytes) }
    {
        self.calls = self.calls.saturating_add(1);
        if self.calls > 1 {
            return Ok(bytes);
        }
        match self.first {
            Ok(most) => Ok(bytes.min(most)),
            Err(kind) => Err(io::Error::from(kind)),
        }
    }
}

impl io::Read for Device {
    fn read(&mut self, buffer: &mut [u8]) -> io::Result<usize> {
        self.call(buffer.len())
    }
}

impl io::Write for Device {
    fn write(&mut self, bytes: &[u8]) -> io::Result<usize> {
        self.call(bytes.len())
    }

    fn flush(&mut self) -> io::Result<()> {
        Ok(())
    }
}

/// Checks the result of a read and of a write of `count` bytes, and that each made one call.
fn assert_once(
    rt: &impl Host,
    first: Result<usize, io::ErrorKind>,
    size: usize,
    read: Result<usize, ReadFault>,
    written: Result<usize, WriteFault>,
) -> Result<(), Fail> {
    let mut bytes = vec![in rt.alloc(); b'1'; size]?;
    let mut source = Reading::new(Device { first, calls: 0 });
    let mut sink = Writing::new(Device { first, calls: 0 });
    let found = (source.read(&mut bytes), sink.write(&bytes));
    let failed = (source.failed(), sink.failed());
    let calls = (source.into_inner().calls, sink.into_inner().calls);
    same(rt, (size, found), (size, (read, written)));
    same(
        rt,
        (failed, calls),
        ((read.is_err(), written.is_err()), (1, 1)),
    );
    Ok(())
}

static SIZES: [usize; 3] = [1, 2, 65_536];

static KINDS: [io::ErrorKind; 8] = [
    io::ErrorKind::WouldBlock,
    io::ErrorKind::Interrupted,
    io::ErrorKind::TimedOut,
    io::ErrorKind::BrokenPipe,
    io::ErrorKind::WriteZero,
    io::ErrorKind::UnexpectedEof,
    io::ErrorKind::OutOfMemory,
    io::ErrorKind::Other,
];

#[test]
fn devices_that_move_nothing_or_fail(rt: HostRuntime) -> Result<(), Fail> {
    for &size in &SIZES {
        assert_once(&rt, Ok(size), size, Ok(size), Ok(size))?;
        assert_once(&rt, Ok(0), size, Ok(0), Err(WriteFault))?;
        for &kind in &KINDS {
            assert_once(&rt, Err(kind), size, Err(ReadFault), Err(WriteFault))?;
        }
    }
    Ok(())
}
