//! The helper's lines.
ghost use Rattle.std.specs.Prelude.{◌≤◌, vec_len};

use crate::helper::HelperOutput;
use std::sync::Wait;

/// How many bytes a read asks for.
const PIECE: usize = 4_096;

/// The longest line, without its LF. A longer one is ignored.
const LONGEST: usize = 4_095;

/// What the helper says, line by line.
#[derive(Drop)]
pub(crate) struct Lines<H> {
    from: H,
    /// The bytes of the last read. Those between `at` and `end` weren't taken yet.
    piece: [u8; PIECE],
    at: usize,
    end: usize,
}

impl<H: HelperOutput> Lines<H> {
    /// The lines of this helper, none of which was read.
    pub(crate) fn new(from: H) -> Lines<H> {
        Lines {
            from,
            piece: [0; PIECE],
            at: 0,
            end: 0,
        }
    }

    /// The next byte; `None` if no more will come.
    fn next_byte(&mut self) -> Option<u8> {
        if self.at >= self.end {
            self.at = 0;
            self.end = self.from.read(&mut self.piece);
        }
        if self.at >= self.end {
            return None;
        }
        let byte = self.piece.get(self.at).copied();
        self.at += 1;
        byte
    }

    /// Reads the next line, without its LF, and returns whether there is one. Lines of more than
    /// 4,095 bytes, lines for which memory is refused, and bytes after the last LF are left out.
    pub(crate) fn read_line<W: Wait>(&mut self, wait: &W, line: &mut Vec<u8>) -> bool
        ensures { vec_len line.new ≤ 4095 }
    {
        line.clear();
        let mut is_whole = true;
        for _ in wait.forever() {
            let Some(byte) = self.next_byte() else {
                return false;
            };
            if byte == b'\n' {
                if is_whole {
                    return true;
                }
                line.clear();
                is_whole = true;
            } else {
                is_whole = is_whole && take(line, byte);
            }
        }
        unreachable!()
    }
}

/// Appends a byte to the line, and returns whether there was room for it.
fn take(line: &mut Vec<u8>, byte: u8) -> bool
    requires { vec_len line.old ≤ 4095 }
    ensures { vec_len line.new ≤ 4095 }
{
    line.len() < LONGEST && line.push(byte).is_ok()
}
