//! Converts bytes to items and back, a block at a time.
ghost use Rattle.std.specs.Prelude.{◌≡◌, ◌<◌, ◌≤◌, length, take, map, All};
ghost use Rattle.stream_threads.specs.Items.{byte_of};

/// Converts bytes to items.
pub fn widen(bytes: &[u8], items: &mut [u16])
    requires { length items.old ≡ length bytes.now }
    ensures same { items.new ≡ bytes.now }
    ensures small { All (λ b. b < 256) bytes.now }
{
    for i in 0..bytes.len() {
        items[i] = u16::from(bytes[i]);
    }
}

/// Converts items to bytes. A mark becomes its low byte, which no caller reads.
pub fn narrow(items: &[u16], bytes: &mut [u8])
    requires { length bytes.old ≡ length items.now }
    ensures { bytes.new ≡ map byte_of items.now }
{
    for i in 0..items.len() {
        bytes[i] = (items[i] & 255) as u8;
    }
}
