// Numbers of any width, low byte first.
ghost use Rattle.std.specs.Prelude.{◌≡◌, ◌+◌, ◌-◌, ◌*◌, ◌^◌, ◌<◌, ◌≤◌, length, take, drop};
ghost use Rattle.bytecode_buf.specs.Bytes.{le_bytes, le_value, written};

/// Writes the low `width` bytes of a number at a place.
#[inline]
pub fn write_number(into: &mut [u8], at: usize, width: usize, value: u64)
    requires { at + width ≤ length into.old }
    ensures { into.new ≡ written at (le_bytes width value) into.old }
{
    let mut rest = value;
    for i in 0..width {
        into[at + i] = (rest % 256) as u8;
        rest /= 256;
    }
}

/// Reads the number of all these bytes. Most operands have four, which are read without a loop.
pub fn read_number(bytes: &[u8]) -> u64
    requires { length bytes.now ≤ 8 }
    ensures { result ≡ le_value bytes.now }
{
    if bytes.len() == 4 {
        return read_four(bytes);
    }
    let mut value = 0u64;
    for i in 0..bytes.len() {
        let byte = bytes[bytes.len() - 1 - i];
        value = value * 256 + u64::from(byte);
    }
    value
}

#[inline]
fn read_four(bytes: &[u8]) -> u64
    requires { length bytes.now ≡ 4 }
    ensures { result ≡ le_value bytes.now }
{
    u64::from(bytes[0])
        + 256 * (u64::from(bytes[1]) + 256 * (u64::from(bytes[2]) + 256 * u64::from(bytes[3])))
}
