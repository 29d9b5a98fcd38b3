//! The decimal text of numbers.

ghost use Rattle.std.specs.Prelude.{◌≡◌, ◌≤◌, length, take, decimal};
ghost use Rattle.ak_text.specs.Decimal.{decimal_of};

use itoa::Buffer;

/// Writes a number's decimal text to the front of `out` and gives its length, 1 to 20. It takes no memory.
pub fn write_num(n: i64, out: &mut [u8; 20]) -> usize
    ensures within { result ≤ 20 }
    ensures len { result ≡ length (decimal_of n) }
    ensures text { take result out.new ≡ decimal_of n }
{
    let mut buffer = Buffer::new();
    copy(buffer.format(n).as_bytes(), out)
}

/// Writes a number's decimal text to the front of `out` and gives its length, 1 to 20. It takes no memory.
pub fn write_u64(n: u64, out: &mut [u8; 20]) -> usize
    ensures within { result ≤ 20 }
    ensures len { result ≡ length (decimal n) }
    ensures text { take result out.new ≡ decimal n }
{
    let mut buffer = Buffer::new();
    copy(buffer.format(n).as_bytes(), out)
}

// Copies a text of at most 20 bytes to the front.
fn copy(text: &[u8], out: &mut [u8; 20]) -> usize
    requires { length text.now ≤ 20 }
    ensures len { result ≡ length text.now }
    ensures text { take result out.new ≡ text.now }
{
    out[..text.len()].copy_from_slice(text);
    text.len()
}
