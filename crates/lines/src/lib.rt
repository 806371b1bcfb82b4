// A signed 32-bit number as a text line: 11 columns and a line feed.
#![tactic(auto)]

ghost use Rattle.std.specs.Prelude.{◌≡◌, ◌≤◌, length, slice_index};
ghost use Rattle.lines.specs.Lines.{line_of, Read, Numeral, Padded, OneLineEach};

use itoa::Buffer;

// The bytes of a line.
pub const LINE_LENGTH: usize = 12;

// The line of a number.
pub fn write_line(x: i32) -> [u8; LINE_LENGTH]
    ensures { result ≡ line_of x }
{
    let mut buffer = Buffer::new();
    let number = buffer.format(x).as_bytes();
    let mut line = [b' '; LINE_LENGTH];
    line[11] = b'\n';
    line[11 - number.len()..11].copy_from_slice(number);
    line
}

// The number of a line, or none where the bytes are no number's line. Its digits are read here: by the library's `trim` and
// `parse`, with the line written again to compare, a line took three to four times as long.
pub fn read_line(line: &[u8]) -> Option<i32>
    ensures { Read line.now result }
{
    if line.len() != LINE_LENGTH {
        return None;
    }
    if line[11] != b'\n' {
        return None;
    }
    let start = spaces(line);
    if line[start] == b'-' {
        let n = numeral(&line[start + 1..11])?;
        if n == 0 || n > 0x8000_0000 {
            None
        } else {
            Some((-(n as i64)) as i32)
        }
    } else {
        let n = numeral(&line[start..11])?;
        if n > 0x7FFF_FFFF {
            None
        } else {
            Some(n as i32)
        }
    }
}

// How many spaces come first in the 11 columns of a line.
fn spaces(line: &[u8]) -> usize
    requires { (length line.now ≡ 12) × (slice_index line.now 11 ≡ 10) }
    ensures { Padded line.now result }
{
    line.iter().take_while(|byte| **byte == b' ').count()
}

// The number that the digits write, or none where they are no number's digits.
fn numeral(digits: &[u8]) -> Option<u64>
    requires { length digits.now ≤ 11 }
    ensures { Numeral digits.now result }
{
    if digits.len() == 0 {
        return None;
    }
    if digits.len() > 1 && digits[0] == b'0' {
        return None;
    }
    let mut n: u64 = 0;
    for d in digits {
        if !d.is_ascii_digit() {
            return None;
        }
        n = 10 * n + u64::from(*d - b'0');
    }
    Some(n)
}

// Each number has one line.
pub fn one_line_each()
    ensures { OneLineEach }
{}

#[cfg(test)]
mod tests {
    use super::*;

    #[test]
    fn ends(rt: HostRuntime) {
        assert!(rt; write_line(0) == *b"          0\n");
        assert!(rt; write_line(-2_147_483_648) == *b"-2147483648\n");
        assert_eq!(rt; read_line(b" 2147483647\n"), Some(2_147_483_647));
        assert_eq!(rt; read_line(b" 2147483648\n"), None);
        assert_eq!(rt; read_line(b"         -0\n"), None);
        assert_eq!(rt; read_line(b"         +1\n"), None);
        assert_eq!(rt; read_line(b"         01\n"), None);
        assert_eq!(rt; read_line(b"        1 1\n"), None);
    }
}
