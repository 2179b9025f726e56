// The number on the first line of an input.
use numbers::SentenceNumber;
use std::io;
use std::io::Read;

// A number of five digits and its newline.
const LONGEST: usize = 6;

// The end of the input ends a line too.
fn read_byte<R: Read>(input: &mut R) -> io::Result<u8> {
    input.by_ref().bytes().next().unwrap_or(Ok(b'\n'))
}

// A line that is no sentence's number gives 0.
pub fn read_number<R: Read>(input: &mut R) -> io::Result<u32> {
    let mut number = 0;
    for _ in 0..LONGEST {
        match read_byte(input)? {
            b'\n' => return Ok(number),
            digit @ b'0'..=b'9' => number = number * 10 + u32::from(digit - b'0'),
            _ => return Ok(0),
        }
        if number > SentenceNumber::HIGHEST {
            return Ok(0);
        }
    }
    Ok(0)
}
