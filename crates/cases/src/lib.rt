// The cases of a program, which its file `stdin` has in lines: numbers, each at a place, and a text that is printed before what they give.
//
//     |101=5000 12000            5,000 at place 101 and 12,000 at the next, for all lines that follow
//     pump volume 99:| 101=99    a case: its text is printed, and what it changes holds for it alone
//     # a remark, in any line
//
// A number is a whole number, a decimal or a fraction, with a minus before it and a unit after it if it has them. No contract says what is read; what is
// printed of each case is compared.
#![tactic(auto)]

ghost use Rattle.std.specs.Prelude.{◌≤◌, ◌<◌, length, IfOk, IfSome};

use std::io;

// Which part of a number its next digit belongs to.
#[derive(Clone, Copy)]
pub enum Part {
    Whole,
    Decimals,
    Divisor,
}

// A number as far as it is read: its digits, what they are over, its sign and the first letter of its unit.
#[derive(Clone, Copy)]
pub struct Number {
    pub digits: u64,
    pub over: u64,
    pub is_negative: bool,
    pub unit: Option<u8>,
    pub part: Part,
}

const NOTHING: Number = Number {
    digits: 0,
    over: 1,
    is_negative: false,
    unit: None,
    part: Part::Whole,
};

// No number has more than 13 digits.
fn tenfold(n: u64) -> u64
    ensures { result < 10000000000000 }
{
    10 * (n % 1000000000000)
}

fn with_digit(x: Number, digit: u8) -> Number
    requires { digit < 10 }
{
    let digit = u64::from(digit);
    match x.part {
        Part::Whole => Number {
            digits: tenfold(x.digits) + digit,
            ..x
        },
        Part::Decimals => Number {
            digits: tenfold(x.digits) + digit,
            over: tenfold(x.over),
            ..x
        },
        Part::Divisor => Number {
            over: tenfold(x.over) + digit,
            ..x
        },
    }
}

fn with_byte(x: Number, byte: u8) -> Number {
    match byte {
        b'0'..=b'9' => with_digit(x, byte - b'0'),
        b'.' => Number {
            part: Part::Decimals,
            ..x
        },
        b'/' => Number {
            over: 0,
            part: Part::Divisor,
            ..x
        },
        b'-' => Number {
            is_negative: true,
            ..x
        },
        // no letter, and no unit
        0 => x,
        _ => Number {
            unit: x.unit.or(Some(byte)),
            ..x
        },
    }
}

// The numbers of a case, by their places.
#[derive(Clone, Copy)]
pub struct Numbers(pub [Number; 401]);

impl Numbers {
    pub fn new() -> Self {
        Numbers([NOTHING; 401])
    }

    // The number at place 100 x block + place.
    pub fn at(&self, block: u32, place: u32) -> Number {
        let at = 100 * (block % 4) + place % 100;
        self.0[at as usize]
    }

    pub fn digits_at(&self, block: u32, place: u32) -> u64 {
        self.at(block, place).digits
    }

    pub fn word_at(&self, block: u32, place: u32) -> u32 {
        word(self.digits_at(block, place))
    }
}

pub fn word(n: u64) -> u32 {
    (n % 4294967296) as u32
}

// A number and its place, as far as they are read.
#[derive(Clone, Copy)]
pub struct Reader {
    pub place: usize,
    pub number: Number,
}

// A number before `=` is a place. A space or the line's end ends a number, and the next one's place is the next.
fn with_next(r: Reader, byte: u8) -> Reader {
    match byte {
        b'=' => Reader {
            place: r.number.digits as usize,
            number: NOTHING,
        },
        b' ' | b'\n' => Reader {
            place: r.place % 400 + 1,
            number: NOTHING,
        },
        _ => Reader {
            place: r.place,
            number: with_byte(r.number, byte),
        },
    }
}

fn is_end(byte: u8) -> bool {
    (byte == b' ') | (byte == b'\n')
}

fn change(text: &[u8], numbers: &mut Numbers) {
    let mut r = Reader {
        place: 0,
        number: NOTHING,
    };
    for byte in text {
        if is_end(*byte) {
            numbers.0[r.place % 401] = r.number;
        }
        r = with_next(r, *byte);
    }
}

// Past the end of the line in which a place lies.
fn line_end(text: &[u8], at: usize) -> usize
    requires { at < length text.now }
    ensures { (at < result) × (result ≤ length text.now) }
{
    let end = print::position(text, at, b'\n');
    if end < text.len() { end + 1 } else { end }
}

// Where the text of a case ends, in a line that is one.
fn read_changes(
    rt: &impl Print,
    line: &[u8],
    lasting: &mut Numbers,
    own: &mut Numbers,
) -> io::Result<Option<usize>>
    ensures { IfOk result (λ said. IfSome said (λ n. n ≤ length line.now)) }
{
    let end = print::position(line, 0, b'#');
    let said = &line[..end];
    let bar = print::position(said, 0, b'|');
    if bar == 0 {
        change(said, lasting);
        return Ok(None);
    }
    if bar == end {
        return Ok(None);
    }
    *own = *lasting;
    change(&said[bar..], own);
    rt.write_all(&said[..bar])?;
    Ok(Some(bar))
}

// Where the text of a case ends, in a line that is one, and where the line does.
#[derive(Clone, Copy)]
pub struct Line {
    pub said: Option<usize>,
    pub end: usize,
}

// The line at a place: the numbers of a case come to be its own.
pub fn read_line(
    rt: &impl Print,
    text: &[u8],
    at: usize,
    lasting: &mut Numbers,
    own: &mut Numbers,
) -> io::Result<Line>
    requires { at < length text.now }
    ensures { IfOk result (λ l. IfSome l.said (λ n. (at ≤ n) × (n ≤ length text.now)) × (at < l.end) × (l.end ≤ length text.now)) }
{
    let end = line_end(text, at);
    let said = read_changes(rt, &text[at..end], lasting, own)?;
    Ok(Line {
        said: said.map(|n| at + n),
        end,
    })
}
