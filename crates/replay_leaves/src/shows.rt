// An answer, as a line on standard output.
use refusals::Refusal;
use replay::OUTPUT;
use utf8::Encoded;
use words::{Order, Pair};

fn word(name: &[u8], line: &mut [u8]) {
    let end = replay::put(name, line, 0);
    replay::finish(line, end);
}

pub fn yes_or_no(answer: bool, line: &mut [u8]) {
    word(
        if answer {
            b"yes".as_slice()
        } else {
            b"no".as_slice()
        },
        line,
    );
}

// The pair that is handed on is shown behind the word.
pub fn order(answer: Order, line: &mut [u8]) {
    match answer {
        Order::Less(number) => handed(b"less ", number, line),
        Order::Same(number) => handed(b"same ", number, line),
        Order::More(number) => handed(b"more ", number, line),
    }
}

fn handed(name: &[u8], number: Pair, line: &mut [u8]) {
    let start = replay::put(name, line, 0);
    let high = replay::put_word(number.high, line, start);
    let end = replay::put_word(number.low, line, high);
    replay::finish(line, end);
}

pub fn pair(answer: Pair, line: &mut [u8]) {
    handed(b"number=", answer, line);
}

fn refusal(why: Refusal, line: &mut [u8]) {
    let end = replay::put_refusal(why, line, 0);
    replay::finish(line, end);
}

pub fn parsed(answer: Result<Pair, Refusal>, line: &mut [u8]) {
    match answer {
        Ok(number) => pair(number, line),
        Err(why) => refusal(why, line),
    }
}

fn hex(bytes: &[u8], line: &mut [u8]) {
    let name = replay::put(b"bytes=", line, 0);
    let end = replay::put_hex(bytes, line, name);
    replay::finish(line, end);
}

pub fn encoding(answer: Encoded, line: &mut [u8]) {
    match answer {
        Encoded::One(a) => hex(&[a], line),
        Encoded::Two(a, b) => hex(&[a, b], line),
        Encoded::Three(a, b, c) => hex(&[a, b, c], line),
        Encoded::Four(a, b, c, d) => hex(&[a, b, c, d], line),
        Encoded::NoEncoding => hex(b"", line),
    }
}

pub fn natural(number: u64, line: &mut [u8]) {
    decimal(decimals::write_natural(number, line), line);
}

pub fn signed(number: i64, line: &mut [u8]) {
    decimal(decimals::write_signed(number, line), line);
}

fn decimal(written: Result<usize, Refusal>, line: &mut [u8]) {
    if let Ok(end) = written {
        replay::finish(line, end);
    }
}

pub fn string(answer: Result<usize, Refusal>, text: &[u8], line: &mut [u8]) {
    match answer {
        Ok(count) if count <= text.len() => {
            io::write_all(OUTPUT, b"text=");
            replay::write_hex(&text[..count], line);
            io::write_all(OUTPUT, b"\n");
        }
        Ok(_) => {}
        Err(why) => refusal(why, line),
    }
}

// The answer with its detail, and every byte that was lent.
pub fn lent(answer: Result<usize, Refusal>, buffer: &[u8], line: &mut [u8]) {
    let start = match answer {
        Ok(count) => replay::put_named(b"length=", count, line, 0),
        Err(why) => replay::put_detailed(why, line, 0),
    };
    let name = replay::put(b" buffer=", line, start);
    let end = replay::put_hex(buffer, line, name);
    replay::finish(line, end);
}
