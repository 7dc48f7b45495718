// What a line asks.
#![tactic(auto)]

ghost use Rattle.std.specs.Prelude.{◌≡◌};
ghost use Rattle.lines.specs.Lines.{step_of, numbers_of, with_numbers, parse};
ghost use Rattle.parsing.specs.Parts.{number};

use rules::Command;

const RADIX: u64 = lines::RADIX as u64;

// The step of a letter and its numbers; a step doesn't look at numbers that it hasn't.
#[tactic(auto, unfolding(lines::specs::Lines::step_of))]
pub fn step_of(letter: u32, a: u32, b: u32, c: u32) -> Option<Command>
    ensures { result ≡ step_of letter a b c }
{
    Some(match u8::try_from(letter).ok()? {
        b'O' => Command::Open(a, b),
        b'K' => Command::SetDegree(a, b),
        b'S' => Command::Send(a, b, c),
        b'R' => Command::Release(a),
        b'D' => Command::Deliver(a),
        b'L' => Command::Log(a, b),
        b'C' => Command::Checkpoint(a),
        b'T' => Command::Tell(a, b),
        b'X' => Command::Crash(a),
        b'H' => Command::Hear(a, b, c),
        _ => return None,
    })
}

// How many numbers a step has; the last is one that no letter asks for.
fn numbers_of(x: Command) -> usize
    ensures { result ≡ numbers_of x }
{
    match x {
        Command::Open(_, _) => 2,
        Command::SetDegree(_, _) => 2,
        Command::Send(_, _, _) => 3,
        Command::Release(_) => 1,
        Command::Deliver(_) => 1,
        Command::Log(_, _) => 2,
        Command::Checkpoint(_) => 1,
        Command::Tell(_, _) => 2,
        Command::Crash(_) => 1,
        Command::Hear(_, _, _) => 3,
        Command::SetGap(_) => 1,
    }
}

// What is asked, where it has just n numbers.
#[tactic(auto, unfolding(lines::specs::Lines::with_numbers))]
fn with_numbers(n: usize, asked: Option<Command>) -> Option<Command>
    ensures { result ≡ with_numbers n asked }
{
    asked.filter(|x| numbers_of(*x) == n)
}

// The number that a field is.
fn number(field: &[u8]) -> Option<u32>
    ensures { result ≡ number field.now }
{
    if !(1..=lines::MOST_DIGITS).contains(&field.len()) {
        return None;
    }
    let mut v = 0u64;
    for b in field {
        if !b.is_ascii_digit() {
            return None;
        }
        v = v * RADIX + (b - lines::ZERO) as u64;
    }
    u32::try_from(v).ok()
}

// What the bytes of a line, without its line feed, ask.
pub fn parse(s: &[u8]) -> Option<Command>
    ensures { result ≡ parse s.now }
{
    if lines::LONGEST_LINE < s.len() {
        return None;
    }
    let mut fields = s.split(|b| *b == lines::SPACE);
    let &[letter] = fields.next()? else {
        return None;
    };
    let mut ns = [0; lines::MOST_NUMBERS];
    let mut n = 0;
    for field in fields {
        if lines::MOST_NUMBERS <= n {
            return None;
        }
        ns[n] = number(field)?;
        n += 1;
    }
    with_numbers(n, step_of(letter as u32, ns[0], ns[1], ns[2]))
}
