// The program: it reads bytes, hands them to `session`, and writes out what is owed before it reads again. What is
// owed, for any bytes, is proved there; that this loop hands over all that it reads, and writes all that is owed, can
// only be read here.
#![tactic(auto)]

ghost use Rattle.std.specs.Prelude.{◌≤◌, length, IfSome};

use printing::ANSWER_ROOM;
use session::Session;
use std::io;
use std::io::{Error, ErrorKind, Print, Read};

// With its table and its ledger the program fits on a stack of 128 KB.
const READ_ROOM: usize = 512;

// Each byte that is read may end a line.
const OUT_ROOM: usize = READ_ROOM * ANSWER_ROOM;

// Says why a call has failed, in the system's words, without the number that the library puts behind them; with it,
// where there is no memory to take it away.
fn fail(rt: HostRuntime, what: &str, error: Error) -> io::Result<()> {
    let Ok(text) = format!(in rt.alloc(); "{error}") else {
        return eprintln!(rt; "house: {what}: {error}");
    };
    let words = match text.find(" (os error ") {
        Some(end) => &text[..end],
        None => text.as_str(),
    };
    eprintln!(rt; "house: {what}: {words}")
}

// Whether a call that has failed is to be made again: a signal came first. Otherwise it says why, unless nobody reads
// the output any more, which is no fault.
fn again(rt: HostRuntime, what: &str, error: Error) -> bool {
    match error.kind() {
        ErrorKind::Interrupted => true,
        ErrorKind::BrokenPipe => false,
        _ => {
            let _ = fail(rt, what, error);
            false
        }
    }
}

// The bytes are written out; answers whether they were. After a write that failed there is no other.
fn write_out(rt: HostRuntime, bytes: &[u8]) -> bool {
    let mut done = 0;
    // A proved loop has to end, and nothing says that signals do: the range is one that no run uses up.
    for _ in 0..u64::MAX {
        if done == bytes.len() {
            return true;
        }
        match rt.write_some(&bytes[done..]) {
            Ok(0) => {
                let _ = eprintln!(rt; "house: write: nothing was taken");
                return false;
            }
            Ok(put) => done += put,
            Err(error) => {
                if !again(rt, "write", error) {
                    return false;
                }
            }
        }
    }
    false
}

// Bytes of the input, one read of them; answers how many there are, 0 at its end, and none where the read failed.
fn read_in(rt: HostRuntime, bytes: &mut [u8]) -> Option<usize>
    ensures { IfSome result (λ n. n ≤ length bytes.new) }
{
    // as above
    for _ in 0..u64::MAX {
        match rt.stdin().read(bytes) {
            Ok(got) => return Some(got),
            Err(error) => {
                if !again(rt, "read", error) {
                    return None;
                }
            }
        }
    }
    None
}

fn main(rt: HostRuntime) {
    let mut table = [0u32; 15152];
    let mut ledger = [0u32; 257];
    // a table of zeros is not in form
    let mut house = Session::new(&mut table, &mut ledger, false);
    let mut bytes = [0u8; READ_ROOM];
    let mut out = [0u8; OUT_ROOM];
    // as above; nothing says that the input ends
    for _ in 0..u64::MAX {
        let Some(n) = read_in(rt, &mut bytes) else {
            return;
        };
        let owed = house.serve(&bytes[..n], &mut out);
        if !write_out(rt, &out[..owed]) {
            return;
        }
        if n == 0 {
            return;
        }
    }
}
