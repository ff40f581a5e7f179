//! What a request says.
ghost use Rattle.std.specs.Prelude.{◌≡◌};
ghost use Rattle.page_texts.specs.Requests.{alone, exploring_of, listing_of, request_of, rounds_of, rows_of, two_numbers};

use journal_texts::words::{following, number, number_of};

/// A request that the debugger has no command for. Numbers are as they stand there: of rounds, of turns of the
/// collector in each, of a row from 0, of rows, of a class from 0, of states.
#[derive(Clone, Copy, Debug, PartialEq, Eq)]
pub enum Request {
    Rounds { rounds: u32, gc: u32 },
    State,
    Threads,
    Held,
    Lists,
    Statics,
    Methods,
    Rows { first: u32, count: u32 },
    Listing(u32),
    /// Every schedule is wanted, with so many states at most; and whether cells may be missing.
    Explore { states: u32, no_room: bool },
    Output,
    Journal,
}

/// What a line of one word asks for.
fn alone(line: &[u8]) -> Option<Request>
    ensures { result ≡ alone line.now }
{
    if line == b"state".as_slice() {
        Some(Request::State)
    } else if line == b"threads".as_slice() {
        Some(Request::Threads)
    } else if line == b"held".as_slice() {
        Some(Request::Held)
    } else if line == b"lists".as_slice() {
        Some(Request::Lists)
    } else if line == b"statics".as_slice() {
        Some(Request::Statics)
    } else if line == b"methods".as_slice() {
        Some(Request::Methods)
    } else if line == b"output".as_slice() {
        Some(Request::Output)
    } else if line == b"journal".as_slice() {
        Some(Request::Journal)
    } else {
        None
    }
}

/// Two numbers with a space between them.
fn two_numbers(text: &[u8]) -> Option<(u32, u32)>
    ensures { result ≡ two_numbers text.now }
{
    let (first, rest) = number(text, b' ')?;
    let second = number_of(rest)?;
    Some((first, second))
}

fn rounds_of(line: &[u8]) -> Option<Request>
    ensures { result ≡ rounds_of line.now }
{
    let rest = following(b"rounds ", line)?;
    let (rounds, gc) = two_numbers(rest)?;
    Some(Request::Rounds { rounds, gc })
}

fn rows_of(line: &[u8]) -> Option<Request>
    ensures { result ≡ rows_of line.now }
{
    let rest = following(b"rows ", line)?;
    let (first, count) = two_numbers(rest)?;
    Some(Request::Rows { first, count })
}

fn listing_of(line: &[u8]) -> Option<Request>
    ensures { result ≡ listing_of line.now }
{
    let rest = following(b"listing ", line)?;
    let class = number_of(rest)?;
    Some(Request::Listing(class))
}

fn exploring_of(line: &[u8]) -> Option<Request>
    ensures { result ≡ exploring_of line.now }
{
    match following(b"explore no-room ", line) {
        Some(rest) => {
            let states = number_of(rest)?;
            Some(Request::Explore {
                states,
                no_room: true,
            })
        }
        None => {
            let rest = following(b"explore ", line)?;
            let states = number_of(rest)?;
            Some(Request::Explore {
                states,
                no_room: false,
            })
        }
    }
}

/// What a line asks for; none where it is no request, as where it is a command of the debugger.
pub fn request_of(line: &[u8]) -> Option<Request>
    ensures { result ≡ request_of line.now }
{
    match alone(line) {
        Some(request) => return Some(request),
        None => {}
    }
    match rounds_of(line) {
        Some(request) => return Some(request),
        None => {}
    }
    match rows_of(line) {
        Some(request) => return Some(request),
        None => {}
    }
    match listing_of(line) {
        Some(request) => return Some(request),
        None => {}
    }
    exploring_of(line)
}
