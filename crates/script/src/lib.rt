// Reading a script: a call of the library, proved for every string of bytes. What is not there is `None`: the rules say it by the place after it, which
// is then nowhere.
#![tactic(auto, using(crate::proofs::Reading::ways))]

ghost use Rattle.std.specs.Prelude.{◌≡◌, ◌≤◌, slice_get};
ghost use Rattle.rules.specs.Means.{means_script};
ghost use Rattle.rules.specs.Script.{digits_from, number_at, field_at, reserve_line, seat_line, body_at, in_bounds, contents_of, no_lines, bodies_from, read_script};
ghost use Rattle.rules.specs.Script.{line_end as Script·lineEnd};
ghost use Rattle.script.specs.There.{digit_there, longer_there, found_there, place_there, body_there, contents_there};

use rules::{Body, Contents, Found, Line, Script, Wrong};

// what a script does not fill
const NO_LINE: Line = Line {
    code: 0,
    seat: 0,
    start: 0,
    end: 0,
    kind: 0,
};

fn byte(src: &[u8], at: usize) -> Option<u8>
    ensures { result ≡ slice_get src.now at }
{
    src.get(at).copied()
}

fn digit(src: &[u8], at: usize) -> Option<u32>
    ensures { result ≡ digit_there src.now at }
{
    let b = byte(src, at)?;
    if !b.is_ascii_digit() {
        return None;
    }
    Some(u32::from(b - b'0'))
}

// what is found so far and one digit more, if one stands there and the number then still fits
fn longer(src: &[u8], so_far: Found) -> Option<Found>
    ensures { result ≡ longer_there src.now so_far }
{
    let d = digit(src, so_far.next)?;
    let value = so_far.value.checked_mul(10)?.checked_add(d)?;
    Some(Found {
        value,
        next: so_far.next + 1,
    })
}

// up to nine digits more
fn digits(src: &[u8], first: Found) -> Found
    ensures { result ≡ digits_from src.now 9 first.next first.value }
{
    let mut so_far = first;
    for _ in 0..9u32 {
        let Some(more) = longer(src, so_far) else {
            return so_far;
        };
        so_far = more;
    }
    so_far
}

fn number(src: &[u8], at: usize) -> Option<Found>
    ensures { result ≡ found_there src.now (number_at src.now at) }
{
    let value = digit(src, at)?;
    let first = Found {
        value,
        next: at + 1,
    };
    if value == 0 {
        return Some(first);
    }
    Some(digits(src, first))
}

fn field(src: &[u8], at: usize) -> Option<Found>
    ensures { result ≡ found_there src.now (field_at src.now at) }
{
    match byte(src, at)? {
        b' ' => number(src, at + 1),
        _ => None,
    }
}

fn line_end(src: &[u8], at: usize) -> Option<usize>
    ensures { result ≡ place_there src.now (Script·lineEnd src.now at) }
{
    match byte(src, at)? {
        b'\n' => Some(at + 1),
        _ => None,
    }
}

fn reserve_line(src: &[u8], at: usize) -> Option<Body>
    ensures { result ≡ body_there src.now (reserve_line src.now at) }
{
    let seat = field(src, at)?;
    let start = field(src, seat.next)?;
    let end = field(src, start.next)?;
    let kind = field(src, end.next)?;
    let next = line_end(src, kind.next)?;
    Some(Body {
        line: Line {
            code: 1,
            seat: seat.value,
            start: start.value,
            end: end.value,
            kind: kind.value,
        },
        next,
    })
}

fn seat_line(src: &[u8], code: u32, at: usize) -> Option<Body>
    ensures { result ≡ body_there src.now (seat_line src.now code at) }
{
    let seat = field(src, at)?;
    let next = line_end(src, seat.next)?;
    Some(Body {
        line: Line {
            code,
            seat: seat.value,
            ..NO_LINE
        },
        next,
    })
}

fn body_line(src: &[u8], at: usize) -> Option<Body>
    ensures { result ≡ body_there src.now (body_at src.now at) }
{
    match byte(src, at)? {
        b'v' => reserve_line(src, at + 1),
        b's' => seat_line(src, 2, at + 1),
        b'r' => seat_line(src, 3, at + 1),
        b'e' => seat_line(src, 4, at + 1),
        _ => None,
    }
}

#[tactic(auto, unfolding(rules::specs::Script::in_bounds))]
fn in_bounds(n: u32, s: u32, k: u32, title: u32) -> bool
    ensures { result ≡ in_bounds n s k title }
{
    (1..=256).contains(&n) && (1..=64).contains(&s) && k <= 1000 && 1 <= title
}

fn contents_line(src: &[u8]) -> Option<Contents>
    ensures { result ≡ contents_there src.now (contents_of src.now) }
{
    let n = number(src, 0)?;
    let s = field(src, n.next)?;
    let k = field(src, s.next)?;
    let title = field(src, k.next)?;
    if !in_bounds(n.value, s.value, k.value, title.value) {
        return None;
    }
    let next = line_end(src, title.next)?;
    Some(Contents {
        n: n.value,
        s: s.value,
        k: k.value,
        title: title.value,
        next,
    })
}

// What follows line 1. Only `read` calls it, once line 1 is found right.
fn bodies(src: &[u8], top: Contents) -> Result<Script, Wrong>
    requires { top.k ≤ 1000 }
    ensures { means_script result ≡ bodies_from src.now top top.k 0 top.next no_lines }
{
    let mut rows = [NO_LINE; 1000];
    let mut at = top.next;
    for i in 0..top.k {
        let body = body_line(src, at).ok_or(Wrong { line: i + 2 })?;
        rows[i as usize] = body.line;
        at = body.next;
    }
    if at != src.len() {
        return Err(Wrong { line: top.k + 2 });
    }
    Ok(Script {
        n: top.n,
        s: top.s,
        k: top.k,
        title: top.title,
        rows,
    })
}

pub fn read(src: &[u8]) -> Result<Script, Wrong>
    ensures { means_script result ≡ read_script src.now }
{
    if 16384 < src.len() {
        return Err(Wrong { line: 0 });
    }
    let top = contents_line(src).ok_or(Wrong { line: 1 })?;
    bodies(src, top)
}
