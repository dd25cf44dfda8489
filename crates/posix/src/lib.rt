// Locks of the archive's file system as claims, and claims as such locks, on lent lists of three numbers to a record. Every record is looked at before
// the first number is stored, so that a refusal stores nothing. A lock is looked at without a signed sum: how far its numbers lie from 0 are
// unsigned numbers of 64 bits, and so is every sum of two of them that is made. Of a lock that has passed, the sums are numbers of 32 bits.
#![tactic(auto)]

ghost use Rattle.std.specs.Prelude.{ℕ, ◌≡◌, ◌+◌, ◌*◌, ◌/◌, ◌<◌, ◌≤◌, length, pos};
ghost use Rattle.rules.specs.Locks.{is_type, taken, import_lock, export_claim, each, locks_in, claims_in, record_width, listed, moved, import_locks, export_claims, length_of, lock_of};
ghost use Rattle.rules.specs.Means.{means_claim, means_done, means_moved};
ghost use Rattle.posix.specs.Records.{IsWord, as_lock, run_refusal, lock_at, claim_at, put_claim, put_lock, verdict, IsFirstBad, records_from, put_from, claim_for, lock_for, refusal_of};

use rules::{BadRecord, Claim, Refused};

// the numbers to a record
const WIDTH: usize = 3;

// A lock as it is lent: its type, its start and its signed length.
#[derive(Clone, Copy)]
struct Locked {
    lock_type: i64,
    start: i64,
    span: i64,
}

// ---- one lock

fn is_type(number: i64) -> bool
    ensures { result ≡ is_type number }
{
    number == 1 || number == 2
}

// the refusal of a lock of the frames from first up to but not including end
#[tactic(auto, unfolding(crate::specs::Records::run_refusal))]
fn run_refusal(title: u32, first: u64, end: u64, known: bool) -> Result<(), Refused>
    ensures { means_done result ≡ run_refusal title first end known }
{
    if end <= first {
        return Err(Refused::NoSuchRun);
    }
    if end > u64::from(u32::MAX) {
        return Err(Refused::NoSuchRun);
    }
    if !known {
        return Err(Refused::UnknownType);
    }
    if u64::from(title) < end {
        return Err(Refused::BeyondTitle);
    }
    Ok(())
}

// the refusal of a lock, by the signs of its start and its length
fn lock_refusal(title: u32, one: Locked) -> Result<(), Refused>
    ensures { means_done result ≡ refusal_of (import_lock title (as_lock one)) }
{
    let known = is_type(one.lock_type);
    if one.start < 0 {
        return Err(Refused::NoSuchRun);
    }
    // not by a change of sign, for the lowest number has no opposite
    let from = one.start.unsigned_abs();
    let size = one.span.unsigned_abs();
    match one.span {
        ..0 if from < size => Err(Refused::NoSuchRun),
        ..0 => run_refusal(title, from - size, from, known),
        0 => run_refusal(title, from, u64::from(title), known),
        1.. => run_refusal(title, from, from + size, known),
    }
}

// a number of 32 bits as such
fn word(number: i64) -> u32
    requires { IsWord number }
    ensures { pos result ≡ number }
{
    number as u32
}

// The claim of a lock that is not refused, as reserve's numbers. Its frames are numbers of 32 bits, so that its sums are too.
fn claim_of(title: u32, one: Locked) -> Claim
    requires { refusal_of (import_lock title (as_lock one)) ≡ 0 }
    ensures { taken (means_claim result) ≡ import_lock title (as_lock one) }
{
    let start = word(one.start);
    let other = word(one.start + one.span);
    let kind = word(one.lock_type);
    match one.span {
        ..0 => Claim {
            start: other,
            end: start,
            kind,
        },
        0 => Claim {
            start,
            end: title,
            kind,
        },
        1.. => Claim {
            start,
            end: other,
            kind,
        },
    }
}

// ---- one claim

// the refusal of a claim
#[tactic(auto, unfolding(rules::specs::Locks::export_claim, rules::specs::Shape::is_kind))]
fn claim_refusal(title: u32, one: Claim) -> Result<(), Refused>
    ensures { means_done result ≡ refusal_of (export_claim title (means_claim one)) }
{
    if one.end <= one.start {
        return Err(Refused::NoFrames);
    }
    if title < one.end {
        return Err(Refused::BeyondTitle);
    }
    if one.kind == 1 || one.kind == 2 {
        return Ok(());
    }
    Err(Refused::UnknownKind)
}

// the length of its lock, 0 where it ends at the title's end
fn length_of(title: u32, one: Claim) -> i64
    requires { one.start ≤ one.end }
    ensures { result ≡ length_of title (means_claim one) }
{
    if one.end == title {
        return 0;
    }
    i64::from(one.end - one.start)
}

fn lock_of(title: u32, one: Claim) -> Locked
    requires { one.start ≤ one.end }
    ensures { as_lock result ≡ lock_of title (means_claim one) }
{
    Locked {
        lock_type: i64::from(one.kind),
        start: i64::from(one.start),
        span: length_of(title, one),
    }
}

// ---- the record at a place of a list

fn lock_at(locks: &[i64], place: usize) -> Locked
    requires { record_width * place + 2 < length locks.now }
    ensures { as_lock result ≡ lock_at locks.now place }
{
    let at = WIDTH * place;
    Locked {
        lock_type: locks[at],
        start: locks[at + 1],
        span: locks[at + 2],
    }
}

fn claim_at(claims: &[u32], place: usize) -> Claim
    requires { record_width * place + 2 < length claims.now }
    ensures { means_claim result ≡ claim_at claims.now place }
{
    let at = WIDTH * place;
    Claim {
        start: claims[at],
        end: claims[at + 1],
        kind: claims[at + 2],
    }
}

fn put_claim(claims: &mut [u32], place: usize, one: Claim)
    requires { record_width * place + 2 < length claims.old }
    ensures { claims.new ≡ put_claim claims.old place (means_claim one) }
{
    let at = WIDTH * place;
    claims[at] = one.start;
    claims[at + 1] = one.end;
    claims[at + 2] = one.kind;
}

fn put_lock(locks: &mut [i64], place: usize, one: Locked)
    requires { record_width * place + 2 < length locks.old }
    ensures { locks.new ≡ put_lock locks.old place (as_lock one) }
{
    let at = WIDTH * place;
    locks[at] = one.lock_type;
    locks[at + 1] = one.start;
    locks[at + 2] = one.span;
}

// ---- a list of records of either kind

// the first of so many records that is refused, each looked at by its place
#[tactic(auto, unfolding(crate::specs::Records::IsFirstBad))]
fn first_bad<F: Fn(usize) -> Result<(), Refused>>(count: usize, look: F) -> Result<(), BadRecord>
    requires { (place : ℕ) → place < count → F.pre look place }
    ensures { IsFirstBad (F.post look) count result }
{
    for place in 0..count {
        look(place).map_err(|why| BadRecord { why, place })?;
    }
    Ok(())
}

// ---- a list of locks

fn first_bad_lock(title: u32, locks: &[i64]) -> Result<(), BadRecord>
    ensures { means_moved result ≡ verdict (each (import_lock title) (locks_in locks.now)) }
{
    let count = locks.len() / WIDTH;
    first_bad(count, |place| lock_refusal(title, lock_at(locks, place)))
}

// This loop and that of put_locks stand apart: what they store are numbers of two types.
fn put_claims(title: u32, locks: &[i64], claims: &mut [u32])
    requires has_room { length locks.now / record_width ≤ length claims.old / record_width }
    requires all_accepted { moved 0 0 ≡ verdict (each (import_lock title) (locks_in locks.now)) }
    ensures { claims.new ≡ put_from put_claim 0 (records_from (claim_for title locks.now) 0 (length locks.now / record_width)) claims.old }
{
    for place in 0..locks.len() / WIDTH {
        put_claim(claims, place, claim_of(title, lock_at(locks, place)));
    }
}

// Import and export stay two: what they look at, refuse and store is of two kinds, and a promise for both would name each.
#[tactic(auto, using(crate::proofs::Calls::import_no_title, crate::proofs::Calls::import_refused, crate::proofs::Calls::import_short, crate::proofs::Calls::import_accepted))]
pub fn import(title: u32, locks: &[i64], claims: &mut [u32]) -> Result<(), BadRecord>
    ensures { listed (means_moved result) claims.new ≡ import_locks title locks.now claims.old }
{
    if title == 0 {
        return Err(BadRecord {
            why: Refused::NoFrames,
            place: 0,
        });
    }
    first_bad_lock(title, locks)?;
    if claims.len() / WIDTH < locks.len() / WIDTH {
        return Err(BadRecord {
            why: Refused::NoRoom,
            place: 0,
        });
    }
    put_claims(title, locks, claims);
    Ok(())
}

// ---- a list of claims

fn first_bad_claim(title: u32, claims: &[u32]) -> Result<(), BadRecord>
    ensures { means_moved result ≡ verdict (each (export_claim title) (claims_in claims.now)) }
{
    let count = claims.len() / WIDTH;
    first_bad(count, |place| claim_refusal(title, claim_at(claims, place)))
}

fn put_locks(title: u32, claims: &[u32], locks: &mut [i64])
    requires has_room { length claims.now / record_width ≤ length locks.old / record_width }
    requires all_accepted { moved 0 0 ≡ verdict (each (export_claim title) (claims_in claims.now)) }
    ensures { locks.new ≡ put_from put_lock 0 (records_from (lock_for title claims.now) 0 (length claims.now / record_width)) locks.old }
{
    for place in 0..claims.len() / WIDTH {
        put_lock(locks, place, lock_of(title, claim_at(claims, place)));
    }
}

#[tactic(auto, using(crate::proofs::Calls::export_no_title, crate::proofs::Calls::export_refused, crate::proofs::Calls::export_short, crate::proofs::Calls::export_accepted))]
pub fn export(title: u32, claims: &[u32], locks: &mut [i64]) -> Result<(), BadRecord>
    ensures { listed (means_moved result) locks.new ≡ export_claims title claims.now locks.old }
{
    if title == 0 {
        return Err(BadRecord {
            why: Refused::NoFrames,
            place: 0,
        });
    }
    first_bad_claim(title, claims)?;
    if locks.len() / WIDTH < claims.len() / WIDTH {
        return Err(BadRecord {
            why: Refused::NoRoom,
            place: 0,
        });
    }
    put_locks(title, claims, locks);
    Ok(())
}
