// The public calls for C and Rust to link: over numbers and slices alone, each answer encoded as one number, a wait's shared run in two words beside it. A
// slice crosses as its address and its length, an array as its address. The calls on tables stand here twice: on the ordinary ones and, as
// `soodhiqune_sheet_..`, on a writers' sheet, since C knows no types for them: it is by their names that a caller says which tables it lends.
#![tactic(auto)]

ghost use Rattle.std.specs.Prelude.{◌≡◌, true, false, [], ◌+◌, ◌≤◌, length, take, drop};
ghost use Rattle.rules.specs.Script.{read_script};
ghost use Rattle.rules.specs.Tables.{tables};
ghost use Rattle.rules.specs.Comparison.{claim};
ghost use Rattle.rules.specs.Answers.{done};
ghost use Rattle.rules.specs.Means.{means, means_count, means_board, means_run, means_done, means_moved, means_script};
ghost use Rattle.rules.specs.Calls as call;
ghost use Rattle.rules.specs.FreeCount.{free_count};
ghost use Rattle.rules.specs.Run as running;
ghost use Rattle.rules.specs.Board.{board_numbers};
ghost use Rattle.rules.specs.Locks.{listed, import_locks, export_claims};
ghost use Rattle.rules.specs.Play.{play as Play·play};
ghost use Rattle.boundary.specs.Encoded.{halves, halves_of, encode, encode_count, encode_ran, encoded, encoded_run, step_told, shared_after, tell_step, told, tell_answer, tell, put_line, lines_after, script_numbers, read_as, encode_script};

use replies::Said;
use rules::{BadRecord, Claim, Filled, Line, Moved, Ordinary, Ran, Refused, Reply, Script, Sheet};

// ---- answers as numbers, by functions and no `From`: neither type is this crate's

fn joined(upper: u32, lower: u32) -> u64
    ensures { halves_of result ≡ halves upper lower }
{
    4294967296 * upper as u64 + lower as u64
}

// of clear: 0, or the refusal
fn number_of_clear(answer: Result<(), Refused>) -> u64
    ensures { result ≡ means_done answer }
{
    match answer {
        Ok(()) => 0,
        Err(why) => replies::number(why) as u64,
    }
}

fn number_of(answer: Result<Reply, Refused>) -> u64
    ensures { halves_of result ≡ encode (means answer) }
{
    let said = Said::from(answer);
    joined(said.code, said.number)
}

// the two words for the shared run, where the answer is a wait
fn put_shared(shared: &mut [u32], answer: Result<Reply, Refused>)
    requires { length shared.old ≡ 2 }
    ensures { shared.new ≡ shared_after shared.old (means answer) }
{
    if let Some(run) = Said::from(answer).run {
        shared[0] = run.first;
        shared[1] = run.end;
    }
}

fn number_of_count(answer: Result<u32, Refused>) -> u64
    ensures { halves_of result ≡ encode_count (means_count answer) }
{
    match answer {
        Ok(n) => joined(1, n),
        Err(why) => joined(0, replies::number(why)),
    }
}

fn number_of_run(ran: Ran) -> u64
    ensures { halves_of result ≡ encode_ran (means_run ran) }
{
    match ran.refusal {
        None => joined(0, ran.steps),
        Some(why) => joined(replies::number(why), ran.steps),
    }
}

// the board's number; the word for the covered frames is stored where it is not refused
fn tell_board(answer: Result<Filled, Refused>, covered: &mut u64) -> u64
    ensures { told (halves_of result) covered.new [] ≡ tell_answer covered.old (means_board answer) [] }
{
    match answer {
        Ok(filled) => {
            *covered = filled.covered;
            joined(1, filled.rows)
        }
        Err(why) => joined(0, replies::number(why)),
    }
}

// of import and export
fn moved(answer: Result<(), BadRecord>) -> Moved
    ensures { result ≡ means_moved answer }
{
    match answer {
        Ok(()) => Moved {
            refusal: 0,
            place: 0,
        },
        Err(bad) => Moved {
            refusal: replies::number(bad.why),
            place: bad.place,
        },
    }
}

// ---- the calls on the ordinary tables

#[unsafe(no_mangle)]
pub extern "C" fn soodhiqune_clear(nodes: &mut [u32], seats: &mut [u32], title: u32) -> u64
    ensures { done result (tables false nodes.new seats.new) ≡ call.clear (tables false nodes.old seats.old) title }
{
    number_of_clear(claims::clear::<Ordinary>(nodes, seats, title))
}

#[unsafe(no_mangle)]
pub extern "C" fn soodhiqune_reserve(
    nodes: &mut [u32],
    seats: &mut [u32],
    seat: u32,
    start: u32,
    end: u32,
    kind: u32,
) -> u64
    ensures { done (halves_of result) (tables false nodes.new seats.new) ≡ encoded (call.reserve (tables false nodes.old seats.old) seat (claim start end kind)) }
{
    let claim = Claim { start, end, kind };
    number_of(claims::reserve::<Ordinary>(nodes, seats, seat, claim))
}

#[unsafe(no_mangle)]
pub extern "C" fn soodhiqune_enter(nodes: &[u32], seats: &mut [u32], seat: u32) -> u64
    ensures { done (halves_of result) (tables false nodes.now seats.new) ≡ encoded (call.enter (tables false nodes.now seats.old) seat) }
{
    number_of(claims::enter::<Ordinary>(nodes, seats, seat))
}

#[unsafe(no_mangle)]
pub extern "C" fn soodhiqune_step(
    nodes: &mut [u32],
    seats: &mut [u32],
    seat: u32,
    shared: &mut [u32; 2],
) -> u64
    ensures { step_told (halves_of result) shared.new (tables false nodes.new seats.new) ≡ tell_step shared.old (call.step (tables false nodes.old seats.old) seat) }
{
    let answer = claims::step::<Ordinary>(nodes, seats, seat);
    put_shared(shared, answer);
    number_of(answer)
}

#[unsafe(no_mangle)]
pub extern "C" fn soodhiqune_release(nodes: &mut [u32], seats: &mut [u32], seat: u32) -> u64
    ensures { done (halves_of result) (tables false nodes.new seats.new) ≡ encoded (call.release (tables false nodes.old seats.old) seat) }
{
    number_of(claims::release::<Ordinary>(nodes, seats, seat))
}

#[unsafe(no_mangle)]
pub extern "C" fn soodhiqune_free_count(nodes: &[u32], seats: &[u32]) -> u64
    ensures { halves_of result ≡ encode_count (free_count (tables false nodes.now seats.now)) }
{
    number_of_count(claims::free_count::<Ordinary>(nodes, seats))
}

#[unsafe(no_mangle)]
pub extern "C" fn soodhiqune_run(
    nodes: &mut [u32],
    seats: &mut [u32],
    schedule: &[u32],
    budget: u32,
) -> u64
    ensures { done (halves_of result) (tables false nodes.new seats.new) ≡ encoded_run (running.run (tables false nodes.old seats.old) schedule.now budget) }
{
    number_of_run(run::run::<Ordinary>(nodes, seats, schedule, budget))
}

#[unsafe(no_mangle)]
pub extern "C" fn soodhiqune_board(
    nodes: &[u32],
    seats: &[u32],
    rows: &mut [u32],
    covered: &mut u64,
) -> u64
    ensures { told (halves_of result) covered.new rows.new ≡ tell covered.old (board_numbers (tables false nodes.now seats.now) rows.old) }
{
    tell_board(board::board::<Ordinary>(nodes, seats, rows), covered)
}

// ---- the same on a writers' sheet

#[unsafe(no_mangle)]
pub extern "C" fn soodhiqune_sheet_clear(nodes: &mut [u32], seats: &mut [u32], title: u32) -> u64
    ensures { done result (tables true nodes.new seats.new) ≡ call.clear (tables true nodes.old seats.old) title }
{
    number_of_clear(claims::clear::<Sheet>(nodes, seats, title))
}

#[unsafe(no_mangle)]
pub extern "C" fn soodhiqune_sheet_reserve(
    nodes: &mut [u32],
    seats: &mut [u32],
    seat: u32,
    start: u32,
    end: u32,
    kind: u32,
) -> u64
    ensures { done (halves_of result) (tables true nodes.new seats.new) ≡ encoded (call.reserve (tables true nodes.old seats.old) seat (claim start end kind)) }
{
    let claim = Claim { start, end, kind };
    number_of(claims::reserve::<Sheet>(nodes, seats, seat, claim))
}

#[unsafe(no_mangle)]
pub extern "C" fn soodhiqune_sheet_enter(nodes: &[u32], seats: &mut [u32], seat: u32) -> u64
    ensures { done (halves_of result) (tables true nodes.now seats.new) ≡ encoded (call.enter (tables true nodes.now seats.old) seat) }
{
    number_of(claims::enter::<Sheet>(nodes, seats, seat))
}

#[unsafe(no_mangle)]
pub extern "C" fn soodhiqune_sheet_step(
    nodes: &mut [u32],
    seats: &mut [u32],
    seat: u32,
    shared: &mut [u32; 2],
) -> u64
    ensures { step_told (halves_of result) shared.new (tables true nodes.new seats.new) ≡ tell_step shared.old (call.step (tables true nodes.old seats.old) seat) }
{
    let answer = claims::step::<Sheet>(nodes, seats, seat);
    put_shared(shared, answer);
    number_of(answer)
}

#[unsafe(no_mangle)]
pub extern "C" fn soodhiqune_sheet_release(nodes: &mut [u32], seats: &mut [u32], seat: u32) -> u64
    ensures { done (halves_of result) (tables true nodes.new seats.new) ≡ encoded (call.release (tables true nodes.old seats.old) seat) }
{
    number_of(claims::release::<Sheet>(nodes, seats, seat))
}

#[unsafe(no_mangle)]
pub extern "C" fn soodhiqune_sheet_free_count(nodes: &[u32], seats: &[u32]) -> u64
    ensures { halves_of result ≡ encode_count (free_count (tables true nodes.now seats.now)) }
{
    number_of_count(claims::free_count::<Sheet>(nodes, seats))
}

#[unsafe(no_mangle)]
pub extern "C" fn soodhiqune_sheet_run(
    nodes: &mut [u32],
    seats: &mut [u32],
    schedule: &[u32],
    budget: u32,
) -> u64
    ensures { done (halves_of result) (tables true nodes.new seats.new) ≡ encoded_run (running.run (tables true nodes.old seats.old) schedule.now budget) }
{
    number_of_run(run::run::<Sheet>(nodes, seats, schedule, budget))
}

#[unsafe(no_mangle)]
pub extern "C" fn soodhiqune_sheet_board(
    nodes: &[u32],
    seats: &[u32],
    rows: &mut [u32],
    covered: &mut u64,
) -> u64
    ensures { told (halves_of result) covered.new rows.new ≡ tell covered.old (board_numbers (tables true nodes.now seats.now) rows.old) }
{
    tell_board(board::board::<Sheet>(nodes, seats, rows), covered)
}

// ---- locks of the archive's file system, three numbers to a record. The place of a refused record is handed back by value, beside the refusal, so that
// a refused call stores nothing at all.

#[unsafe(no_mangle)]
pub extern "C" fn soodhiqune_import(title: u32, locks: &[i64], claims: &mut [u32]) -> Moved
    ensures { listed result claims.new ≡ import_locks title locks.now claims.old }
{
    moved(posix::import(title, locks, claims))
}

#[unsafe(no_mangle)]
pub extern "C" fn soodhiqune_export(title: u32, claims: &[u32], locks: &mut [i64]) -> Moved
    ensures { listed result locks.new ≡ export_claims title claims.now locks.old }
{
    moved(posix::export(title, claims, locks))
}

// ---- a script played

// The bytes printed for a script, at most 48,986 of the 49,152 lent; their number.
#[unsafe(no_mangle)]
pub extern "C" fn soodhiqune_play(script: &[u8], out: &mut [u8; 49152]) -> u64
    ensures is_printed { take result out.new ≡ Play·play script.now }
    ensures rest_is_kept { drop result out.new ≡ drop result out.old }
    ensures is_within { (result ≤ 48986) × (result ≡ length (take result out.new)) }
{
    playing::play(script, out) as u64
}

// ---- script reading: the numbers of a script in a lent list: N, S, K, the title's frame count, then five for each of the 1,000 rows

fn put_line(numbers: &mut [u32], at: usize, line: Line)
    requires { at + 5 ≤ length numbers.old }
    ensures { numbers.new ≡ put_line numbers.old at line }
{
    numbers[at] = line.code;
    numbers[at + 1] = line.seat;
    numbers[at + 2] = line.start;
    numbers[at + 3] = line.end;
    numbers[at + 4] = line.kind;
}

fn put_lines(numbers: &mut [u32], rows: &[Line; 1000])
    requires { length numbers.old ≡ 5004 }
    ensures { numbers.new ≡ lines_after 1000 numbers.old rows.now }
{
    for i in 0..1000 {
        put_line(numbers, 4 + 5 * i, rows[i]);
    }
}

fn put_script(numbers: &mut [u32], script: &Script)
    requires { length numbers.old ≡ 5004 }
    ensures { numbers.new ≡ script_numbers (means_script (Ok script.now)) numbers.old }
{
    numbers[0] = script.n;
    numbers[1] = script.s;
    numbers[2] = script.k;
    numbers[3] = script.title;
    put_lines(numbers, &script.rows);
}

fn read_into(bytes: &[u8], numbers: &mut [u32]) -> u64
    requires { length numbers.old ≡ 5004 }
    ensures { read_as (halves_of result) numbers.new ≡ encode_script (read_script bytes.now) numbers.old }
{
    match script::read(bytes) {
        Ok(script) => {
            put_script(numbers, &script);
            0
        }
        Err(wrong) => joined(replies::number(Refused::NotWellFormed), wrong.line),
    }
}

// The length is promised so that the promise alone tells the script (proofs/ScriptTold.antt).
#[unsafe(no_mangle)]
pub extern "C" fn soodhiqune_read(bytes: &[u8], numbers: &mut [u32; 5004]) -> u64
    ensures is_read { read_as (halves_of result) numbers.new ≡ encode_script (read_script bytes.now) numbers.old }
    ensures is_whole { length numbers.new ≡ 5004 }
{
    read_into(bytes, numbers)
}
