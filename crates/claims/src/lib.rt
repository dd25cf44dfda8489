// The public calls on the two lent tables: clear, reserve, enter, step, release and free count. None asks anything of its caller: any tables and
// any numbers are taken. Each has one promise, an equation with its rule: the answer and every word of both tables afterwards. A refused
// call leaves both as found. Enter and free count are lent the node table to read only.
#![tactic(auto)]

ghost use Rattle.std.specs.Prelude.{◌≡◌, true, length, ◌<◌};
ghost use Rattle.rules.specs.Tables.{tables, seat_count_of, phase, zeros};
ghost use Rattle.rules.specs.Shape.{sound};
ghost use Rattle.rules.specs.Answers.{done};
ghost use Rattle.rules.specs.Means.{means, means_count, means_done, means_claim};
ghost use Rattle.rules.specs.Calls as call;
ghost use Rattle.rules.specs.FreeCount as count;
ghost use Rattle.claims.specs.Parts as part;

use rules::{Claim, Profile, Refused, Reply};

// ---- clear

// `title` is the title's frame count
pub fn clear<P: Profile>(nodes: &mut [u32], seats: &mut [u32], title: u32) -> Result<(), Refused>
    ensures { done (means_done result) (tables P.SHEET nodes.new seats.new) ≡ call.clear (tables P.SHEET nodes.old seats.old) title }
{
    let fits = shape::lengths_fit::<P>(nodes, seats);
    if !fits {
        return Err(Refused::Damaged);
    }
    if title == 0 {
        return Err(Refused::NoFrames);
    }
    nodes.fill(0);
    seats.fill(0);
    words::put_title(nodes, title);
    Ok(())
}

// ---- reserve

// of an idle seat
fn reserve_fetching<P: Profile>(
    nodes: &mut [u32],
    seats: &mut [u32],
    s: u32,
    claim: Claim,
) -> Result<Reply, Refused>
    requires tables_sound { sound (tables P.SHEET nodes.old seats.old) ≡ true }
    requires is_idle { phase (tables P.SHEET nodes.old seats.old) s ≡ 0 }
    ensures { done (means result) (tables P.SHEET nodes.new seats.new) ≡ part.reserve_fetching (tables P.SHEET nodes.old seats.old) s (means_claim claim) }
{
    match fetch::fetch::<P>(nodes, seats, s, claim) {
        Some(a) => Ok(Reply::Node(a)),
        None => Err(Refused::NoNodeFree),
    }
}

fn reserve_claim<P: Profile>(
    nodes: &mut [u32],
    seats: &mut [u32],
    s: u32,
    claim: Claim,
) -> Result<Reply, Refused>
    requires { sound (tables P.SHEET nodes.old seats.old) ≡ true }
    ensures { done (means result) (tables P.SHEET nodes.new seats.new) ≡ part.reserve_claim (tables P.SHEET nodes.old seats.old) s (means_claim claim) }
{
    // 3, then 11, then 4: what they look at is read first, so that each is one test, and their order is that of the lines
    let title = words::title::<P>(nodes);
    let known = shape::may_claim::<P>(claim.kind);
    if claim.end <= claim.start {
        return Err(Refused::NoFrames);
    }
    if title < claim.end {
        return Err(Refused::BeyondTitle);
    }
    if !known {
        return Err(Refused::UnknownKind);
    }
    let phase = words::seat_word::<P>(seats, s, words::PHASE);
    match phase {
        0 => reserve_fetching::<P>(nodes, seats, s, claim),
        1..=4294967295 => Err(Refused::HasClaim),
    }
}

pub fn reserve<P: Profile>(
    nodes: &mut [u32],
    seats: &mut [u32],
    s: u32,
    claim: Claim,
) -> Result<Reply, Refused>
    ensures { done (means result) (tables P.SHEET nodes.new seats.new) ≡ call.reserve (tables P.SHEET nodes.old seats.old) s (means_claim claim) }
{
    if shape::is_sound::<P>(nodes, seats) {
        if (s as usize) < words::seat_count::<P>(seats) {
            return reserve_claim::<P>(nodes, seats, s, claim);
        }
        return Err(Refused::NoSuchSeat);
    }
    Err(Refused::Damaged)
}

// ---- enter

fn enter_seat<P: Profile>(nodes: &[u32], seats: &mut [u32], s: u32) -> Result<Reply, Refused>
    requires { s < seat_count_of P.SHEET seats.old }
    ensures { done (means result) (tables P.SHEET nodes.now seats.new) ≡ part.enter_seat (tables P.SHEET nodes.now seats.old) s }
{
    let phase = words::seat_word_within::<P>(seats, s, words::PHASE);
    let start = words::seat_start::<P>(s);
    let end = words::seat_end::<P>(s);
    match phase {
        7 => {
            steps::enter::<P>(nodes, &mut seats[start..end]);
            Ok(Reply::On)
        }
        0..=6 | 8..=4294967295 => Err(Refused::NotReserved),
    }
}

pub fn enter<P: Profile>(nodes: &[u32], seats: &mut [u32], s: u32) -> Result<Reply, Refused>
    ensures { done (means result) (tables P.SHEET nodes.now seats.new) ≡ call.enter (tables P.SHEET nodes.now seats.old) s }
{
    if shape::is_sound::<P>(nodes, seats) {
        if (s as usize) < words::seat_count::<P>(seats) {
            return enter_seat::<P>(nodes, seats, s);
        }
        return Err(Refused::NoSuchSeat);
    }
    Err(Refused::Damaged)
}

// ---- step

// the step, and the answer from the seat's new phase
#[tactic(auto, using(crate::proofs::Ways::step_refused))]
fn step_and_answer<P: Profile>(
    nodes: &mut [u32],
    seats: &mut [u32],
    s: u32,
) -> Result<Reply, Refused>
    requires { sound (tables P.SHEET nodes.old seats.old) ≡ true }
    ensures { done (means result) (tables P.SHEET nodes.new seats.new) ≡ call.step (tables P.SHEET nodes.old seats.old) s }
{
    phases::step_known::<P>(nodes, seats, s)?;
    let start = words::seat_start::<P>(s);
    let end = words::seat_end::<P>(s);
    Ok(steps::answer::<P>(nodes, &seats[start..end]))
}

pub fn step<P: Profile>(nodes: &mut [u32], seats: &mut [u32], s: u32) -> Result<Reply, Refused>
    ensures { done (means result) (tables P.SHEET nodes.new seats.new) ≡ call.step (tables P.SHEET nodes.old seats.old) s }
{
    if shape::is_sound::<P>(nodes, seats) {
        return step_and_answer::<P>(nodes, seats, s);
    }
    Err(Refused::Damaged)
}

// ---- release

fn release_seat<P: Profile>(nodes: &mut [u32], seats: &mut [u32], s: u32) -> Result<Reply, Refused>
    requires tables_sound { sound (tables P.SHEET nodes.old seats.old) ≡ true }
    requires has_seat { s < seat_count_of P.SHEET seats.old }
    ensures { done (means result) (tables P.SHEET nodes.new seats.new) ≡ part.release_seat (tables P.SHEET nodes.old seats.old) s }
{
    let phase = words::seat_word_within::<P>(seats, s, words::PHASE);
    let start = words::seat_start::<P>(s);
    let end = words::seat_end::<P>(s);
    match phase {
        5 => {
            steps::leave::<P>(nodes, &mut seats[start..end]);
            Ok(Reply::Out)
        }
        0..=4 | 6..=4294967295 => Err(Refused::NotHolding),
    }
}

pub fn release<P: Profile>(nodes: &mut [u32], seats: &mut [u32], s: u32) -> Result<Reply, Refused>
    ensures { done (means result) (tables P.SHEET nodes.new seats.new) ≡ call.release (tables P.SHEET nodes.old seats.old) s }
{
    if shape::is_sound::<P>(nodes, seats) {
        if (s as usize) < words::seat_count::<P>(seats) {
            return release_seat::<P>(nodes, seats, s);
        }
        return Err(Refused::NoSuchSeat);
    }
    Err(Refused::Damaged)
}

// ---- free count

#[tactic(auto, using(crate::proofs::Ways::count_refused, crate::proofs::Ways::count_answered))]
pub fn free_count<P: Profile>(nodes: &[u32], seats: &[u32]) -> Result<u32, Refused>
    ensures { means_count result ≡ count.free_count (tables P.SHEET nodes.now seats.now) }
{
    let tables = shape::sound_tables::<P>(nodes, seats)?;
    Ok(fetch::free_count(&tables))
}
