// A step on tables that are known to be sound, in each of the seat's phases, as far as a run asks for it: its refusal, if there is one, and the tables.
// The answer is said from the tables after it, by `claims::step` alone. These are inner functions: the public calls `claims::step` and `run::run` test
// the tables and come here.
#![tactic(auto)]

ghost use Rattle.std.specs.Prelude.{◌≡◌, true, ◌<◌};
ghost use Rattle.rules.specs.Tables.{tables, seat_count_of, phase};
ghost use Rattle.rules.specs.Shape.{sound};
ghost use Rattle.rules.specs.Answers.{done};
ghost use Rattle.rules.specs.Means.{means_done};
ghost use Rattle.rules.specs.Steps as rule;
ghost use Rattle.rules.specs.Calls as call;
ghost use Rattle.phases.specs.Parts as part;

use rules::{Claim, Profile, Refused};

// phase 6: fetch again with the same claim, or 8
fn fetch_again<P: Profile>(nodes: &mut [u32], seats: &mut [u32], s: u32) -> Result<(), Refused>
    requires tables_sound { sound (tables P.SHEET nodes.old seats.old) ≡ true }
    requires is_withdrawn { phase (tables P.SHEET nodes.old seats.old) s ≡ 6 }
    ensures { done (means_done result) (tables P.SHEET nodes.new seats.new) ≡ part.unanswered (rule.withdrawn (tables P.SHEET nodes.old seats.old) s) }
{
    let own = words::seat_word::<P>(seats, s, words::OWN);
    let claim = words::node_claim::<P>(nodes, own);
    match fetch::fetch::<P>(nodes, seats, s, claim) {
        Some(_) => Ok(()),
        None => Err(Refused::NoNodeFree),
    }
}

// The phase decides the step, in the form that 01 asks for: its word copied to a local and matched over its numbers, refusals by ranges, each arm one small
// function. All but fetch, which looks at every seat, are lent the seat's own words.
fn step_by_phase<P: Profile>(nodes: &mut [u32], seats: &mut [u32], s: u32) -> Result<(), Refused>
    requires tables_sound { sound (tables P.SHEET nodes.old seats.old) ≡ true }
    requires has_seat { s < seat_count_of P.SHEET seats.old }
    ensures { done (means_done result) (tables P.SHEET nodes.new seats.new) ≡ part.unanswered (part.step_busy (tables P.SHEET nodes.old seats.old) s) }
{
    let phase = words::seat_word_within::<P>(seats, s, words::PHASE);
    let start = words::seat_start::<P>(s);
    let end = words::seat_end::<P>(s);
    match phase {
        0 => Err(Refused::HasNoClaim),
        1 => {
            steps::walk::<P>(nodes, &mut seats[start..end]);
            Ok(())
        }
        2 => {
            steps::wait_to_enter::<P>(nodes, &mut seats[start..end]);
            Ok(())
        }
        3 => {
            steps::validate::<P>(nodes, &mut seats[start..end]);
            Ok(())
        }
        4 => {
            steps::wait_as_reader::<P>(nodes, &mut seats[start..end]);
            Ok(())
        }
        5 => Ok(()),
        6 => fetch_again::<P>(nodes, seats, s),
        7 => {
            steps::enter::<P>(nodes, &mut seats[start..end]);
            Ok(())
        }
        8..=4294967295 => Err(Refused::Damaged),
    }
}

// Whether there is such a seat is asked here, for run too, so that no read or store of its words asks again.
pub fn step_known<P: Profile>(nodes: &mut [u32], seats: &mut [u32], s: u32) -> Result<(), Refused>
    requires { sound (tables P.SHEET nodes.old seats.old) ≡ true }
    ensures { done (means_done result) (tables P.SHEET nodes.new seats.new) ≡ part.unanswered (call.step (tables P.SHEET nodes.old seats.old) s) }
{
    if (s as usize) < words::seat_count::<P>(seats) {
        return step_by_phase::<P>(nodes, seats, s);
    }
    Err(Refused::NoSuchSeat)
}
