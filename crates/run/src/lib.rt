// Run: a lent list of seat numbers, stepped in order within a budget.
#![tactic(auto)]

ghost use Rattle.std.specs.Prelude.{◌≡◌, true, [], ◌≤◌};
ghost use Rattle.rules.specs.Tables.{tables};
ghost use Rattle.rules.specs.Shape.{nodes_fit, sound};
ghost use Rattle.rules.specs.Answers.{done};
ghost use Rattle.rules.specs.Means.{means_run};
ghost use Rattle.rules.specs.Run as rule;
ghost use Rattle.run.specs.Parts as part;

use rules::{Profile, Ran, Refused};

// After an accepted step by which a seat's phase changed from one to the other. Only the step that links own in, from phase 1 to 3 or, on a sheet, to 5, can
// leave sound tables damaged, and then it is their list that does not end: no other word is looked at again.
fn is_kept_sound<P: Profile>(nodes: &[u32], before: u32, after: u32) -> bool
    requires { nodes_fit (tables P.SHEET nodes.now []) ≡ true }
    ensures { result ≡ part.kept_sound (tables P.SHEET nodes.now []) before after }
{
    if (before == 1) & ((after == 3) | (after == 5)) {
        return shape::list_ends::<P>(nodes);
    }
    true
}

// The answer of a run whose tables are found damaged after so many steps: its next entry is refused, if there is one.
fn stop_at_damage(steps: u32, entries: usize, budget: u32) -> Ran
    ensures { means_run result ≡ part.stop_at_damage steps entries budget }
{
    if (steps == budget) | (entries <= steps as usize) {
        return Ran {
            steps,
            refusal: None,
        };
    }
    Ran {
        steps,
        refusal: Some(Refused::Damaged),
    }
}

// The tables are sound whenever an entry is stepped, so that none tests them. Whether there is such a seat is asked here, so that its phase
// can be read before and after the step.
fn run_steps<P: Profile>(nodes: &mut [u32], seats: &mut [u32], schedule: &[u32], budget: u32) -> Ran
    requires { sound (tables P.SHEET nodes.old seats.old) ≡ true }
    ensures { done (means_run result) (tables P.SHEET nodes.new seats.new) ≡ rule.run_steps budget (tables P.SHEET nodes.old seats.old) schedule.now }
{
    let mut steps: u32 = 0;
    // 01 asks for a loop over the schedule that is left by `break` with the count and the refusal from its inside
    loop {
        if steps == budget {
            break Ran {
                steps,
                refusal: None,
            };
        }
        if schedule.len() <= steps as usize {
            break Ran {
                steps,
                refusal: None,
            };
        }
        let s = schedule[steps as usize];
        let count = words::seat_count::<P>(seats) as u32;
        if count <= s {
            break Ran {
                steps,
                refusal: Some(Refused::NoSuchSeat),
            };
        }
        let before = words::seat_word_within::<P>(seats, s, words::PHASE);
        if let Err(why) = phases::step_known::<P>(nodes, seats, s) {
            break Ran {
                steps,
                refusal: Some(why),
            };
        }
        let after = words::seat_word_within::<P>(seats, s, words::PHASE);
        steps += 1;
        if !is_kept_sound::<P>(nodes, before, after) {
            break stop_at_damage(steps, schedule.len(), budget);
        }
    }
}

pub fn run<P: Profile>(nodes: &mut [u32], seats: &mut [u32], schedule: &[u32], budget: u32) -> Ran
    ensures { done (means_run result) (tables P.SHEET nodes.new seats.new) ≡ rule.run (tables P.SHEET nodes.old seats.old) schedule.now budget }
{
    if shape::is_sound::<P>(nodes, seats) {
        return run_steps::<P>(nodes, seats, schedule, budget);
    }
    Ran {
        steps: 0,
        refusal: Some(Refused::Damaged),
    }
}
