// The holders of sound tables: how many there are, the row of each, and the frames that they cover. The board and the program's closing lines walk over
// them. A holder of sound tables owns a node of the table, so no read is tested.
#![tactic(auto)]

ghost use Rattle.std.specs.Prelude.{◌≡◌, ◌<◌, ◌≤◌, []};
ghost use Rattle.rules.specs.Notation.{◌is◌};
ghost use Rattle.rules.specs.Tables.{tables, seat_count_of, seat_count, phase};
ghost use Rattle.rules.specs.Board.{row_of, covered_by};
ghost use Rattle.rules.specs.Board as rule;
ghost use Rattle.rules.specs.Apart.{Holds};
ghost use Rattle.holders.specs.Holding.{holding};

use covering::Runs;
use rules::{Profile, Row};
use words::Sound;

// whether a seat holds
pub fn holds<P: Profile>(tables: &Sound<P>, s: u32) -> bool
    requires { s < seat_count tables.now }
    ensures { result ≡ (phase tables.now s is 5) }
{
    tables.seat_word(s, words::PHASE) == 5
}

fn holds_in<P: Profile>(seats: &[u32], s: u32) -> bool
    requires { s < seat_count_of P.SHEET seats.now }
    ensures { result ≡ (phase (tables P.SHEET [] seats.now) s is 5) }
{
    words::seat_word_within::<P>(seats, s, words::PHASE) == 5
}

// how many of the first seats hold, of any table of seats
pub fn count<P: Profile>(seats: &[u32], below: u32) -> u32
    requires { below ≤ seat_count_of P.SHEET seats.now }
    ensures { result ≡ holding P.SHEET seats.now below }
{
    let mut found: u32 = 0;
    for s in 0..below {
        if holds_in::<P>(seats, s) {
            found += 1;
        }
    }
    found
}

// how many seats hold
pub fn number<P: Profile>(tables: &Sound<P>) -> u32
    ensures { result ≡ holding tables.now.sheet tables.now.seats (seat_count tables.now) }
{
    count::<P>(tables.seats(), tables.seat_count())
}

// the row of a holder
#[tactic(auto, using(crate::proofs::Owned::held_seat, crate::proofs::Owned::held_node, crate::proofs::Owned::held_within))]
pub fn row_of<P: Profile>(tables: &Sound<P>, s: u32) -> Row
    requires { Holds tables.now s }
    ensures { result ≡ row_of tables.now s }
{
    tables.are_sound();
    let own = tables.seat_word(s, words::OWN);
    Row {
        seat: s,
        first: tables.node_word(own, words::START),
        end: tables.node_word(own, words::END),
        kind: tables.node_word(own, words::KIND),
    }
}

// The frames that the holders cover, each counted once: their runs are put in order as they are met.
pub fn covered<P: Profile>(tables: &Sound<P>) -> u64
    ensures { result ≡ covered_by (rule.holders tables.now) }
{
    let mut runs = Runs::none();
    for seat in 0..tables.seat_count() {
        if holds(tables, seat) {
            let row = row_of(tables, seat);
            runs.put(row.first, row.end);
        }
    }
    runs.covered()
}
