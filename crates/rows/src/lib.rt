// The board on a lent list of rows: a thin function over `holders`, which counts, reads each row and knows what they cover. Refusals are
// known before the first row is stored.
#![tactic(auto)]

ghost use Rattle.std.specs.Prelude.{◌≡◌, ◌≤◌, ◌++◌, length, drop};
ghost use Rattle.rules.specs.Tables.{tables};
ghost use Rattle.rules.specs.Board.{holders, shown, board};
ghost use Rattle.rules.specs.Means.{means_board};
ghost use Rattle.rows.specs.Filling.{no_rows};

use rules::{Filled, Profile, Refused, Row};
use words::Sound;

// every holder's row, one behind the other; later rows stay
fn fill<P: Profile>(tables: &Sound<P>, rows: &mut [Row])
    requires { length (holders tables.now) ≤ length rows.old }
    ensures { rows.new ≡ holders tables.now ++ drop (length (holders tables.now)) rows.old }
{
    let mut at: usize = 0;
    for s in 0..tables.seat_count() {
        if holders::holds(tables, s) {
            rows[at] = holders::row_of(tables, s);
            at += 1;
        }
    }
}

pub fn show<P: Profile>(rows: &mut [Row], nodes: &[u32], seats: &[u32]) -> Result<Filled, Refused>
    ensures { shown (means_board result) rows.new ≡ board (tables P.SHEET nodes.now seats.now) rows.old }
{
    if !shape::is_sound::<P>(nodes, seats) {
        return Err(Refused::Damaged);
    }
    let tables = Sound::<P>::tables(nodes, seats);
    let count = holders::number(&tables);
    if rows.len() < count as usize {
        return Err(Refused::NoRoom);
    }
    fill(&tables, rows);
    let covered = holders::covered(&tables);
    Ok(Filled {
        rows: count,
        covered,
    })
}

// The board by value, for a caller that lends no rows: there is one for each seat, and what is not shown is 0.
#[derive(Clone, Copy)]
pub struct Board {
    pub rows: [Row; 64],
    pub reply: Result<Filled, Refused>,
}

pub fn show_all<P: Profile>(nodes: &[u32], seats: &[u32]) -> Board
    ensures { shown (means_board result.reply) result.rows ≡ board (tables P.SHEET nodes.now seats.now) no_rows }
{
    let none = Row {
        seat: 0,
        first: 0,
        end: 0,
        kind: 0,
    };
    let mut rows = [none; 64];
    let reply = show::<P>(&mut rows, nodes, seats);
    Board { rows, reply }
}
