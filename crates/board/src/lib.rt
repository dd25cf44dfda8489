// The board on a lent list of numbers, four to a row: seat, first frame, end frame, kind. That there is room for every row is known before
// the first is stored, so that a refusal stores nothing.
#![tactic(auto)]

ghost use Rattle.std.specs.Prelude.{◌≡◌, ◌+◌, ◌*◌, ◌≤◌, ◌++◌, length, drop};
ghost use Rattle.rules.specs.Notation.{◌≤?◌};
ghost use Rattle.rules.specs.Tables.{tables};
ghost use Rattle.rules.specs.Board.{holders, numbers_of, row_width, shown, board_numbers};
ghost use Rattle.rules.specs.Means.{means_board};
ghost use Rattle.board.specs.Filling.{put_row};

use rules::{Filled, Profile, Refused, Row};
use words::Sound;

// Whether every holder has room for its row. A caller that lends one for each seat pays for no count.
#[tactic(auto, using(crate::proofs::Rows::room_for_each, holders::proofs::Rows::holders_counted))]
fn has_room<P: Profile>(tables: &Sound<P>, room: usize) -> bool
    ensures { result ≡ (length (holders tables.now) ≤? room) }
{
    tables.seat_count() as usize <= room || holders::number(tables) as usize <= room
}

fn put_row(out: &mut [u32], at: usize, row: Row)
    requires { at + row_width ≤ length out.old }
    ensures { out.new ≡ put_row out.old at row }
{
    out[at..at + 4].copy_from_slice(&[row.seat, row.first, row.end, row.kind]);
}

// every holder's row, one behind the other, and how many there are
fn fill<P: Profile>(tables: &Sound<P>, out: &mut [u32]) -> u32
    requires { row_width * length (holders tables.now) ≤ length out.old }
    ensures rows { result ≡ length (holders tables.now) }
    ensures numbers { out.new ≡ numbers_of (holders tables.now) ++ drop (row_width * length (holders tables.now)) out.old }
{
    let mut rows: u32 = 0;
    for s in 0..tables.seat_count() {
        if holders::holds(tables, s) {
            put_row(out, 4 * rows as usize, holders::row_of(tables, s));
            rows += 1;
        }
    }
    rows
}

pub fn board<P: Profile>(nodes: &[u32], seats: &[u32], out: &mut [u32]) -> Result<Filled, Refused>
    ensures { shown (means_board result) out.new ≡ board_numbers (tables P.SHEET nodes.now seats.now) out.old }
{
    if !shape::is_sound::<P>(nodes, seats) {
        return Err(Refused::Damaged);
    }
    let tables = Sound::<P>::tables(nodes, seats);
    if !has_room(&tables, out.len() / 4) {
        return Err(Refused::NoRoom);
    }
    let rows = fill(&tables, out);
    let covered = holders::covered(&tables);
    Ok(Filled { rows, covered })
}
