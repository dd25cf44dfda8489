// A script played, from its bytes to every byte that is printed, in a lent buffer.
#![tactic(auto)]

ghost use Rattle.std.specs.Prelude.{◌≡◌, false, ◌+◌, ◌*◌, ◌<◌, ◌≤◌, length, take, drop, map};
ghost use Rattle.rules.specs.Tables as table;
ghost use Rattle.rules.specs.Tables.{tables};
ghost use Rattle.rules.specs.Reach.{nodes_from};
ghost use Rattle.rules.specs.Reached.{Reached};
ghost use Rattle.rules.specs.Board as rule;
ghost use Rattle.rules.specs.Answers.{done};
ghost use Rattle.rules.specs.Means.{means};
ghost use Rattle.rules.specs.Play.{call, call_of, calls_of, after_all, trace, turns_text, numbers_text, list_text, rows_text, end_text, script_text};
ghost use Rattle.rules.specs.Play.{play as Play·play};
ghost use Rattle.script.specs.Bounded.{Bounded};
ghost use Rattle.text.specs.Page.{Prints};
ghost use Rattle.holders.specs.Holding.{held_by};
ghost use Rattle.playing.specs.Played.{read, played_text};

use rules::{Claim, Line, Ordinary, Refused, Reply, Script};
use text::Page;
use words::Sound;

// The call of one line.
#[tactic(auto, using(crate::proofs::Turns::ways))]
fn make_call(nodes: &mut [u32], seats: &mut [u32], line: Line) -> Result<Reply, Refused>
    ensures { done (means result) (tables false nodes.new seats.new) ≡ call (tables false nodes.old seats.old) (call_of line) }
{
    match line.code {
        1 => {
            let claim = Claim {
                start: line.start,
                end: line.end,
                kind: line.kind,
            };
            claims::reserve::<Ordinary>(nodes, seats, line.seat, claim)
        }
        2 => claims::step::<Ordinary>(nodes, seats, line.seat),
        3 => claims::release::<Ordinary>(nodes, seats, line.seat),
        _ => claims::enter::<Ordinary>(nodes, seats, line.seat),
    }
}

// The calls of a script, each with its line.
fn play_calls(nodes: &mut [u32], seats: &mut [u32], page: &mut Page, lines: &[Line])
    requires { length lines.now ≤ 1000 }
    ensures are_made { tables false nodes.new seats.new ≡ after_all (tables false nodes.old seats.old) (map call_of lines.now) }
    ensures is_printed { Prints page.old page.new (turns_text 1 (trace (tables false nodes.old seats.old) (map call_of lines.now))) }
    ensures at_most { page.new.at ≤ page.old.at + 43 * length lines.now }
{
    for (i, line) in lines.iter().enumerate() {
        let answer = make_call(nodes, seats, *line);
        page.put_turn(i as u32 + 1, answer);
    }
}

// ` n` for each node from a on, at most `left` of them.
fn put_listed(tables: &Sound<Ordinary>, page: &mut Page, left: usize, from: u32)
    ensures is_printed { Prints page.old page.new (numbers_text (nodes_from left tables.now from)) }
    ensures at_most { page.new.at ≤ page.old.at + 11 * left }
{
    let mut a = from;
    for _ in 0..left {
        if a == 0 {
            return;
        }
        page.put_next(a);
        a = tables.link(a);
    }
}

fn put_list(tables: &Sound<Ordinary>, page: &mut Page)
    ensures is_printed { Prints page.old page.new (list_text tables.now) }
    ensures at_most { page.new.at ≤ page.old.at + 11 * table.node_count tables.now + 5 }
{
    page.put_text(b"list");
    put_listed(tables, page, tables.node_count(), tables.link(0));
    page.put_byte(b'\n');
}

// The seat's row, if it holds.
fn put_held(tables: &Sound<Ordinary>, page: &mut Page, s: u32)
    requires { s < table.seat_count tables.now }
    ensures is_printed { Prints page.old page.new (rows_text (held_by tables.now s)) }
    ensures at_most { page.new.at ≤ page.old.at + 49 }
{
    if holders::holds(tables, s) {
        page.put_row(holders::row_of(tables, s));
    }
}

fn put_rows(tables: &Sound<Ordinary>, page: &mut Page)
    ensures is_printed { Prints page.old page.new (rows_text (rule.holders tables.now)) }
    ensures at_most { page.new.at ≤ page.old.at + 49 * table.seat_count tables.now }
{
    for s in 0..tables.seat_count() {
        put_held(tables, page, s);
    }
}

// What is printed after the calls: the list, the rows and the covered frames.
fn put_end(tables: &Sound<Ordinary>, page: &mut Page)
    ensures is_printed { Prints page.old page.new (end_text tables.now) }
    ensures at_most { page.new.at ≤ page.old.at + 11 * table.node_count tables.now + 49 * table.seat_count tables.now + 34 }
{
    put_list(tables, page);
    put_rows(tables, page);
    page.put_line(b"covered ", holders::covered(tables));
}

// The calls, and what follows them, on the tables given. They are reached, so that those after the calls are sound.
fn play_tables(nodes: &mut [u32], seats: &mut [u32], page: &mut Page, script: &Script)
    requires bounded { Bounded script.now }
    requires reached { Reached script.now.n script.now.s (tables false nodes.old seats.old) }
    ensures is_printed { Prints page.old page.new (played_text (tables false nodes.old seats.old) (calls_of (read script.now))) }
    ensures at_most { page.new.at ≤ page.old.at + 48986 }
{
    play_calls(nodes, seats, page, &script.rows[..script.k as usize]);
    put_end(&Sound::<Ordinary>::tables(nodes, seats), page);
}

// The same on fresh tables.
fn play_script(page: &mut Page, script: &Script)
    requires { Bounded script.now }
    ensures is_printed { Prints page.old page.new (script_text (read script.now)) }
    ensures at_most { page.new.at ≤ page.old.at + 48986 }
{
    let mut nodes = words::fresh_nodes(script.title);
    let mut seats = words::fresh_seats();
    let n = words::node_words::<Ordinary>(script.n);
    let s = words::seat_words::<Ordinary>(script.s);
    play_tables(&mut nodes[..n], &mut seats[..s], page, script);
}

// Every byte that the program prints for the bytes of a script, and no other byte of the buffer. The buffer has room for any: at most
// 48,986 are printed.
pub fn play(src: &[u8], out: &mut [u8; 49152]) -> usize
    ensures is_printed { take result out.new ≡ Play·play src.now }
    ensures rest_is_kept { drop result out.new ≡ drop result out.old }
    ensures is_within { (result ≤ length out.new) × (result ≡ length (take result out.new)) }
    ensures at_most { result ≤ 48986 }
{
    let mut page = Page { out, at: 0 };
    match script::read(src) {
        Ok(script) => play_script(&mut page, &script),
        Err(wrong) => page.put_line(b"bad ", u64::from(wrong.line)),
    }
    page.at
}
