// The step rules, one small function for each: what a step does in phases 1 to 5 and 7, release, and the answer from the seat's new phase, which a run
// does without. A step touches one seat, so each is lent the node table and that seat's own words, and none knows where they stand or how many seats
// there are: they are a table of the one seat, and its number there is 0. The promise of each is the rule's definition over these two; OwnWords.antt
// has that it is then the rule over the whole tables. Those that move a count ask that one more or one less is still a count, which sound tables have as a
// whole and no step sees; the others are total. Nodes and seat stay two slices: a struct that held both would have to promise, of each function, that it
// still holds the same two, beside the promise that stands here.
#![tactic(auto)]

ghost use Rattle.std.specs.Prelude.{◌≡◌, [], ◌≤◌, ◌<◌};
ghost use Rattle.rules.specs.Tables.{tables};
ghost use Rattle.rules.specs.Answers.{waiting as answer·waiting, answer_of};
ghost use Rattle.rules.specs.Means.{means};
ghost use Rattle.rules.specs.Steps as rule;
ghost use Rattle.steps.specs.Parts as part;

use rules::{Profile, Reply};

// ---- the seat alone

fn move_to<P: Profile>(seat: &mut [u32], phase: u32, prev: u32, cur: u32)
    ensures { seat.new ≡ (rule.move_to (tables P.SHEET [] seat.old) 0 phase prev cur).seats }
{
    words::put_field::<P>(seat, words::PHASE, phase);
    words::put_field::<P>(seat, words::PREV, prev);
    words::put_field::<P>(seat, words::CUR, cur);
}

fn pass<P: Profile>(nodes: &[u32], seat: &mut [u32])
    ensures { tables P.SHEET nodes.now seat.new ≡ rule.pass (tables P.SHEET nodes.now seat.old) 0 }
{
    let cur = words::field::<P>(seat, words::CUR);
    let next = words::link::<P>(nodes, cur);
    words::put_field::<P>(seat, words::PREV, cur);
    words::put_field::<P>(seat, words::CUR, next);
}

// ---- hold

// the kind of a seat's claim
fn kind_of<P: Profile>(nodes: &[u32], seat: &[u32]) -> u32
    ensures { result ≡ rule.kind_of (tables P.SHEET nodes.now seat.now) 0 }
{
    let own = words::field::<P>(seat, words::OWN);
    words::node_word::<P>(nodes, own, words::KIND)
}

fn hold<P: Profile>(nodes: &mut [u32], seat: &mut [u32])
    requires { part.count_of_kind (tables P.SHEET nodes.old seat.old) 0 < 4294967295 }
    ensures { tables P.SHEET nodes.new seat.new ≡ rule.hold (tables P.SHEET nodes.old seat.old) 0 }
{
    let kind = kind_of::<P>(nodes, seat);
    let count = words::count_word::<P>(nodes, kind);
    move_to::<P>(seat, 5, 0, 0);
    words::put_count::<P>(nodes, kind, count + 1);
}

// ---- unlink

// prev is 0 or unmarked, and its link is cur
fn is_joined<P: Profile>(nodes: &[u32], seat: &[u32]) -> bool
    ensures { result ≡ rule.joined (tables P.SHEET nodes.now seat.now) 0 }
{
    let prev = words::field::<P>(seat, words::PREV);
    let cur = words::field::<P>(seat, words::CUR);
    let mark = words::node_word::<P>(nodes, prev, words::MARK);
    let link = words::link::<P>(nodes, prev);
    !(mark == 1) & (link == cur)
}

fn skip<P: Profile>(nodes: &[u32], seat: &mut [u32])
    ensures { tables P.SHEET nodes.now seat.new ≡ part.skip (tables P.SHEET nodes.now seat.old) 0 }
{
    let cur = words::field::<P>(seat, words::CUR);
    let next = words::link::<P>(nodes, cur);
    words::put_field::<P>(seat, words::CUR, next);
}

fn skip_and_link<P: Profile>(nodes: &mut [u32], seat: &mut [u32])
    ensures { tables P.SHEET nodes.new seat.new ≡ part.skip_and_link (tables P.SHEET nodes.old seat.old) 0 }
{
    let prev = words::field::<P>(seat, words::PREV);
    let cur = words::field::<P>(seat, words::CUR);
    let next = words::link::<P>(nodes, cur);
    words::put_link::<P>(nodes, prev, next);
    words::put_field::<P>(seat, words::CUR, next);
}

fn unlink<P: Profile>(nodes: &mut [u32], seat: &mut [u32])
    ensures { tables P.SHEET nodes.new seat.new ≡ rule.unlink (tables P.SHEET nodes.old seat.old) 0 }
{
    if is_joined::<P>(nodes, seat) {
        skip_and_link::<P>(nodes, seat);
        return;
    }
    skip::<P>(nodes, seat);
}

// ---- insert

fn link_in<P: Profile>(nodes: &mut [u32], seat: &[u32])
    ensures { tables P.SHEET nodes.new seat.now ≡ rule.link_in (tables P.SHEET nodes.old seat.now) 0 }
{
    let own = words::field::<P>(seat, words::OWN);
    let prev = words::field::<P>(seat, words::PREV);
    let cur = words::field::<P>(seat, words::CUR);
    words::put_link::<P>(nodes, own, cur);
    words::put_link::<P>(nodes, prev, own);
}

fn start_validating<P: Profile>(nodes: &[u32], seat: &mut [u32])
    ensures { tables P.SHEET nodes.now seat.new ≡ rule.start_validating (tables P.SHEET nodes.now seat.old) 0 }
{
    let own = words::field::<P>(seat, words::OWN);
    if words::node_word::<P>(nodes, own, words::KIND) == 1 {
        let next = words::link::<P>(nodes, own);
        move_to::<P>(seat, 3, own, next);
        return;
    }
    let head = words::link::<P>(nodes, 0);
    move_to::<P>(seat, 3, 0, head);
}

// validation starts; on a sheet the claim holds at once
fn once_linked<P: Profile>(nodes: &mut [u32], seat: &mut [u32])
    requires { part.count_of_kind (tables P.SHEET nodes.old seat.old) 0 < 4294967295 }
    ensures { tables P.SHEET nodes.new seat.new ≡ rule.once_linked (tables P.SHEET nodes.old seat.old) 0 }
{
    if P::SHEET {
        hold::<P>(nodes, seat);
        return;
    }
    start_validating::<P>(nodes, seat);
}

fn look_again<P: Profile>(nodes: &[u32], seat: &mut [u32])
    ensures { tables P.SHEET nodes.now seat.new ≡ rule.look_again (tables P.SHEET nodes.now seat.old) 0 }
{
    let prev = words::field::<P>(seat, words::PREV);
    if words::node_word::<P>(nodes, prev, words::MARK) == 1 {
        let head = words::link::<P>(nodes, 0);
        words::put_field::<P>(seat, words::PREV, 0);
        words::put_field::<P>(seat, words::CUR, head);
        return;
    }
    let link = words::link::<P>(nodes, prev);
    words::put_field::<P>(seat, words::CUR, link);
}

fn insert<P: Profile>(nodes: &mut [u32], seat: &mut [u32])
    requires { part.count_of_kind (tables P.SHEET nodes.old seat.old) 0 < 4294967295 }
    ensures { tables P.SHEET nodes.new seat.new ≡ rule.insert (tables P.SHEET nodes.old seat.old) 0 }
{
    if is_joined::<P>(nodes, seat) {
        link_in::<P>(nodes, seat);
        once_linked::<P>(nodes, seat);
        return;
    }
    look_again::<P>(nodes, seat);
}

// ---- phase 1

fn walk_by_comparison<P: Profile>(nodes: &mut [u32], seat: &mut [u32])
    requires { part.count_of_kind (tables P.SHEET nodes.old seat.old) 0 < 4294967295 }
    ensures { tables P.SHEET nodes.new seat.new ≡ part.walk_by_comparison (tables P.SHEET nodes.old seat.old) 0 }
{
    let own = words::field::<P>(seat, words::OWN);
    let cur = words::field::<P>(seat, words::CUR);
    let way = comparison::compare_nodes::<P>(nodes, cur, own);
    if way == 0 {
        words::put_field::<P>(seat, words::PHASE, 2);
        return;
    }
    if way < 0 {
        insert::<P>(nodes, seat);
        return;
    }
    pass::<P>(nodes, seat);
}

pub fn walk<P: Profile>(nodes: &mut [u32], seat: &mut [u32])
    requires { part.count_of_kind (tables P.SHEET nodes.old seat.old) 0 < 4294967295 }
    ensures { tables P.SHEET nodes.new seat.new ≡ rule.walking (tables P.SHEET nodes.old seat.old) 0 }
{
    let cur = words::field::<P>(seat, words::CUR);
    if cur == 0 {
        insert::<P>(nodes, seat);
        return;
    }
    if words::node_word::<P>(nodes, cur, words::MARK) == 1 {
        unlink::<P>(nodes, seat);
        return;
    }
    walk_by_comparison::<P>(nodes, seat);
}

// ---- phases 2 and 4

// cur marked: on to a phase; else nothing
fn wake<P: Profile>(nodes: &[u32], seat: &mut [u32], to: u32)
    ensures { tables P.SHEET nodes.now seat.new ≡ part.wake_to to (tables P.SHEET nodes.now seat.old) 0 }
{
    let cur = words::field::<P>(seat, words::CUR);
    if words::node_word::<P>(nodes, cur, words::MARK) == 1 {
        words::put_field::<P>(seat, words::PHASE, to);
    }
}

pub fn wait_to_enter<P: Profile>(nodes: &[u32], seat: &mut [u32])
    ensures { tables P.SHEET nodes.now seat.new ≡ rule.waiting_to_enter (tables P.SHEET nodes.now seat.old) 0 }
{
    wake::<P>(nodes, seat, 1);
}

pub fn wait_as_reader<P: Profile>(nodes: &[u32], seat: &mut [u32])
    ensures { tables P.SHEET nodes.now seat.new ≡ rule.reader_waiting (tables P.SHEET nodes.now seat.old) 0 }
{
    wake::<P>(nodes, seat, 3);
}

// ---- phase 3, a reader

// cur 0, or cur.start ≥ own.end
fn is_past<P: Profile>(nodes: &[u32], seat: &[u32]) -> bool
    ensures { result ≡ part.is_past (tables P.SHEET nodes.now seat.now) 0 }
{
    let own = words::field::<P>(seat, words::OWN);
    let cur = words::field::<P>(seat, words::CUR);
    let end = words::node_word::<P>(nodes, own, words::END);
    let start = words::node_word::<P>(nodes, cur, words::START);
    (cur == 0) | (end <= start)
}

fn read_on<P: Profile>(nodes: &mut [u32], seat: &mut [u32])
    ensures { tables P.SHEET nodes.new seat.new ≡ part.read_on (tables P.SHEET nodes.old seat.old) 0 }
{
    let cur = words::field::<P>(seat, words::CUR);
    if words::node_word::<P>(nodes, cur, words::MARK) == 1 {
        unlink::<P>(nodes, seat);
        return;
    }
    if words::node_word::<P>(nodes, cur, words::KIND) == 1 {
        pass::<P>(nodes, seat);
        return;
    }
    words::put_field::<P>(seat, words::PHASE, 4);
}

fn validate_reader<P: Profile>(nodes: &mut [u32], seat: &mut [u32])
    requires { part.count_of_kind (tables P.SHEET nodes.old seat.old) 0 < 4294967295 }
    ensures { tables P.SHEET nodes.new seat.new ≡ rule.reader_validating (tables P.SHEET nodes.old seat.old) 0 }
{
    if is_past::<P>(nodes, seat) {
        hold::<P>(nodes, seat);
        return;
    }
    read_on::<P>(nodes, seat);
}

// ---- phase 3, a writer

fn withdraw<P: Profile>(nodes: &mut [u32], seat: &mut [u32])
    ensures { tables P.SHEET nodes.new seat.new ≡ rule.withdraw (tables P.SHEET nodes.old seat.old) 0 }
{
    let own = words::field::<P>(seat, words::OWN);
    words::put_node::<P>(nodes, own, words::MARK, 1);
    move_to::<P>(seat, 6, 0, 0);
}

// cur.end ≤ own.start
fn ends_before<P: Profile>(nodes: &[u32], seat: &[u32]) -> bool
    ensures { result ≡ part.ends_before (tables P.SHEET nodes.now seat.now) 0 }
{
    let own = words::field::<P>(seat, words::OWN);
    let cur = words::field::<P>(seat, words::CUR);
    let end = words::node_word::<P>(nodes, cur, words::END);
    let start = words::node_word::<P>(nodes, own, words::START);
    end <= start
}

fn write_on<P: Profile>(nodes: &mut [u32], seat: &mut [u32])
    ensures { tables P.SHEET nodes.new seat.new ≡ part.write_on (tables P.SHEET nodes.old seat.old) 0 }
{
    let cur = words::field::<P>(seat, words::CUR);
    if words::node_word::<P>(nodes, cur, words::MARK) == 1 {
        unlink::<P>(nodes, seat);
        return;
    }
    if ends_before::<P>(nodes, seat) {
        pass::<P>(nodes, seat);
        return;
    }
    withdraw::<P>(nodes, seat);
}

fn validate_writer<P: Profile>(nodes: &mut [u32], seat: &mut [u32])
    requires { part.count_of_kind (tables P.SHEET nodes.old seat.old) 0 < 4294967295 }
    ensures { tables P.SHEET nodes.new seat.new ≡ rule.writer_validating (tables P.SHEET nodes.old seat.old) 0 }
{
    let own = words::field::<P>(seat, words::OWN);
    let cur = words::field::<P>(seat, words::CUR);
    if cur == own {
        hold::<P>(nodes, seat);
        return;
    }
    if cur == 0 {
        withdraw::<P>(nodes, seat);
        return;
    }
    write_on::<P>(nodes, seat);
}

pub fn validate<P: Profile>(nodes: &mut [u32], seat: &mut [u32])
    requires { part.count_of_kind (tables P.SHEET nodes.old seat.old) 0 < 4294967295 }
    ensures { tables P.SHEET nodes.new seat.new ≡ rule.validating (tables P.SHEET nodes.old seat.old) 0 }
{
    let own = words::field::<P>(seat, words::OWN);
    if words::node_word::<P>(nodes, own, words::KIND) == 1 {
        validate_reader::<P>(nodes, seat);
        return;
    }
    validate_writer::<P>(nodes, seat);
}

// ---- release

// own is marked and the seat idle
fn mark_and_clear<P: Profile>(nodes: &mut [u32], seat: &mut [u32])
    ensures { tables P.SHEET nodes.new seat.new ≡ part.mark_and_clear (tables P.SHEET nodes.old seat.old) 0 }
{
    let own = words::field::<P>(seat, words::OWN);
    words::put_node::<P>(nodes, own, words::MARK, 1);
    words::clear_seat::<P>(seat);
}

// of a seat that holds
pub fn leave<P: Profile>(nodes: &mut [u32], seat: &mut [u32])
    requires { 1 ≤ part.count_of_kind (tables P.SHEET nodes.old seat.old) 0 }
    ensures { tables P.SHEET nodes.new seat.new ≡ rule.leave (tables P.SHEET nodes.old seat.old) 0 }
{
    let kind = kind_of::<P>(nodes, seat);
    let count = words::count_word::<P>(nodes, kind);
    mark_and_clear::<P>(nodes, seat);
    words::put_count::<P>(nodes, kind, count - 1);
}

// ---- phase 7

// the head is read, and the walk starts there; prev is 0 already
pub fn enter<P: Profile>(nodes: &[u32], seat: &mut [u32])
    ensures { tables P.SHEET nodes.now seat.new ≡ rule.entering (tables P.SHEET nodes.now seat.old) 0 }
{
    let first = words::link::<P>(nodes, 0);
    words::put_field::<P>(seat, words::PHASE, 1);
    words::put_field::<P>(seat, words::CUR, first);
}

// ---- the answer from the seat's new phase

// where the seat waits, and for which frames: what the claim there and its own share
fn waiting<P: Profile>(nodes: &[u32], seat: &[u32]) -> Reply
    ensures { means (Ok result) ≡ answer·waiting (tables P.SHEET nodes.now seat.now) 0 }
{
    let own = words::field::<P>(seat, words::OWN);
    let cur = words::field::<P>(seat, words::CUR);
    let run = comparison::shared_by_nodes::<P>(nodes, cur, own);
    Reply::Wait(cur, run.first, run.end)
}

pub fn answer<P: Profile>(nodes: &[u32], seat: &[u32]) -> Reply
    ensures { means (Ok result) ≡ answer_of (tables P.SHEET nodes.now seat.now) 0 }
{
    let phase = words::field::<P>(seat, words::PHASE);
    match phase {
        2 | 4 => waiting::<P>(nodes, seat),
        5 => Reply::Held,
        6 => Reply::Back,
        _ => Reply::On,
    }
}
