// The words of the two tables: the only code that knows where a word stands. Each read and each store is total, as its definition is:
// a read past the end is 0, a store past the end does nothing, and node 0 has only zeros but for its link, the head. `P` is the tables' profile:
// of all code these functions alone look at it for where a word stands, and they choose a number by it and never a way. Nodes and seats are named by
// their numbers, since they lie in tables that C lends.
#![tactic(auto)]

ghost use Rattle.std.specs.Prelude.{◌≡◌, length, get_or, set, drop, true, false, [], ◌+◌, ◌-◌, ◌*◌, ◌<◌, ◌≤◌};
ghost use Rattle.rules.specs.Tables as table;
ghost use Rattle.rules.specs.Tables.{tables, title_at, put_top, count_at, before_nodes, node_width, seat_width, node_word, put_node, link_word, put_link, count_word, set_count, seat_word, put_seat, clear_words, node_count_of, seat_count_of, zeros};
ghost use Rattle.rules.specs.Comparison.{claim_of};
ghost use Rattle.rules.specs.Means.{means_claim};
ghost use Rattle.rules.specs.Shape.{nodes_fit, seats_fit, sound};
ghost use Rattle.words.specs.Parts.{with_zeros};

use rules::{Claim, Profile};
use std::marker::{Model, PhantomData};

// Where the words of a node stand in it.
pub const START: u32 = 0;

pub const END: u32 = 1;

pub const KIND: u32 = 2;

pub const NEXT: u32 = 3;

pub const MARK: u32 = 4;

// Where the words of a seat stand in it. The phase stays a number wherever it is looked at: 01 asks that its word is copied to a local and matched over
// its numbers, refusals by ranges.
pub const PHASE: u32 = 0;

pub const OWN: u32 = 1;

pub const PREV: u32 = 2;

pub const CUR: u32 = 3;

const HEAD: usize = 0;

const READERS: usize = 1;

const WRITERS: usize = 2;

const TITLE: usize = 3;

const NODE_WIDTH: usize = 5;

// How many words stand before node 1 and in a seat: of the ordinary tables, and of a writers' sheet.
const BEFORE_NODES: usize = 4;

const SHEET_BEFORE_NODES: usize = 4;

const SEAT_WIDTH: usize = 4;

const SHEET_SEAT_WIDTH: usize = 4;

fn before_nodes<P: Profile>() -> usize
    ensures words { result ≡ before_nodes P.SHEET }
    ensures few { result ≤ 8 }
{
    if P::SHEET {
        SHEET_BEFORE_NODES
    } else {
        BEFORE_NODES
    }
}

fn seat_width<P: Profile>() -> usize
    ensures words { result ≡ seat_width P.SHEET }
    ensures few { result ≤ 8 }
{
    if P::SHEET {
        SHEET_SEAT_WIDTH
    } else {
        SEAT_WIDTH
    }
}

// ---- where a word stands: nothing else adds up a place. Each is told to be small, so that no caller has to show that a place fits.

// of a node that is not 0, in the part from node 1 on
fn part_place(a: u32, field: u32) -> usize
    requires { a ≡ 0 → ⊥ }
    ensures place { result ≡ node_width * (a - 1) + field }
    ensures small { result < 30064771072 }
{
    NODE_WIDTH * (a - 1) as usize + field as usize
}

// and in the whole table
fn node_place<P: Profile>(a: u32, field: u32) -> usize
    requires { a ≡ 0 → ⊥ }
    ensures place { result ≡ before_nodes P.SHEET + node_width * (a - 1) + field }
    ensures small { result < 34359738368 }
{
    before_nodes::<P>() + part_place(a, field)
}

// of a seat
fn seat_place<P: Profile>(s: u32, field: u32) -> usize
    ensures place { result ≡ seat_width P.SHEET * s + field }
    ensures small { result < 68719476736 }
{
    seat_width::<P>() * s as usize + field as usize
}

// of the count of those who hold with a claim of this kind
fn count_place(kind: u32) -> usize
    ensures { result ≡ count_at kind }
{
    if kind == 1 {
        return READERS;
    }
    WRITERS
}

// ---- the words of any table

fn word(table: &[u32], at: usize) -> u32
    ensures { result ≡ get_or table.now at 0 }
{
    if at < table.len() { table[at] } else { 0 }
}

fn put(table: &mut [u32], at: usize, value: u32)
    ensures { table.new ≡ set table.old at value }
{
    if at < table.len() {
        table[at] = value;
    }
}

// ---- the words of the nodes

pub fn node_word<P: Profile>(nodes: &[u32], a: u32, field: u32) -> u32
    ensures { result ≡ node_word P.SHEET nodes.now a field }
{
    if a == 0 {
        return 0;
    }
    word(nodes, node_place::<P>(a, field))
}

// a word of a node that the table has
pub fn node_word_within<P: Profile>(nodes: &[u32], a: u32, field: u32) -> u32
    requires is_node { a ≡ 0 → ⊥ }
    requires has_node { a ≤ node_count_of P.SHEET nodes.now }
    requires has_word { field < node_width }
    ensures { result ≡ node_word P.SHEET nodes.now a field }
{
    nodes[node_place::<P>(a, field)]
}

// the claim that a node has
pub fn node_claim<P: Profile>(nodes: &[u32], a: u32) -> Claim
    ensures { means_claim result ≡ claim_of (tables P.SHEET nodes.now []) a }
{
    Claim {
        start: node_word::<P>(nodes, a, START),
        end: node_word::<P>(nodes, a, END),
        kind: node_word::<P>(nodes, a, KIND),
    }
}

pub fn put_node<P: Profile>(nodes: &mut [u32], a: u32, field: u32, value: u32)
    ensures { nodes.new ≡ put_node P.SHEET nodes.old a field value }
{
    if a == 0 {
        return;
    }
    put(nodes, node_place::<P>(a, field), value);
}

pub fn link<P: Profile>(nodes: &[u32], a: u32) -> u32
    ensures { result ≡ link_word P.SHEET nodes.now a }
{
    if a == 0 {
        return word(nodes, HEAD);
    }
    node_word::<P>(nodes, a, NEXT)
}

// the next of a node that the table has
pub fn next_within<P: Profile>(nodes: &[u32], a: u32) -> u32
    requires is_node { a ≡ 0 → ⊥ }
    requires has_node { a ≤ node_count_of P.SHEET nodes.now }
    ensures { result ≡ link_word P.SHEET nodes.now a }
{
    node_word_within::<P>(nodes, a, NEXT)
}

pub fn put_link<P: Profile>(nodes: &mut [u32], a: u32, value: u32)
    ensures { nodes.new ≡ put_link P.SHEET nodes.old a value }
{
    if a == 0 {
        put(nodes, HEAD, value);
        return;
    }
    put_node::<P>(nodes, a, NEXT, value);
}

// ---- the words of the nodes in the part from node 1 on, where no place hangs on how many words stand before it: what reads them takes the profile for
// its promise alone

pub fn from_first_node<P: Profile>(nodes: &[u32]) -> &[u32]
    requires { before_nodes P.SHEET ≤ length nodes.now }
    ensures { result.now ≡ drop (before_nodes P.SHEET) nodes.now }
{
    let before = before_nodes::<P>();
    &nodes[before..]
}

// a word of a node that the part has
pub fn part_word<P: Profile>(part: &[u32], a: u32, field: u32) -> u32
    requires is_node { a ≡ 0 → ⊥ }
    requires has_node { a ≤ node_count_of P.SHEET (with_zeros P.SHEET part.now) }
    requires has_word { field < node_width }
    ensures { result ≡ node_word P.SHEET (with_zeros P.SHEET part.now) a field }
{
    part[part_place(a, field)]
}

// and its next
pub fn part_next<P: Profile>(part: &[u32], a: u32) -> u32
    requires is_node { a ≡ 0 → ⊥ }
    requires has_node { a ≤ node_count_of P.SHEET (with_zeros P.SHEET part.now) }
    ensures { result ≡ link_word P.SHEET (with_zeros P.SHEET part.now) a }
{
    part_word::<P>(part, a, NEXT)
}

// ---- the two counts: how many hold with a claim of this kind

pub fn count_word<P: Profile>(nodes: &[u32], kind: u32) -> u32
    ensures { result ≡ count_word (tables P.SHEET nodes.now []) kind }
{
    word(nodes, count_place(kind))
}

pub fn put_count<P: Profile>(nodes: &mut [u32], kind: u32, value: u32)
    ensures { nodes.new ≡ (set_count (tables P.SHEET nodes.old []) kind value).nodes }
{
    put(nodes, count_place(kind), value);
}

// ---- the title's frame count

pub fn title<P: Profile>(nodes: &[u32]) -> u32
    ensures { result ≡ table.title (tables P.SHEET nodes.now []) }
{
    word(nodes, TITLE)
}

pub fn put_title(nodes: &mut [u32], frames: u32)
    ensures { nodes.new ≡ put_top nodes.old title_at frames }
{
    put(nodes, TITLE, frames);
}

// ---- the words of the seats

// a word of a seat that the table has
pub fn seat_word_within<P: Profile>(seats: &[u32], s: u32, field: u32) -> u32
    requires has_seat { s < seat_count_of P.SHEET seats.now }
    requires has_word { field < seat_width P.SHEET }
    ensures { result ≡ seat_word P.SHEET seats.now s field }
{
    seats[seat_place::<P>(s, field)]
}

// Whether the table has the seat is asked of the seat and not of the word, so that a caller who has asked it already pays for no test here.
pub fn seat_word<P: Profile>(seats: &[u32], s: u32, field: u32) -> u32
    ensures { result ≡ seat_word P.SHEET seats.now s field }
{
    if ((s as usize) < seat_count::<P>(seats)) & ((field as usize) < seat_width::<P>()) {
        return seat_word_within::<P>(seats, s, field);
    }
    word(seats, seat_place::<P>(s, field))
}

pub fn put_seat<P: Profile>(seats: &mut [u32], s: u32, field: u32, value: u32)
    ensures { seats.new ≡ put_seat P.SHEET seats.old s field value }
{
    if ((s as usize) < seat_count::<P>(seats)) & ((field as usize) < seat_width::<P>()) {
        seats[seat_place::<P>(s, field)] = value;
        return;
    }
    put(seats, seat_place::<P>(s, field), value);
}

// ---- the words of one seat, lent as a part of the table: that part is a table of the seat alone, in which its number is 0, so that a word is read and
// stored whatever the profile, which is there for the promise alone

// where the part starts
pub fn seat_start<P: Profile>(s: u32) -> usize
    ensures place { result ≡ seat_width P.SHEET * s }
    ensures small { result < 68719476736 }
{
    seat_place::<P>(s, 0)
}

// and where it ends
pub fn seat_end<P: Profile>(s: u32) -> usize
    ensures { result ≡ seat_width P.SHEET * s + seat_width P.SHEET }
{
    seat_start::<P>(s) + seat_width::<P>()
}

pub fn field<P: Profile>(seat: &[u32], at: u32) -> u32
    ensures { result ≡ seat_word P.SHEET seat.now 0 at }
{
    word(seat, at as usize)
}

pub fn put_field<P: Profile>(seat: &mut [u32], at: u32, value: u32)
    ensures { seat.new ≡ put_seat P.SHEET seat.old 0 at value }
{
    put(seat, at as usize, value);
}

// 0 in every word of it
pub fn clear_seat<P: Profile>(seat: &mut [u32])
    ensures { seat.new ≡ clear_words P.SHEET (seat_width P.SHEET) seat.old 0 }
{
    for at in 0..seat_width::<P>() as u32 {
        put_field::<P>(seat, at, 0);
    }
}

// ---- the lengths

pub fn node_count<P: Profile>(nodes: &[u32]) -> usize
    ensures { result ≡ node_count_of P.SHEET nodes.now }
{
    let before = before_nodes::<P>();
    let length = nodes.len();
    if length < before {
        return 0;
    }
    (length - before) / NODE_WIDTH
}

pub fn seat_count<P: Profile>(seats: &[u32]) -> usize
    ensures { result ≡ seat_count_of P.SHEET seats.now }
{
    seats.len() / seat_width::<P>()
}

pub fn nodes_fit<P: Profile>(nodes: &[u32]) -> bool
    ensures { result ≡ nodes_fit (tables P.SHEET nodes.now []) }
{
    let before = before_nodes::<P>();
    let n = node_count::<P>(nodes);
    (nodes.len() == before + NODE_WIDTH * n) & (1 <= n) & (n <= 256)
}

// At least one seat is asked of the length, so that what follows need not ask again whether the table is empty.
pub fn seats_fit<P: Profile>(seats: &[u32]) -> bool
    ensures { result ≡ seats_fit (tables P.SHEET [] seats.now) }
{
    let width = seat_width::<P>();
    let s = seat_count::<P>(seats);
    (seats.len() == width * s) & (width <= seats.len()) & (s <= 64)
}

// How many words the tables of n nodes and of s seats have.
pub fn node_words<P: Profile>(n: u32) -> usize
    ensures { result ≡ before_nodes P.SHEET + node_width * n }
{
    before_nodes::<P>() + NODE_WIDTH * n as usize
}

pub fn seat_words<P: Profile>(s: u32) -> usize
    ensures { result ≡ seat_width P.SHEET * s }
{
    seat_width::<P>() * s as usize
}

// The longest ordinary tables there are, fresh: of a fixed length, since nothing here allocates.
pub fn fresh_nodes(frames: u32) -> [u32; 1284]
    ensures { result ≡ put_top (zeros (before_nodes false + node_width * 256)) title_at frames }
{
    let mut nodes = [0; 1284];
    nodes[TITLE] = frames;
    nodes
}

pub fn fresh_seats() -> [u32; 256]
    ensures { result ≡ zeros (seat_width false * 64) }
{
    [0; 256]
}

// ---- sound tables, lent to read

// Tables that have passed the test for damage. A clause sees the tables.
#[derive(Drop)]
pub struct Sound<'a, P: Profile> {
    nodes: &'a [u32],
    seats: &'a [u32],
    profile: PhantomData<P>,
}

impl<'a, P: Profile> Model for Sound<'a, P> {
    ghost use Rattle.std.specs.Prelude.{◌≡◌, true};
    ghost use Rattle.rules.specs.Tables.{Tables, tables};
    ghost use Rattle.rules.specs.Shape.{sound};

    ghost Value = { Tables };

    ghost view = { λ lent. tables P.SHEET lent.nodes.now lent.seats.now };

    ghost invariant = { λ lent. sound (tables P.SHEET lent.nodes.now lent.seats.now) ≡ true };
}

impl<'a, P: Profile> Sound<'a, P> {
    pub fn tables(nodes: &'a [u32], seats: &'a [u32]) -> Self
        requires { sound (tables P.SHEET nodes.now seats.now) ≡ true }
        ensures { result ≡ tables P.SHEET nodes.now seats.now }
    {
        Sound {
            nodes,
            seats,
            profile: PhantomData,
        }
    }

    // What the type says, for a proof that needs it before the first word is read. It does nothing.
    pub fn are_sound(&self)
        ensures { sound self.now ≡ true }
    {
        let _ = &self.nodes;
    }

    // the table of the seats as it is lent, for what asks nothing of it
    pub fn seats(&self) -> &'a [u32]
        ensures words { result.now ≡ self.now.seats }
        ensures profile { self.now.sheet ≡ P.SHEET }
    {
        self.seats
    }

    pub fn node_count(&self) -> usize
        ensures { result ≡ table.node_count self.now }
    {
        node_count::<P>(self.nodes)
    }

    pub fn seat_count(&self) -> u32
        ensures all { result ≡ table.seat_count self.now }
        ensures few { result ≤ 64 }
    {
        seat_count::<P>(self.seats) as u32
    }

    // a word of a seat that there is
    pub fn seat_word(&self, s: u32, field: u32) -> u32
        requires has_seat { s < table.seat_count self.now }
        requires has_word { field < seat_width self.now.sheet }
        ensures { result ≡ seat_word self.now.sheet self.now.seats s field }
    {
        seat_word_within::<P>(self.seats, s, field)
    }

    // a word of a node that there is
    pub fn node_word(&self, a: u32, field: u32) -> u32
        requires is_node { a ≡ 0 → ⊥ }
        requires has_node { a ≤ table.node_count self.now }
        requires has_word { field < node_width }
        ensures { result ≡ node_word self.now.sheet self.now.nodes a field }
    {
        node_word_within::<P>(self.nodes, a, field)
    }

    // the next of a node, and of 0 the head
    pub fn link(&self, a: u32) -> u32
        ensures { result ≡ table.link self.now a }
    {
        link::<P>(self.nodes, a)
    }

    // the next of a node that there is: a walk has asked that already, so it pays for no test
    pub fn next(&self, a: u32) -> u32
        requires is_node { a ≡ 0 → ⊥ }
        requires has_node { a ≤ table.node_count self.now }
        ensures { result ≡ table.link self.now a }
    {
        next_within::<P>(self.nodes, a)
    }
}
