// The test for damage: sound shape, in one pass over each table. Lengths are tested first, so that every word of a node or seat is there.
// Nodes are read in the part of their table from node 1 on, where no place hangs on how many words stand before it.
#![tactic(auto)]

ghost use Rattle.std.specs.Prelude.{◌≡◌, ◌<◌, ◌≤◌, true, [], ◌≢◌, drop};
ghost use Rattle.rules.specs.Notation.{◌is◌};
ghost use Rattle.rules.specs.Tables.{tables, before_nodes, node_width, node_word, link_word, node_count_of, seat_count_of, phase};
ghost use Rattle.rules.specs.Shape.{nodes_fit, lengths_fit, may_claim, names, seat_sound, sound};
ghost use Rattle.words.specs.Parts.{with_zeros};
ghost use Rattle.shape.specs.Parts.{least_kind, node_sound_by, nodes_sound_by, busy_sound, waiting_sound, resting_sound, ordinary_sound, held_kind, seats_and_counts_sound, list_ends, if_sound};

use rules::{Profile, Refused};
use std::marker::{Model, PhantomData};
use words::Sound;

pub fn lengths_fit<P: Profile>(nodes: &[u32], seats: &[u32]) -> bool
    ensures { result ≡ lengths_fit (tables P.SHEET nodes.now seats.now) }
{
    let a = words::nodes_fit::<P>(nodes);
    let b = words::seats_fit::<P>(seats);
    a & b
}

// ---- what the profile allows

fn least_kind<P: Profile>() -> u32
    ensures { result ≡ least_kind P.SHEET }
{
    if P::SHEET { 2 } else { 1 }
}

// A claim reads or writes, and on a sheet it writes: kinds from the least one up to 2. Counted from the least, in numbers that wrap, that is one
// comparison for either profile; two cost the test for damage an instruction in twenty.
pub fn may_claim<P: Profile>(k: u32) -> bool
    ensures { result ≡ may_claim P.SHEET k }
{
    let least = least_kind::<P>();
    let above = std::num::wrapping_sub_u32(k, least);
    above <= 2 - least
}

// ---- the nodes, and the seats beside them

// Whether the seat's phase is 5.
fn holds<P: Profile>(seats: &[u32], s: u32) -> bool
    requires { s < seat_count_of P.SHEET seats.now }
    ensures { result ≡ (phase (tables P.SHEET [] seats.now) s is 5) }
{
    words::seat_word_within::<P>(seats, s, words::PHASE) == 5
}

// The words of a seat that name a node, or are 0.
#[derive(Clone, Copy)]
struct Named {
    own: u32,
    prev: u32,
    cur: u32,
}

// The nodes, in the part of their table from node 1 on, and how many they are. A clause sees a table of these nodes, with zeros before node 1.
#[derive(Drop)]
struct Nodes<'a, P: Profile> {
    part: &'a [u32],
    count: u32,
    profile: PhantomData<P>,
}

impl<'a, P: Profile> Model for Nodes<'a, P> {
    ghost use Rattle.std.specs.Prelude.{ℕ, List, ◌≡◌};
    ghost use Rattle.rules.specs.Tables.{node_count_of};
    ghost use Rattle.words.specs.Parts.{with_zeros};

    ghost Value = { List ℕ };

    ghost view = { λ nodes. with_zeros P.SHEET nodes.part.now };

    ghost invariant = { λ nodes. nodes.count ≡ node_count_of P.SHEET (with_zeros P.SHEET nodes.part.now) };
}

impl<'a, P: Profile> Nodes<'a, P> {
    fn of(nodes: &'a [u32]) -> Self
        requires { nodes_fit (tables P.SHEET nodes.now []) ≡ true }
        ensures { result ≡ with_zeros P.SHEET (drop (before_nodes P.SHEET) nodes.now) }
    {
        Nodes {
            part: words::from_first_node::<P>(nodes),
            count: words::node_count::<P>(nodes) as u32,
            profile: PhantomData,
        }
    }

    #[inline]
    fn node_count(&self) -> u32
        ensures { result ≡ node_count_of P.SHEET self.now }
    {
        self.count
    }

    // a word of a node that there is
    #[inline]
    fn word(&self, a: u32, field: u32) -> u32
        requires is_node { a ≢ 0 }
        requires has_node { a ≤ node_count_of P.SHEET self.now }
        requires has_word { field < node_width }
        ensures { result ≡ node_word P.SHEET self.now a field }
    {
        words::part_word::<P>(self.part, a, field)
    }

    // and its next
    #[inline]
    fn next(&self, a: u32) -> u32
        requires is_node { a ≢ 0 }
        requires has_node { a ≤ node_count_of P.SHEET self.now }
        ensures { result ≡ link_word P.SHEET self.now a }
    {
        words::part_next::<P>(self.part, a)
    }

    // 0, or a node of a kind that a claim may have
    fn names(&self, a: u32) -> bool
        ensures { result ≡ names (tables P.SHEET self.now []) a }
    {
        if a == 0 {
            return true;
        }
        if self.node_count() < a {
            return false;
        }
        let kind = self.word(a, words::KIND);
        may_claim::<P>(kind)
    }

    // A node of kind 0 is all zeros, and so ends within any title; any other is a claim.
    fn node_sound(&self, title: u32, a: u32) -> bool
        requires is_node { a ≢ 0 }
        requires has_node { a ≤ node_count_of P.SHEET self.now }
        ensures { result ≡ node_sound_by (tables P.SHEET self.now []) title a }
    {
        let start = self.word(a, words::START);
        let end = self.word(a, words::END);
        let kind = self.word(a, words::KIND);
        let next = self.next(a);
        let mark = self.word(a, words::MARK);
        if kind == 0 {
            return (start == 0) & (end == 0) & (next == 0) & (mark == 0);
        }
        if !self.names(next) {
            return false;
        }
        let claim = may_claim::<P>(kind);
        claim & (start < end) & (end <= title) & (mark <= 1)
    }

    fn nodes_sound(&self, title: u32) -> bool
        ensures { result ≡ nodes_sound_by (tables P.SHEET self.now []) title }
    {
        for i in 0..self.node_count() {
            if !self.node_sound(title, i + 1) {
                return false;
            }
        }
        true
    }

    // own names a node, and prev and cur are each 0 or name one
    fn busy_sound(&self, named: Named) -> bool
        ensures { result ≡ busy_sound (tables P.SHEET self.now []) named.own named.prev named.cur }
    {
        if named.own == 0 {
            return false;
        }
        if !self.names(named.own) {
            return false;
        }
        if !self.names(named.prev) {
            return false;
        }
        self.names(named.cur)
    }

    // in phases 2 and 4
    fn waiting_sound(&self, named: Named) -> bool
        ensures { result ≡ waiting_sound (tables P.SHEET self.now []) named.own named.prev named.cur }
    {
        if named.cur == 0 {
            return false;
        }
        self.busy_sound(named)
    }

    // in phases 5, 6 and 7: of three names, only own is left to look up
    fn resting_sound(&self, named: Named) -> bool
        ensures { result ≡ resting_sound (tables P.SHEET self.now []) named.own named.prev named.cur }
    {
        if (named.own == 0) | !(named.prev == 0) | !(named.cur == 0) {
            return false;
        }
        self.names(named.own)
    }

    // in phases 3, 4 and 6, which a sheet lacks: the profile is looked at in these alone
    fn ordinary_sound(&self, phase: u32, named: Named) -> bool
        ensures { result ≡ ordinary_sound (tables P.SHEET self.now []) phase named.own named.prev named.cur }
    {
        if P::SHEET {
            return false;
        }
        match phase {
            3 => self.busy_sound(named),
            4 => self.waiting_sound(named),
            _ => self.resting_sound(named),
        }
    }

    // An idle seat is all zeros; any other is held to what its phase allows.
    fn seat_sound(&self, seats: &[u32], s: u32) -> bool
        requires { s < seat_count_of P.SHEET seats.now }
        ensures { result ≡ seat_sound (tables P.SHEET self.now seats.now) s }
    {
        let phase = words::seat_word_within::<P>(seats, s, words::PHASE);
        let named = Named {
            own: words::seat_word_within::<P>(seats, s, words::OWN),
            prev: words::seat_word_within::<P>(seats, s, words::PREV),
            cur: words::seat_word_within::<P>(seats, s, words::CUR),
        };
        match phase {
            0 => (named.own == 0) & (named.prev == 0) & (named.cur == 0),
            1 => self.busy_sound(named),
            2 => self.waiting_sound(named),
            3 => self.ordinary_sound(phase, named),
            4 => self.ordinary_sound(phase, named),
            5 => self.resting_sound(named),
            6 => self.ordinary_sound(phase, named),
            7 => self.resting_sound(named),
            8..=4294967295 => false,
        }
    }

    // the kind of the claim that a sound seat holds with; 0 if with none, and so in neither count, as the rule counts
    fn held_kind(&self, seats: &[u32], s: u32) -> u32
        requires has_seat { s < seat_count_of P.SHEET seats.now }
        requires seat_is_sound { seat_sound (tables P.SHEET self.now seats.now) s ≡ true }
        ensures { result ≡ held_kind (tables P.SHEET self.now seats.now) s }
    {
        if holds::<P>(seats, s) {
            let own = words::seat_word_within::<P>(seats, s, words::OWN);
            return self.word(own, words::KIND);
        }
        0
    }

    // Each seat is sound, and the two words, readers and writers, are the numbers of those who hold. They are counted in the pass that tests the
    // seats, whose words are then at hand: counting them in a pass of its own costs twice as much.
    fn seats_and_counts_sound(&self, seats: &[u32], count: u32, readers: u32, writers: u32) -> bool
        requires { count ≡ seat_count_of P.SHEET seats.now }
        ensures { result ≡ seats_and_counts_sound (tables P.SHEET self.now seats.now) readers writers }
    {
        let mut reading: u32 = 0;
        let mut writing: u32 = 0;
        for s in 0..count {
            if !self.seat_sound(seats, s) {
                return false;
            }
            match self.held_kind(seats, s) {
                1 => reading += 1,
                2 => writing += 1,
                _ => (),
            }
        }
        (readers == reading) & (writers == writing)
    }
}

// ---- the whole

// From the head, 0 is met after at most N nodes. Nothing is asked of the words: a next past the last node reads 0 and ends the list.
pub fn list_ends<P: Profile>(nodes: &[u32]) -> bool
    requires { nodes_fit (tables P.SHEET nodes.now []) ≡ true }
    ensures { result ≡ list_ends (tables P.SHEET nodes.now []) }
{
    let n = words::node_count::<P>(nodes) as u32;
    let mut a = words::link::<P>(nodes, 0);
    for _ in 0..n {
        if (a == 0) | (n < a) {
            return true;
        }
        a = words::next_within::<P>(nodes, a);
    }
    a == 0
}

// all but the lengths
fn words_sound<P: Profile>(nodes: &[u32], seats: &[u32]) -> bool
    requires { lengths_fit (tables P.SHEET nodes.now seats.now) ≡ true }
    ensures { result ≡ sound (tables P.SHEET nodes.now seats.now) }
{
    let alone = Nodes::<P>::of(nodes);
    let count = words::seat_count::<P>(seats) as u32;
    let head = words::link::<P>(nodes, 0);
    let readers = words::count_word::<P>(nodes, 1);
    let writers = words::count_word::<P>(nodes, 2);
    let title = words::title::<P>(nodes);
    if title == 0 {
        return false;
    }
    if !alone.nodes_sound(title) {
        return false;
    }
    if !alone.names(head) {
        return false;
    }
    if !alone.seats_and_counts_sound(seats, count, readers, writers) {
        return false;
    }
    list_ends::<P>(nodes)
}

pub fn is_sound<P: Profile>(nodes: &[u32], seats: &[u32]) -> bool
    ensures { result ≡ sound (tables P.SHEET nodes.now seats.now) }
{
    if lengths_fit::<P>(nodes, seats) {
        return words_sound::<P>(nodes, seats);
    }
    false
}

// The tables as such, or the refusal that a call on damaged ones has first.
pub fn sound_tables<'a, P: Profile>(
    nodes: &'a [u32],
    seats: &'a [u32],
) -> Result<Sound<'a, P>, Refused>
    ensures { result ≡ if_sound (tables P.SHEET nodes.now seats.now) }
{
    if is_sound::<P>(nodes, seats) {
        return Ok(Sound::tables(nodes, seats));
    }
    Err(Refused::Damaged)
}
