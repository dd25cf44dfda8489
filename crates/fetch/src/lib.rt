// Fetch: a free node for a seat's claim, and how many are free. It decides on the tables as they stand, and stores only what is decided:
// where no node is free, even with the marked ones taken out, nothing is stored.
#![tactic(auto)]

ghost use Rattle.std.specs.Prelude.{◌≡◌, true, [], ◌∷◌, drop};
ghost use Rattle.rules.specs.Tables.{tables, prev, cur, put_link};
ghost use Rattle.rules.specs.Means.{means_claim, node_if_any};
ghost use Rattle.rules.specs.Shape.{sound};
ghost use Rattle.rules.specs.Reach.{count_free};
ghost use Rattle.rules.specs.Stores.{store, stores, ListEnds};
ghost use Rattle.reach.specs.Walks.{Links};
ghost use Rattle.rules.specs.Fetch.{taken_out, write_claim, reserve_for, take_node, fetched, fetch_again, fetch as fetch_rule};

use rules::{Claim, Profile};
use words::Sound;

// How many nodes are free, every seat counted: no seat has the number of seats.
pub fn free_count<P: Profile>(tables: &Sound<P>) -> u32
    ensures { result ≡ count_free tables.now }
{
    reach::free_set(tables, tables.seat_count()).count()
}

// ---- what is stored

fn write_claim<P: Profile>(nodes: &mut [u32], a: u32, claim: Claim)
    ensures { nodes.new ≡ (write_claim (tables P.SHEET nodes.old []) a (means_claim claim)).nodes }
{
    words::put_node::<P>(nodes, a, words::START, claim.start);
    words::put_node::<P>(nodes, a, words::END, claim.end);
    words::put_node::<P>(nodes, a, words::KIND, claim.kind);
    words::put_link::<P>(nodes, a, 0);
    words::put_node::<P>(nodes, a, words::MARK, 0);
}

// A seat that fetches is idle or has withdrawn, and has no prev and no cur: those words are 0 already, and are not stored.
fn reserve_for<P: Profile>(seats: &mut [u32], s: u32, a: u32)
    requires no_prev { prev (tables P.SHEET [] seats.old) s ≡ 0 }
    requires no_cur { cur (tables P.SHEET [] seats.old) s ≡ 0 }
    ensures { seats.new ≡ (reserve_for (tables P.SHEET [] seats.old) s a).seats }
{
    words::put_seat::<P>(seats, s, words::PHASE, 7);
    words::put_seat::<P>(seats, s, words::OWN, a);
}

fn take_node<P: Profile>(nodes: &mut [u32], seats: &mut [u32], s: u32, a: u32, claim: Claim)
    requires no_prev { prev (tables P.SHEET [] seats.old) s ≡ 0 }
    requires no_cur { cur (tables P.SHEET [] seats.old) s ≡ 0 }
    ensures { tables P.SHEET nodes.new seats.new ≡ take_node (tables P.SHEET nodes.old seats.old) s a (means_claim claim) }
{
    write_claim::<P>(nodes, a, claim);
    reserve_for::<P>(seats, s, a);
}

// ---- taking marked nodes out, by the fewest stores

// One store of those that take marked nodes out: the first that is left of them, and then the others are left. It goes to a link that differs.
// Nothing else stores for `take_out`, so its stores are those of the tables that it is lent, all of them and in their order.
fn store_link<P: Profile>(nodes: &mut [u32], whose: u32, value: u32)
    requires list_ends { ListEnds (tables P.SHEET nodes.old []) }
    requires is_first_store { stores (tables P.SHEET nodes.old []) ≡ store whose value ∷ drop 1 (stores (tables P.SHEET nodes.old [])) }
    ensures stored { nodes.new ≡ put_link P.SHEET nodes.old whose value }
    ensures left { stores (tables P.SHEET nodes.new []) ≡ drop 1 (stores (tables P.SHEET nodes.old [])) }
{
    words::put_link::<P>(nodes, whose, value);
}

// Head and the unmarked listed nodes then link to the next unmarked one. `link` is prev's link as it stands.
fn take_out<P: Profile>(nodes: &mut [u32])
    requires list_ends { ListEnds (tables P.SHEET nodes.old []) }
    requires links { Links P.SHEET nodes.old }
    ensures out { nodes.new ≡ (taken_out (tables P.SHEET nodes.old [])).nodes }
    ensures none_left { stores (tables P.SHEET nodes.new []) ≡ [] }
{
    let mut left = words::node_count::<P>(nodes);
    let mut link = words::link::<P>(nodes, 0);
    let mut cur = link;
    let mut prev: u32 = 0;
    // a walk along the list: its end stops it, and no number is counted but for the measure
    while cur != 0 {
        let next = words::next_within::<P>(nodes, cur);
        if words::node_word_within::<P>(nodes, cur, words::MARK) == 1 {
            cur = next;
            left -= 1;
        } else {
            if link != cur {
                store_link::<P>(nodes, prev, cur);
            }
            prev = cur;
            link = next;
            cur = next;
            left -= 1;
        }
    }
    if link != 0 {
        store_link::<P>(nodes, prev, 0);
    }
}

// ---- fetch

// Once the marked nodes are taken out: the node taken, or none, and then nothing is stored.
fn fetch_again<P: Profile>(
    nodes: &mut [u32],
    seats: &mut [u32],
    s: u32,
    claim: Claim,
) -> Option<u32>
    requires tables_sound { sound (tables P.SHEET nodes.old seats.old) ≡ true }
    requires no_prev { prev (tables P.SHEET [] seats.old) s ≡ 0 }
    requires no_cur { cur (tables P.SHEET [] seats.old) s ≡ 0 }
    ensures { let rule = fetch_again (tables P.SHEET nodes.old seats.old) s (means_claim claim)
        in (result ≡ node_if_any rule.node) × (tables P.SHEET nodes.new seats.new ≡ rule.after) }
{
    let a = reach::lowest_free_after(&Sound::<P>::tables(nodes, seats), s)?;
    take_out::<P>(nodes);
    take_node::<P>(nodes, seats, s, a, claim);
    Some(a)
}

// The node taken for seat s, if one is free.
pub fn fetch<P: Profile>(nodes: &mut [u32], seats: &mut [u32], s: u32, claim: Claim) -> Option<u32>
    requires tables_sound { sound (tables P.SHEET nodes.old seats.old) ≡ true }
    requires no_prev { prev (tables P.SHEET [] seats.old) s ≡ 0 }
    requires no_cur { cur (tables P.SHEET [] seats.old) s ≡ 0 }
    ensures { let rule = fetch_rule (tables P.SHEET nodes.old seats.old) s (means_claim claim)
        in (result ≡ node_if_any rule.node) × (tables P.SHEET nodes.new seats.new ≡ rule.after) }
{
    let Some(a) = reach::lowest_free(&Sound::<P>::tables(nodes, seats), s) else {
        return fetch_again::<P>(nodes, seats, s, claim);
    };
    take_node::<P>(nodes, seats, s, a, claim);
    Some(a)
}
