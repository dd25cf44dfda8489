// Which nodes of sound tables are free: what the list and the other seats reach is gathered in a set, by walks that stop at a node of the set, and the
// rest of 1 to N is free. Nothing is stored.
#![tactic(auto)]

ghost use Rattle.std.specs.Prelude.{◌≡◌, [], ◌≢◌, ◌≤◌, ◌<◌};
ghost use Rattle.rules.specs.Tables as table;
ghost use Rattle.rules.specs.Tables.{node_count, seat_count};
ghost use Rattle.rules.specs.Reach.{lowest_free};
ghost use Rattle.rules.specs.Fetch.{kept, taken_out};
ghost use Rattle.rules.specs.Means.{node_if_any};
ghost use Rattle.nodesets.specs.Set.{none};
ghost use Rattle.reach.specs.Walks.{reach_from, reach_seat, reach_others, add_all};
ghost use Rattle.reach.specs.FreeSet.{IsFreeSet};

use nodesets::NodeSet;
use rules::Profile;
use words::Sound;

// ---- what is used

// The nodes met from a join the set. The walk stops at a node that is in it, so that all walks together add each node once. 01 asks for a recursion along
// next with a hop count that falls.
fn reach<P: Profile>(tables: &Sound<P>, used: &mut NodeSet, hops: usize, a: u32)
    requires is_node_or_0 { a ≤ node_count tables.now }
    requires some_hops { hops ≢ 0 }
    ensures { used.new ≡ reach_from tables.now.sheet hops tables.now.nodes used.old a }
{
    if a == 0 {
        return;
    }
    tables.are_sound();
    if used.join(a) {
        return;
    }
    if hops == 1 {
        return;
    }
    reach(tables, used, hops - 1, tables.next(a));
}

fn reach_seat<P: Profile>(tables: &Sound<P>, used: &mut NodeSet, hops: usize, r: u32)
    requires has_seat { r < seat_count tables.now }
    requires some_hops { hops ≢ 0 }
    ensures { used.new ≡ reach_seat hops tables.now used.old r }
{
    tables.are_sound();
    let own = tables.seat_word(r, words::OWN);
    let prev = tables.seat_word(r, words::PREV);
    let cur = tables.seat_word(r, words::CUR);
    reach(tables, used, hops, own);
    if (prev == 0) & (cur == 0) {
        return;
    }
    reach(tables, used, hops, prev);
    reach(tables, used, hops, cur);
}

// What every seat but s reaches joins the set.
fn reach_others<P: Profile>(tables: &Sound<P>, used: &mut NodeSet, s: u32)
    ensures { used.new ≡ reach_others tables.now s used.old }
{
    tables.are_sound();
    let hops = tables.node_count();
    for r in 0..tables.seat_count() {
        if r != s {
            reach_seat(tables, used, hops, r);
        }
    }
}

// The unmarked nodes on the list.
fn kept_set<P: Profile>(tables: &Sound<P>) -> NodeSet
    ensures { result ≡ add_all none (kept (table.tables tables.now.sheet tables.now.nodes [])) }
{
    tables.are_sound();
    let mut listed = NodeSet::empty();
    let mut cur = tables.link(0);
    for _ in 0..tables.node_count() {
        if cur == 0 {
            return listed;
        }
        if tables.node_word(cur, words::MARK) != 1 {
            listed.join(cur);
        }
        cur = tables.next(cur);
    }
    listed
}

// ---- what is free

pub fn free_set<P: Profile>(tables: &Sound<P>, s: u32) -> NodeSet
    ensures { IsFreeSet result tables.now s }
{
    tables.are_sound();
    let n = tables.node_count();
    let mut used = NodeSet::empty();
    reach(tables, &mut used, n, tables.link(0));
    reach_others(tables, &mut used, s);
    used.outside(n)
}

// The same once the marked nodes are taken out, on the tables as they stand: walks that stop at the unmarked listed nodes meet no link
// that taking out changes.
fn free_set_after<P: Profile>(tables: &Sound<P>, s: u32) -> NodeSet
    ensures { IsFreeSet result (taken_out tables.now) s }
{
    tables.are_sound();
    let mut used = kept_set(tables);
    reach_others(tables, &mut used, s);
    used.outside(tables.node_count())
}

pub fn lowest_free<P: Profile>(tables: &Sound<P>, s: u32) -> Option<u32>
    ensures { result ≡ node_if_any (lowest_free tables.now s) }
{
    free_set(tables, s).lowest()
}

pub fn lowest_free_after<P: Profile>(tables: &Sound<P>, s: u32) -> Option<u32>
    ensures { result ≡ node_if_any (lowest_free (taken_out tables.now) s) }
{
    free_set_after(tables, s).lowest()
}
