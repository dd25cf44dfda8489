// The comparison of a listed node with one's own claim, as a signed number, and the run of frames that the two share. The run is a function of its own:
// whoever waits on, or waits in phase 4, is told it and no comparison is made; and a walk that passes a claim pays for none.
#![tactic(auto)]

ghost use Rattle.std.specs.Prelude.{◌≡◌, []};
ghost use Rattle.rules.specs.Tables.{tables};
ghost use Rattle.rules.specs.Comparison.{claim_of, compare};
ghost use Rattle.rules.specs.Means.{means_claim};
ghost use Rattle.rules.specs.Comparison as rule;
ghost use Rattle.comparison.specs.Behind.{lies_behind};

use rules::{Claim, Profile, SharedRun};

// ---- the number

// what starts at `start` lies behind a claim
fn lies_behind(claim: Claim, start: u32, both_read: bool) -> bool
    ensures { result ≡ lies_behind claim.start claim.end start both_read }
{
    (claim.end <= start) | (both_read & (claim.start <= start))
}

// +1: o lies after c. -1: o lies before c. 0: they clash. 01 asks for the signed number.
fn compare_claims(c: Claim, o: Claim) -> i32
    ensures { result ≡ compare (means_claim c) (means_claim o) }
{
    let both_read = (c.kind == 1) & (o.kind == 1);
    if lies_behind(c, o.start, both_read) {
        return 1;
    }
    if lies_behind(o, c.start, both_read) {
        return -1;
    }
    0
}

pub fn compare_nodes<P: Profile>(nodes: &[u32], c: u32, o: u32) -> i32
    ensures { result ≡ compare (claim_of (tables P.SHEET nodes.now []) c) (claim_of (tables P.SHEET nodes.now []) o) }
{
    let listed = words::node_claim::<P>(nodes, c);
    let own = words::node_claim::<P>(nodes, o);
    compare_claims(listed, own)
}

// ---- what two claims share

// 0 and 0 where there is no frame from `first` up to `end`, as 02 says of a wait
fn run_or_none(first: u32, end: u32) -> SharedRun
    ensures { result ≡ rule.run_or_none first end }
{
    if first < end {
        return SharedRun { first, end };
    }
    SharedRun { first: 0, end: 0 }
}

pub fn shared_by_nodes<P: Profile>(nodes: &[u32], c: u32, o: u32) -> SharedRun
    ensures { result ≡ rule.shared (claim_of (tables P.SHEET nodes.now []) c) (claim_of (tables P.SHEET nodes.now []) o) }
{
    let listed = words::node_claim::<P>(nodes, c);
    let own = words::node_claim::<P>(nodes, o);
    let first = listed.start.max(own.start);
    let end = listed.end.min(own.end);
    run_or_none(first, end)
}
