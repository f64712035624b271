// All processors, and what is known after they have joined.
ghost use Rattle.std.specs.Prelude.{◌≡◌, ◌≢◌, ◌+◌, ◌<◌, All, None, Some, length, map, slice_get, sum};
ghost use Rattle.std.specs.List.{sum_by};
ghost use Rattle.std.specs.Thread.{IsSync};
ghost use Rattle.b67_stands.specs.Running.{answer_of};
ghost use Rattle.b67_stands.specs.Shared.{Shared};
ghost use Rattle.b67_stands.specs.Stands.{Stands};
ghost use Rattle.b67_plant.specs.Places.{in_order};

use crate::{Floor, Named, Plant, Post, Seat, SharedPlant};
use b67_list::discard;
use b67_processors::{Gate, serve};
use b67_ready::Rule;
use b67_segment::Code;
use b67_store::Core;
use b67_tally::Tally;
use std::sync::Wait;
use std::sync::ledger::{Ledger, Share};
use std::thread;
use std::thread::Threads;

// The shares of a place whose run is over.
struct Shares<N: Named, L: Ledger> {
    acts: Share<N>,
    leaves: Share<L>,
}

// What a place leaves: its shares of the books. Its mark knows the tally's number at its place.
fn shares_of<N: Named, L: Ledger>(post: Post<N, L>, tally: &mut Tally) -> Shares<N, L>
    requires { tally.old.name ≡ N.tally }
    ensures acts { (result.acts.parts ≡ 1) × (result.acts.amount ≡ post.seat.count) }
    ensures leaves { (result.leaves.parts ≡ 1) × (result.leaves.amount ≡ post.seat.left) }
    ensures found { slice_get tally.old.numbers post.seat.mark.place ≡ Some post.seat.mark.number }
    ensures same { tally.new ≡ tally.old }
{
    let Post { parcel, seat } = post;
    discard(parcel);
    let Seat {
        count: _,
        left: _,
        ahead,
        acts,
        leaves,
        mut mark,
    } = seat;
    discard(ahead);
    tally.look(&mut mark);
    Shares { acts, leaves }
}

/// The acts and the leaves of all posts are the books', and since each has left, the run has an end or lacked memory. Where the posts stand in
/// the order of the tally's places, and its numbers add up to the book of acts, they are the seats' own.
pub fn gather<N: Named, L: Ledger, C: Core, P: Rule>(
    plant: &mut Plant<N, L, C, P>,
    tally: &mut Tally,
    posts: Vec<Post<N, L>>,
)
    requires parts { length posts.items ≡ N.parts }
    requires leaf_parts { length posts.items ≡ L.parts }
    requires some { 0 < length posts.items }
    requires each { All (λ post. 0 < post.seat.left) posts.items }
    requires places { map (λ post. post.seat.mark.place) posts.items ≡ in_order (length posts.items) }
    requires tally { (tally.old.name ≡ N.tally) × (length tally.old.numbers ≡ length posts.items) }
    requires book { sum tally.old.numbers ≡ plant.old.acts }
    ensures ended { answer_of N.budget plant.old ≢ None }
    ensures same { plant.new ≡ plant.old }
    ensures acts { sum_by (λ post. post.seat.count) posts.items ≡ plant.old.acts }
    ensures own { map (λ post. post.seat.count) posts.items ≡ tally.old.numbers }
    ensures leaves { sum_by (λ post. post.seat.left) posts.items ≡ plant.old.leaves }
{
    let mut posts = posts;
    let Some(first) = posts.pop() else {
        unreachable!()
    };
    let Shares {
        mut acts,
        mut leaves,
    } = shares_of(first, tally);
    while let Some(post) = posts.pop() {
        let Shares {
            acts: more,
            leaves: others,
        } = shares_of(post, tally);
        acts.merge(more);
        leaves.merge(others);
    }
    plant.acts.audit(&mut acts);
    plant.leaves.audit(&mut leaves);
}

// One processor's part.
fn serve_post<
    N: Named + Send + Sync,
    L: Ledger + Send + Sync,
    C: Core + Send,
    P: Rule + Send,
    G: Gate + Sync,
    R: Threads + Wait + Sync,
>(rt: &R, shop: &SharedPlant<N, L, C, P>, gate: &G, at: usize, count: usize, post: &mut Post<N, L>)
    requires { (at < count) × (count ≡ N.processors) × (count < 9) × (post.old.seat.mark.place ≡ at) }
    ensures { (post.new.seat.left ≡ post.old.seat.left + 1) × (post.new.seat.mark.place ≡ post.old.seat.mark.place) }
{
    let me = at as u32 + 1;
    let Post { parcel, seat } = post;
    let _acts = serve(rt, &shop, gate, me, parcel, seat);
}

/// The run by all processors, one for each post in their order, to its end. What they shared comes back.
pub fn run_all<
    N: Named + Send + Sync,
    L: Ledger + Send + Sync,
    C: Core + Send,
    P: Rule + Send,
    G: Gate + Sync,
    R: Threads + Wait + Sync,
>(
    rt: &R,
    gate: &G,
    plant: Plant<N, L, C, P>,
    tally: Tally,
    code: Code,
    posts: &mut [Post<N, L>],
) -> Floor<N, L, C, P>
    requires code { code ≡ N.code }
    requires processors { (length posts.old ≡ N.processors) × (length posts.old < 9) }
    requires places { map (λ post. post.seat.mark.place) posts.old ≡ in_order (length posts.old) }
    requires tally { tally.name ≡ N.tally }
    requires shared { Shared N.code N.budget N.pick N.processors tally.numbers plant }
    ensures stands { Stands N.code N.budget result }
    ensures posts { length posts.new ≡ length posts.old }
    ensures places { map (λ post. post.seat.mark.place) posts.new ≡ in_order (length posts.new) }
    ensures left { All (λ post. 0 < post.seat.left) posts.new }
{
    let shop = SharedPlant::new(plant, tally, code);
    let shared = &shop;
    let count = posts.len();
    thread::for_each_mut(
        rt,
        posts,
        8,
        &|i: usize, post: &mut Post<N, L>|
            requires { IsSync R.row × (i < count) × (count ≡ N.processors) × (count < 9) × (post.old.seat.mark.place ≡ i) }
            ensures { (post.new.seat.left ≡ post.old.seat.left + 1) × (post.new.seat.mark.place ≡ post.old.seat.mark.place) }
        { serve_post(rt, shared, gate, i, count, post) },
    );
    let floor = shop.into_floor();
    let _answer = floor.plant().answer();
    floor
}
