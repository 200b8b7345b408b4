ghost use Rattle.std.specs.Prelude.{◌≡◌, ◌+◌, ◌≤◌, [], length, sum, vec_len, vec_capacity, IfOk};

use crate::booked::Booked;
use crate::gate::Gate;
use crate::hand::room_for;
use crate::pool::Pool;
use crate::queue::Queue;
use crate::shared::Shared;
use crate::shares::Shares;
use crate::tally::Tally;
use felm_engine::Bench;
use felm_term::Memory;
use std::alloc::Global;
use std::sync::Wait;
use std::sync::ledger::{Blank, Ledger, Share};
use std::thread;
use std::thread::{JoinHandle, Scope, Threads};

/// The place of a worker.
#[derive(Drop)]
enum Post<L: Ledger> {
    Taken(JoinHandle<Tally<L>>),
    LeftOut(Tally<L>),
}

/// What all workers came to: their shares put together, and the count of each.
#[derive(Drop)]
struct Team<L: Ledger> {
    all: Share<L>,
    counts: Vec<u64>,
}

/// Works on the bench, with a ledger of one part more than there are workers: the last one is this
/// thread's, and with an empty queue that has room for a full hand of each worker.
pub fn run<
    B: Bench + Drop + Send,
    G: Gate + Sync,
    L: Ledger + Send + Sync,
    Q: Queue + Drop + Send,
    R: Threads + Wait + Sync,
>(
    rt: &R,
    alloc: Global,
    blank: Blank,
    bench: B,
    claimed: Q,
    workers: u32,
    gate: &G,
) -> Result<(B, Shares), Memory>
    requires name { blank.name ≡ L.name }
    requires parts { blank.parts ≡ L.parts }
    requires one_more { blank.parts ≡ workers + 1 }
    requires fresh { B.settled bench ≡ 0 }
    ensures shares { IfOk result (λ r. length r.1 ≡ workers) }
    ensures exact { IfOk result (λ r. sum r.1 ≡ B.settled r.0) }
{
    let (book, all) = blank.open::<L>();
    let posts = room_for(alloc, workers)?;
    let counts = room_for(alloc, workers)?;
    let pool = Pool::make(Shared::make(Booked::make(bench, book), claimed, workers));
    let Team { mut all, counts } = in_scope(rt, alloc, &pool, gate, workers, all, posts, counts);
    let bench = pool.into_booked().close(&mut all);
    Ok((bench, Shares::make(counts)))
}

// Starts the workers and joins them, in a scope of its own.
fn in_scope<
    'x,
    B: Bench + Drop + Send,
    G: Gate + Sync,
    L: Ledger + Send + Sync,
    Q: Queue + Drop + Send,
    R: Threads + Wait + Sync,
>(
    rt: &'x R,
    alloc: Global,
    pool: &'x Pool<B, L, Q>,
    gate: &'x G,
    workers: u32,
    all: Share<L>,
    posts: Vec<Post<L>>,
    counts: Vec<u64>,
) -> Team<L>
    requires all { (all.parts ≡ workers + 1) × (all.amount ≡ 0) }
    requires posts { (posts.items ≡ []) × (workers ≤ vec_capacity posts) }
    requires counts { (counts.items ≡ []) × (workers ≤ vec_capacity counts) }
    ensures whole { result.all.parts ≡ all.parts }
    ensures shares { vec_len result.counts ≡ workers }
    ensures exact { result.all.amount ≡ sum result.counts.items }
{
    thread::scope(
        thread::scope_env(),
        rt,
        move |scope| -> Team<L>
            requires { (all.parts ≡ workers + 1) × (all.amount ≡ 0) × (posts.items ≡ []) × (workers ≤ vec_capacity posts) × (counts.items ≡ []) × (workers ≤ vec_capacity counts) }
            ensures { (result.all.parts ≡ all.parts) × (vec_len result.counts ≡ workers) × (result.all.amount ≡ sum result.counts.items) }
        {
            let mut all = all;
            let posts = start(scope, rt, alloc, pool, gate, workers, &mut all, posts);
            pool.feed(rt);
            join_all(rt, all, posts, counts)
        },
    )
}

// Starts the workers.
fn start<
    's,
    'r: 's,
    'g: 's,
    E,
    B: Bench + Drop + Send,
    G: Gate + Sync,
    L: Ledger + Send + Sync,
    Q: Queue + Drop + Send,
    R: Threads + Wait + Sync,
>(
    scope: &Scope<'s, E>,
    rt: &'r R,
    alloc: Global,
    pool: &'s Pool<B, L, Q>,
    gate: &'g G,
    workers: u32,
    all: &mut Share<L>,
    posts: Vec<Post<L>>,
) -> Vec<Post<L>>
    requires all { all.old.parts ≡ workers + 1 }
    requires posts { (posts.items ≡ []) × (workers ≤ vec_capacity posts) }
    ensures posts { vec_len result ≡ workers }
    ensures parts { all.new.parts + workers ≡ all.old.parts }
    ensures amount { all.new.amount ≡ all.old.amount }
{
    let mut posts = posts;
    for place in 0..workers {
        let share = all.split_off(1, 0);
        let job = move || -> Tally<L>
            requires { (share.parts ≡ 1) × (share.amount ≡ 0) }
        { work(rt, alloc, pool, gate, place, share) };
        match scope.spawn(job) {
            Ok(handle) => posts.push_reserved(Post::Taken(handle)),
            Err(refused) => {
                pool.shared.lock(rt).leave_out(place);
                posts.push_reserved(Post::LeftOut((refused.value)()));
            }
        }
    }
    posts
}

// What a worker does from its start to its end. One that is left out only gives its share back.
fn work<B: Bench + Drop, G: Gate, L: Ledger, Q: Queue + Drop, R: Wait>(
    rt: &R,
    alloc: Global,
    pool: &Pool<B, L, Q>,
    gate: &G,
    place: u32,
    share: Share<L>,
) -> Tally<L>
    requires { (share.parts ≡ 1) × (share.amount ≡ 0) }
{
    let mut tally = Tally::make(share);
    if pool.shared.lock(rt).admits(place) {
        // For want of memory it ends alone, else with all others. Some of them may still sleep.
        let _ended = pool.work(rt, alloc, gate, &mut tally);
        pool.end(rt);
    }
    tally
}

// Waits for the workers, in their order.
fn join_all<L: Ledger, R: Threads>(
    rt: &R,
    all: Share<L>,
    posts: Vec<Post<L>>,
    counts: Vec<u64>,
) -> Team<L>
    requires all { (all.parts ≡ 1) × (all.amount ≡ 0) }
    requires counts { (counts.items ≡ []) × (vec_len posts ≤ vec_capacity counts) }
    ensures whole { result.all.parts ≡ vec_len posts + 1 }
    ensures shares { vec_len result.counts ≡ vec_len posts }
    ensures exact { result.all.amount ≡ sum result.counts.items }
{
    let mut all = all;
    let mut counts = counts;
    for post in posts {
        let Tally { share, count } = tally_of(rt, post);
        all.merge(share);
        counts.push_reserved(count);
    }
    Team { all, counts }
}

fn tally_of<L: Ledger, R: Threads>(rt: &R, post: Post<L>) -> Tally<L> {
    match post {
        Post::Taken(handle) => handle.join(rt),
        Post::LeftOut(tally) => tally,
    }
}
