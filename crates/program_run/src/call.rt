//! One run: the first word says whether it serves a stream or links.

ghost use Rattle.std.specs.Prelude.{◌≡◌, ◌≢◌, true, false, None, IfSome};
ghost use Rattle.worker_turns.specs.Acts.{view_of};
ghost use Rattle.store_open.specs.Words.{texts_of};
ghost use Rattle.loop_threads.specs.Kept.{keep_over};
ghost use Rattle.serve_threads.specs.Worlds.{readings_of};
ghost use Rattle.serve_threads.specs.Links.{links_over};
ghost use Rattle.serve_threads.specs.Served.{clocks_over, views_of};
ghost use Rattle.serve_threads.specs.Causes.{counts_of, world_faults};
ghost use Rattle.program_run.specs.Acknowledged.{KeepsServed};
ghost use Rattle.program_run.specs.Stand.{KeepsAnswers};
ghost use Rattle.program_run.specs.Runs.{AsksLinks, Pipes, Serves};

use broker_run::run_pipe;
use broker_serve::{Ended, Store, run_serve};
use mq_outside::{Clock, Disk, Keep, Sink, Source};
use mq_peers::Ready;
use serve_threads::World;
use std::alloc::Global;
use std::sync::Wait;
use std::thread::Threads;

/// Where requests come from, and where their replies go, where it is no link.
#[derive(Drop)]
pub struct Streams<S: Source + Drop, N: Sink + Drop> {
    pub source: S,
    pub sink: N,
}

/// How a run ended, with all that it was given.
#[derive(Drop)]
pub struct Ran<
    S: Source + Drop,
    N: Sink + Drop,
    P: Ready + Drop,
    K: Clock + Drop,
    D: Disk + Drop,
    E: Keep + Drop,
> {
    pub ended: Ended<P, K, D, E>,
    pub streams: Streams<S, N>,
}

// Whether the words ask for links.
fn asks_links(words: &[&str]) -> bool
    ensures yes { result ≡ true → AsksLinks (texts_of words.now) }
    ensures no { result ≡ false → AsksLinks (texts_of words.now) → ⊥ }
{
    match words.first() {
        Some(word) => *word == "serve",
        None => false,
    }
}

/// Serves links where the first word is `serve`, and else the requests of the source, by the first clock. The words are those of the
/// command line. All that it was given comes back.
pub fn run<
    W: Wait + Threads + Sync,
    S: Source + Drop,
    N: Sink + Drop,
    P: Ready + Send + Sync + Drop,
    K: Clock + Send + Drop,
    D: Disk + Send + Drop,
    E: Keep + Send + Drop,
>(
    rt: &W,
    alloc: Global,
    words: &[&str],
    streams: Streams<S, N>,
    world: World<P, K>,
    store: Store<D, E>,
) -> Ran<S, N, P, K, D, E>
where
    D::Reader: Send,
    // With status 1 no device was asked.
    ensures idle { result.ended.status.code ≡ 1
        → (result.ended.store ≡ store) × (result.ended.world ≡ world) × (result.streams ≡ streams) }

    // What `run_pipe` promises, of the disk, the keep, the source, the sink and the first clock. The rest of the world stays.
    ensures pipe { (AsksLinks (texts_of words.now) → ⊥) → Pipes (texts_of words.now) result.ended.status
        (record {
          source = record {
            tells = S.tells;
            given = S.given streams.source;
            given_then = S.given result.streams.source;
            left_then = S.left result.streams.source;
          };
          gives = D.Reader.gives;
          disk = view_of D.tells D.state D.faults D.syncs;
          sink = N.tells;
          clock = K.tells;
          old = store.disk;
          new = result.ended.store.disk;
          taken = N.taken streams.sink;
          taken_then = N.taken result.streams.sink;
          readings = K.readings world.clocks.0;
          readings_then = K.readings result.ended.world.clocks.0;
        })
        (record {
          tells = E.tells;
          old = E.state store.keep;
          new = E.state result.ended.store.keep;
          failed = E.faults store.keep;
          failed_then = E.faults result.ended.store.keep;
        })
        (record {
          source = S.faults streams.source;
          sink = N.faults streams.sink;
          disk = D.faults store.disk;
          keep = E.faults store.keep;
          clock = K.faults world.clocks.0;
        })
        (record {
          source = S.faults result.streams.source;
          sink = N.faults result.streams.sink;
          disk = D.faults result.ended.store.disk;
          keep = E.faults result.ended.store.keep;
          clock = K.faults result.ended.world.clocks.0;
        }) }
    // Each message that was answered with 0 once it was on the disk stands there, whatever crashes.
    ensures answered { (AsksLinks (texts_of words.now) → ⊥) → result.ended.status.code ≢ 1 → KeepsAnswers (texts_of words.now)
        (record {
          source = record {
            tells = S.tells;
            given = S.given streams.source;
            given_then = S.given result.streams.source;
            left_then = S.left result.streams.source;
          };
          gives = D.Reader.gives;
          disk = view_of D.tells D.state D.faults D.syncs;
          sink = N.tells;
          clock = K.tells;
          old = store.disk;
          new = result.ended.store.disk;
          taken = N.taken streams.sink;
          taken_then = N.taken result.streams.sink;
          readings = K.readings world.clocks.0;
          readings_then = K.readings result.ended.world.clocks.0;
        })
        (record {
          tells = E.tells;
          old = E.state store.keep;
          new = E.state result.ended.store.keep;
          failed = E.faults store.keep;
          failed_then = E.faults result.ended.store.keep;
        }) }
    ensures others { (AsksLinks (texts_of words.now) → ⊥) → (result.ended.core ≡ None)
        × (result.ended.world.ready ≡ world.ready) × (result.ended.world.door ≡ world.door)
        × (result.ended.world.clocks.1 ≡ world.clocks.1) × (result.ended.world.timer ≡ world.timer) }

    // What `run_serve` promises, of the disk, the keep and the world. The streams stay.
    ensures serve { AsksLinks (texts_of words.now) → Serves (texts_of words.now) result.ended.status
        (record {
          views = views_of (links_over P.Link.tells P.Ends.tells P.Ends.entries result.ended.ends) D.Reader.gives
              (clocks_over K.tells (readings_of K.readings world) (readings_of K.readings result.ended.world))
              (view_of D.tells D.state D.faults D.syncs);
          old = store.disk;
          new = result.ended.store.disk;
          read_faults = D.reader_faults;
          keep = keep_over E.tells (E.state store.keep) (E.state result.ended.store.keep);
          core = result.ended.core;
          ends = P.Ends.tells;
          gave = (P.Door.gave world.door, P.Door.gave result.ended.world.door);
        })
        (counts_of (D.faults store.disk) (E.faults store.keep) (world_faults P.faults P.Door.faults K.faults world))
        (counts_of (D.faults result.ended.store.disk) (E.faults result.ended.store.keep)
        (world_faults P.faults P.Door.faults K.faults result.ended.world)) }
    ensures streams { AsksLinks (texts_of words.now) → result.streams ≡ streams }
    // Each message that a link sent and that was answered with 0 was found on the disk by a look of the history, and stands there
    // since the flush turn before that look, whatever crashes.
    ensures acknowledged { AsksLinks (texts_of words.now) → IfSome result.ended.core (λ left. KeepsServed (texts_of words.now)
        result.ended.status
        (record {
          views = views_of (links_over P.Link.tells P.Ends.tells P.Ends.entries result.ended.ends) D.Reader.gives
              (clocks_over K.tells (readings_of K.readings world) (readings_of K.readings result.ended.world))
              (view_of D.tells D.state D.faults D.syncs);
          old = store.disk;
          new = result.ended.store.disk;
          read_faults = D.reader_faults;
          keep = keep_over E.tells (E.state store.keep) (E.state result.ended.store.keep);
          core = result.ended.core;
          ends = P.Ends.tells;
          gave = (P.Door.gave world.door, P.Door.gave result.ended.world.door);
        })
        left) }
{
    if asks_links(words) {
        return Ran {
            ended: run_serve(rt, alloc, words, world, store),
            streams,
        };
    }
    let mut streams = streams;
    let mut world = world;
    let mut store = store;
    let status = run_pipe(
        alloc,
        words,
        &mut streams.source,
        &mut streams.sink,
        &mut store.disk,
        &mut store.keep,
        &mut world.clocks.0,
    );
    Ran {
        ended: Ended {
            status,
            core: None,
            store,
            world,
            ends: None,
        },
        streams,
    }
}
