//! Threads that accept connections and serve them.
ghost use Rattle.std.specs.Prelude.{◌≡◌, ◌<◌, ◌≤◌, ◌++◌, ◌∷◌, [], IfErr, IfOk, vec_len, vec_capacity};
ghost use Rattle.table_sockets.specs.End.{later};
ghost use Rattle.table_sockets.specs.Serving.{AreServed, Leaves};

use crate::accepts::Accepts;
use crate::end::{Done, End};
use crate::worker::{Left, Promised, Work};
use core::thread::Stack;
use shared_tables::{Gate, Pass, Shared};
use std::snapshot::Snapshot;
use std::sync::Wait;
use std::sync::atomic::{AtomicUsize, Ordering};
use std::thread;
use std::thread::{PromisedHandle, Scope, Threads};

/// The stack of a thread, in bytes. The deepest line, of 127 levels of JSON, takes less than 256 KiB of it.
const STACK: usize = 2 << 20;

/// Starts a thread for each pass, each of which accepts so many connections, one after the other, and serves each to its
/// end. A fault of a connection's reads or writes ends that connection alone. A thread ends where no connection can be
/// accepted, memory is refused or a call is; the others go on. Returns when all threads have ended. Takes no memory but the
/// threads' own.
pub fn serve_on<L: Accepts + Drop + Sync, G: Gate + Drop + Sync, R: Threads + Wait + Sync>(
    rt: &R,
    listening: L,
    shared: Shared<G>,
    passes: Vec<Pass>,
    each: u32,
) -> Done<G>
    ensures shared { result.shared ≡ shared }
    ensures passes { vec_len result.passes ≡ vec_len passes }
    ensures served { AreServed (L.known listening) shared each passes.items result.passes.items result.end }
{
    let work = Work {
        listening,
        shared,
        each,
        refused: AtomicUsize::new(0),
    };
    let (passes, end) = serve_all(rt, &work, passes);
    let Work {
        listening: _listening,
        shared,
        each: _,
        refused: _,
    } = work;
    Done {
        shared,
        passes,
        end,
    }
}

// Lets each pass serve its connections in a thread of its own.
fn serve_all<L: Accepts + Sync, G: Gate + Sync, R: Threads + Wait + Sync>(
    rt: &R,
    work: &Work<L, G>,
    passes: Vec<Pass>,
) -> (Vec<Pass>, End)
    ensures passes { vec_len result.0 ≡ vec_len passes }
    ensures served { AreServed (L.known work.now.listening) work.now.shared work.now.each passes.items result.0.items result.1 }
{
    thread::scope(
        thread::scope_env(),
        rt,
        |scope| -> (Vec<Pass>, End)
            ensures passes { vec_len result.0 ≡ vec_len passes }
            ensures served { AreServed (L.known work.entry.now.listening) work.entry.now.shared work.entry.now.each passes.items result.0.items result.1 }
        { serve_rest(scope, rt, work, passes) },
    )
}

// Starts a thread for each of these passes, and waits for them all.
fn serve_rest<'s, E, L: Accepts + Sync, G: Gate + Sync, R: Threads + Wait + Sync>(
    scope: &Scope<'s, E>,
    rt: &'s R,
    work: &'s Work<L, G>,
    mut passes: Vec<Pass>,
) -> (Vec<Pass>, End)
    ensures room { vec_capacity passes ≤ vec_capacity result.0 }
    ensures passes { vec_len result.0 ≡ vec_len passes }
    ensures served { AreServed (L.known work.now.listening) work.now.shared work.now.each passes.items result.0.items result.1 }
{
    let number = passes.len();
    let Some(pass) = passes.pop() else {
        return (passes, End::Fine);
    };
    let begun = begin(scope, rt, work, number, pass);
    let (passes, end) = serve_rest(scope, rt, work, passes);
    let left = match begun {
        Ok(thread) => thread.join(rt),
        Err(left) => left,
    };
    with_last(passes, end, left)
}

// Starts the thread of this number. Where it can't be started, its pass comes back as it is.
fn begin<'s, E, L: Accepts + Sync, G: Gate + Sync, R: Threads + Wait + Sync>(
    scope: &Scope<'s, E>,
    rt: &'s R,
    work: &'s Work<L, G>,
    number: usize,
    pass: Pass,
) -> Result<PromisedHandle<Left, Promised<L, G>>, Left>
    ensures begun { IfOk result (λ thread. (thread.promise.listening.value ≡ work.now.listening) × (thread.promise.shared.value ≡ work.now.shared) × (thread.promise.each ≡ work.now.each) × (thread.promise.pass.value ≡ pass)) }
    ensures refused { IfErr result (λ left. Leaves (L.known work.now.listening) work.now.shared work.now.each pass left.pass left.end) }
{
    let promise = Promised {
        listening: Snapshot::of(&work.listening),
        shared: Snapshot::of(&work.shared),
        pass: Snapshot::of(&pass),
        each: work.each,
    };
    let begun = Stack::new().stack_size(STACK).spawn_scoped_with(
        scope,
        promise,
        move || -> Left
            ensures { Leaves (L.known work.entry.now.listening) work.entry.now.shared work.entry.now.each pass result.pass result.end }
        { work.leave(rt, number, pass) },
    );
    match begun {
        Ok(thread) => Ok(thread),
        Err(not_begun) => {
            work.refused.store(number, Ordering::SeqCst);
            Err((not_begun.value)())
        }
    }
}

// The passes with this one behind them, for which there is room, and the later of both ends.
fn with_last(mut passes: Vec<Pass>, end: End, left: Left) -> (Vec<Pass>, End)
    requires { vec_len passes < vec_capacity passes }
    ensures room { vec_capacity passes ≤ vec_capacity result.0 }
    ensures passes { result.0.items ≡ passes.items ++ left.pass ∷ [] }
    ensures end { result.1 ≡ later end left.end }
{
    let Left { pass, end: other } = left;
    let Ok(()) = passes.push(pass) else {
        unreachable!()
    };
    (passes, end.later(other))
}
