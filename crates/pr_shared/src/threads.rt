//! A thread for each seat.

ghost use Rattle.std.specs.Prelude.{◌≡◌, ◌≤◌, map, vec_len};
ghost use Rattle.pr_shared.specs.inside.Seating.{HasRoomFor, hosts_of};
ghost use Rattle.pr_shared.specs.inside.Starting.{StartedBut};

use crate::gate::Gate;
use crate::round::Round;
use crate::seat::Seat;
use crate::shared::SharedWorld;
use std::sync::Wait;
use std::thread;
use std::thread::{Promise, PromisedHandle, Scope, Threads};

/// The promise that a thread gives back the seat that it got, which is that of this nexus.
#[derive(Clone, Copy)]
pub(crate) struct SeatOf(u8);

impl<C: Round> Promise<Seat<C>> for SeatOf {
    ghost use Rattle.std.specs.Prelude.{◌≡◌};

    ghost kept_by = { λ promise seat. seat.host ≡ promise.0 };
}

/// A thread that is still to be joined.
pub(crate) type Started<C> = PromisedHandle<Seat<C>, SeatOf>;

/// Takes the turns of all seats, each in a thread of its own, and answers the seats of the threads that were started, in
/// order. Where one could not be started it answers its number too, and none after it is tried.
pub(crate) fn in_threads<'a, C: Round + Send + Sync, G: Gate, R: Threads + Wait + Sync>(
    rt: &'a R,
    shared: &'a SharedWorld<C>,
    gate: &'a G,
    seats: Vec<Seat<C>>,
    started: Vec<Started<C>>,
    back: Vec<Seat<C>>,
) -> (Vec<Seat<C>>, Option<u8>)
    requires started { HasRoomFor (vec_len seats) started }
    requires back { HasRoomFor (vec_len seats) back }
    ensures { StartedBut result.1 (hosts_of result.0.items) (hosts_of seats.items) }
{
    thread::scope(
        thread::scope_env(),
        rt,
        |scope| -> (Vec<Seat<C>>, Option<u8>)
            requires started { HasRoomFor (vec_len seats) started }
            requires back { HasRoomFor (vec_len seats) back }
            ensures { StartedBut result.1 (hosts_of result.0.items) (hosts_of seats.items) }
        {
            let (started, failed) = start_all(scope, rt, shared, gate, seats, started);
            (join_all(rt, started, back), failed)
        },
    )
}

// Starts a thread for each seat, in order, until one cannot be started.
fn start_all<'s, 'a: 's, C: Round + Send + Sync, G: Gate, R: Threads + Wait + Sync>(
    scope: &'s Scope<'s, &'a ()>,
    rt: &'a R,
    shared: &'a SharedWorld<C>,
    gate: &'a G,
    seats: Vec<Seat<C>>,
    mut started: Vec<Started<C>>,
) -> (Vec<Started<C>>, Option<u8>)
    requires { HasRoomFor (vec_len seats) started }
    ensures started { StartedBut result.1 (map (λ h. h.promise.0) result.0.items)
        (hosts_of seats.items) }
    ensures few { vec_len result.0 ≤ vec_len seats }
{
    for seat in seats {
        let host = seat.host();
        let Ok(handle) = scope.spawn_with(SeatOf(host), move || work(rt, shared, gate, seat)) else {
            return (started, Some(host));
        };
        started.push_reserved(handle);
    }
    (started, None)
}

// The seats that the threads give back, in order.
fn join_all<C: Round, R: Threads>(
    rt: &R,
    started: Vec<Started<C>>,
    mut back: Vec<Seat<C>>,
) -> Vec<Seat<C>>
    requires { HasRoomFor (vec_len started) back }
    ensures { hosts_of result.items ≡ map (λ h. h.promise.0) started.items }
{
    for handle in started {
        back.push_reserved(handle.join(rt));
    }
    back
}

// Takes the turns of a seat until it has ended, or has taken as many as there is room for.
fn work<C: Round, G: Gate, R: Wait>(
    rt: &R,
    shared: &SharedWorld<C>,
    gate: &G,
    mut seat: Seat<C>,
) -> Seat<C>
    ensures { result.host ≡ seat.host }
{
    let host = seat.host();
    for n in 1..=seat.room() {
        if !seat.may_turn() {
            break;
        }
        gate.before(host, n);
        if gate.resets(host, n) {
            shared.reset(rt);
        }
        let turn = shared.turn_as(rt, &mut seat, gate.how(host, n));
        gate.after(host, n, &turn);
    }
    seat
}
