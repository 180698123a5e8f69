//! A unit that goes on as a trace says that it answered.

ghost use Rattle.std.specs.Prelude.{◌≡◌, ◌<◌};

use crate::reply::generation_in;
use pr_attention::Attention;
use pr_cdb::{Command, Reply, Request, Status, Wire, decode, encode};
use pr_registry::Registry;
use pr_roles::Entry;
use pr_unit::{Unit, admission_of};
use std::alloc::{AllocError, Global};

/// The sense key of an attention.
const UNIT_ATTENTION: u8 = 6;

/// The unit once it has answered the entry as the trace says, whatever the model would have answered.
///
/// Where that is GOOD, nothing is pending for the sender any more, the command has its effect, and the generation is what its data
/// says. Where it is an attention, that one is no longer pending, or else the one that the model would have reported first. Any
/// other reply changes nothing.
pub fn adopt(alloc: Global, unit: &mut Unit, entry: &Entry) -> Result<(), AllocError>
    requires { entry.now.host < unit.old.registry.hosts }
    ensures { unit.new.registry.hosts ≡ unit.old.registry.hosts }
{
    match entry.reply.status {
        Status::Good => adopt_good(alloc, unit, entry),
        Status::CheckCondition => adopt_report(alloc, unit, entry.host, &entry.reply),
        Status::Conflict | Status::Busy | Status::TaskFull => Ok(()),
    }
}

fn adopt_good(alloc: Global, unit: &mut Unit, entry: &Entry) -> Result<(), AllocError>
    requires { entry.now.host < unit.old.registry.hosts }
    ensures { unit.new.registry.hosts ≡ unit.old.registry.hosts }
{
    for _ in Attention::ALL {
        report(unit, entry.host);
    }
    perform(alloc, unit, entry.host, &entry.wire)?;
    match generation_told(entry) {
        Some(generation) => set_generation(alloc, unit, generation),
        None => Ok(()),
    }
}

// The generation that the data of a READ KEYS or READ RESERVATION begins with.
fn generation_told(entry: &Entry) -> Option<u32> {
    match decode(&entry.wire.cdb, &entry.wire.params) {
        Ok(Request::Plain(Command::ReadKeys { .. } | Command::ReadReservation { .. })) => {
            generation_in(&entry.reply.bytes)
        }
        Ok(_) | Err(_) => None,
    }
}

// The unit has this generation, and is as before else.
fn set_generation(alloc: Global, unit: &mut Unit, generation: u32) -> Result<(), AllocError>
    ensures { unit.new.registry.hosts ≡ unit.old.registry.hosts }
{
    let other = rebuilt(alloc, unit, generation, None)?;
    replace(unit, other);
    Ok(())
}

// The other unit stands in its place, which has as many nexuses.
fn replace(unit: &mut Unit, other: Option<Unit>)
    ensures { unit.new.registry.hosts ≡ unit.old.registry.hosts }
{
    if let Some(other) = other
        && other.registry().hosts() == unit.registry().hosts()
    {
        *unit = other;
    }
}

// The same unit with this generation, and without this attention of a nexus.
fn rebuilt(
    alloc: Global,
    unit: &Unit,
    generation: u32,
    told: Option<(u8, Attention)>,
) -> Result<Option<Unit>, AllocError> {
    let registry = unit.registry();
    let mut keys = Vec::new(alloc);
    let mut pendings = Vec::new(alloc);
    for host in 0..registry.hosts() {
        let mut pending = unit.pending(host).copy();
        if let Some((owner, attention)) = told
            && owner == host
        {
            pending.remove(attention);
        }
        keys.push(registry.key(host))?;
        pendings.push(pending)?;
    }
    let registry = Registry::from_parts(&keys, registry.held(), generation);
    Ok(registry.and_then(|registry| Unit::with(registry, &pendings)))
}

// Reports what is pending for the host, the lowest code first: a TEST UNIT READY never conflicts.
fn report(unit: &mut Unit, host: u8)
    requires { host < unit.old.registry.hosts }
    ensures { unit.new.registry.hosts ≡ unit.old.registry.hosts }
{
    let _ = ends_good(unit, host, &encode(&Command::TestUnitReady));
}

// The attention that the reply tells is no longer pending, or else the one that the model would have reported.
fn adopt_report(alloc: Global, unit: &mut Unit, host: u8, reply: &Reply) -> Result<(), AllocError>
    requires { host < unit.old.registry.hosts }
    ensures { unit.new.registry.hosts ≡ unit.old.registry.hosts }
{
    let Some(sense) = reply.sense else {
        return Ok(());
    };
    if sense.key != UNIT_ATTENTION {
        return Ok(());
    }
    let told = Attention::ALL.into_iter().find(|it| it.sense() == sense);
    match told {
        Some(attention) if unit.pending(host).has(attention) => {
            let generation = unit.registry().generation();
            let other = rebuilt(alloc, unit, generation, Some((host, attention)))?;
            replace(unit, other);
        }
        Some(_) | None => report(unit, host),
    }
    Ok(())
}

// Executes the command. Where the model refuses it, and would not if the sender had the key that the command names, it has that
// key.
fn perform(alloc: Global, unit: &mut Unit, host: u8, wire: &Wire) -> Result<(), AllocError>
    requires { host < unit.old.registry.hosts }
    ensures { unit.new.registry.hosts ≡ unit.old.registry.hosts }
{
    if ends_good(unit, host, wire) {
        return Ok(());
    }
    if let Some(rk) = key_named(wire) {
        let mut other = unit.copy();
        let _ = ends_good(
            &mut other,
            host,
            &encode(&Command::RegisterIgnore { sark: rk }),
        );
        if ends_good(&mut other, host, wire) {
            // (the key was there before, so it was not registered now)
            let generation = other.registry().generation();
            set_generation(alloc, &mut other, generation.wrapping_sub(1))?;
            *unit = other;
        }
    }
    Ok(())
}

// The reservation key of a PERSISTENT RESERVE OUT.
fn key_named(wire: &Wire) -> Option<u64> {
    let Ok(Request::Plain(command)) = decode(&wire.cdb, &wire.params) else {
        return None;
    };
    admission_of(command).key()
}

// Whether the unit, which executes the command, answers it with GOOD. Bytes that are no request change nothing.
#[tactic(auto, using(crate::proofs::lemmas::Adoptions::hosts_executed))]
fn ends_good(unit: &mut Unit, host: u8, wire: &Wire) -> bool
    requires { host < unit.old.registry.hosts }
    ensures { unit.new.registry.hosts ≡ unit.old.registry.hosts }
{
    match unit.execute(host, wire) {
        Ok(reply) => reply.status == Status::Good,
        Err(_) => false,
    }
}
