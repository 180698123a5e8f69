//! The tally of a view: the possible endings of a command of its owner, each with the possible states after it.

ghost use Rattle.std.specs.Prelude.{◌≡◌, ◌<◌, ◌≤◌, ℕ, true, ◌==◌, ◌||◌, length, IsTrue, IfSome, IfNone};
ghost use Rattle.std.specs.List.{All};
ghost use Rattle.pr_script.specs.Grammar.{is_read_keys, is_read_reservation};
ghost use Rattle.pr_script.specs.declared.limits.TheConstants.{MOST_ARMS};
ghost use Rattle.pr_roles.specs.declared.limits.TheConstants.{MOST_KEYS};
ghost use Rattle.pr_sets.specs.Numbers.{most};
ghost use Rattle.pr_sets.specs.BitSets.{has};
ghost use Rattle.pr_sets.specs.Wides.{has_wide};
ghost use Rattle.pr_views.specs.declared.view.TheConstants.{MOST_REGISTRATIONS};
ghost use Rattle.pr_roles.specs.Keys.{key_at};
ghost use Rattle.pr_regions.specs.Purposes.{HasNumber};
ghost use Rattle.pr_unit.specs.Demands.{is_not_admitted};
ghost use Rattle.pr_regions.specs.Regions.{HasRoom, standing_of};
ghost use Rattle.pr_domain.specs.inside.Tallies.{AddsBranch, AddsBranches, AddsAccepted, AddsRefused, AddsReading, AddsReadings, AreTallied, way_of};
ghost use Rattle.pr_domain.specs.inside.TestedCommands.{AddsSenders, AddsReservation, AreAlike, IsTallyOf};

use crate::arms::first_arm;
use crate::tally::Tally;
use crate::tested::TestedCommand;
use crate::twins::twin_of;
use pr_cdb::Command;
use pr_cdb::codes::MOST_NEXUSES;
use pr_regions::{
    Branch, Ending, Place, Purpose, Reading, Region, Standing, branches, change_to_reservation,
    purpose_of, readings, registrations_after, standing_of,
};
use pr_roles::key_at;
use pr_script::Class;
use pr_script::limits::MOST_ARMS;
use pr_sets::{BitSet, Wide};
use pr_unit::is_not_admitted;
use pr_views::{MOST_REGISTRATIONS, Possibilities, count_of_reservations};

/// The arm that takes the data of GOOD, counted from 1, or 0 where none does.
#[derive(Clone, Copy)]
struct ArmNumber {
    number: usize,
    ghost few: { number ≤ MOST_ARMS },
}

// These registrations under this reservation.
fn part(registrations: [BitSet; MOST_NEXUSES], reservation: u8) -> Possibilities
    requires { reservation < most }
    ensures registrations { result.registrations ≡ registrations }
    ensures reservations { (x : ℕ) → has_wide result.reservations x ≡ (x == reservation) }
{
    Possibilities {
        registrations,
        reservations: Wide::only(reservation),
        pending: BitSet::none(),
    }
}

// Adds the states of one branch's region, in which the sender has one of these registrations.
fn add_branch(
    tally: &mut Tally,
    view: &Possibilities,
    place: Place,
    senders: BitSet,
    branch: &Branch,
    arm: ArmNumber,
)
    requires room { HasRoom place.hosts branch.now.ending }
    ensures { AddsBranch view.now place senders branch.now arm.number tally.old tally.new }
{
    let Some(registrations) = place.gather(view, senders, &branch.region) else {
        return;
    };
    let here = part(registrations, place.reservation);
    match branch.ending {
        Ending::Conflict => tally.add(0, &here),
        Ending::Fault(_) => {
            tally.add(1, &here);
            tally.add(2, &here);
        }
        Ending::Good(change) => {
            let after = registrations_after(&registrations, place.sender, &change);
            tally.add(1, &here);
            tally.add(3 + arm.number, &part(after, change.reservation));
        }
    }
}

// Adds the states of the regions of all branches.
fn add_branches(
    tally: &mut Tally,
    view: &Possibilities,
    place: Place,
    senders: BitSet,
    branches: &[Branch],
    arm: ArmNumber,
)
    requires room { All (λ b. HasRoom place.hosts b.ending) branches.now }
    ensures { AddsBranches view.now place senders branches.now arm.number tally.old tally.new }
{
    for branch in branches {
        add_branch(tally, view, place, senders, branch, arm);
    }
}

// Adds the states in which the sender has one of these registrations, stands so by each, and the command's reservation key is
// accepted from it.
fn add_accepted(
    tally: &mut Tally,
    view: &Possibilities,
    place: Place,
    purpose: Purpose,
    arm: ArmNumber,
    senders: BitSet,
    standing: Standing,
)
    requires number { HasNumber purpose }
    ensures { AddsAccepted view.now place purpose arm.number senders standing tally.old tally.new }
{
    let branches = branches(place.hosts, purpose, place.held, place.sender, standing);
    add_branches(tally, view, place, senders, &branches, arm);
}

// Adds those in which its reservation key is not accepted.
fn add_refused(tally: &mut Tally, view: &Possibilities, place: Place, senders: BitSet)
    ensures { AddsRefused view.now place senders tally.old tally.new }
{
    let anything = BitSet::below(MOST_REGISTRATIONS);
    let region = Region {
        holder: anything,
        others: anything,
        somebody: None,
    };
    let branch = Branch {
        region,
        ending: Ending::Conflict,
    };
    let none = ArmNumber { number: 0 };
    add_branch(tally, view, place, senders, &branch, none);
}

// The number of this arm, of at most 16.
fn way_of(arm: Option<usize>) -> ArmNumber
    ensures way { IfSome arm (λ n. n < MOST_ARMS) → result.number ≡ way_of arm }
    ensures none { IfNone arm (result.number ≡ 0) }
{
    match arm {
        Some(n) if n < MOST_ARMS => ArmNumber { number: n + 1 },
        _ => ArmNumber { number: 0 },
    }
}

// Whether all that may be so in the states of this region was added before, of the ways of GOOD and of this arm.
fn is_tallied(
    tally: &Tally,
    view: &Possibilities,
    place: Place,
    senders: BitSet,
    region: &Region,
    arm: ArmNumber,
) -> bool
    ensures { IsTrue result → AreTallied view.now place senders region.now arm.number tally.now }
{
    let most = place.gathered_at_most(view, senders, region);
    let found = part(most, place.reservation);
    tally.has(1, place.hosts, &found) && tally.has(3 + arm.number, place.hosts, &found)
}

// Adds the states in which this arm takes the data, in which nothing changes.
fn add_reading(
    tally: &mut Tally,
    view: &Possibilities,
    place: Place,
    registration: u8,
    reading: &Reading,
)
    requires registration { registration ≤ MOST_KEYS }
    ensures { AddsReading view.now place registration reading.now tally.old tally.new }
{
    let senders = BitSet::only(registration);
    let way = way_of(reading.arm);
    if is_tallied(tally, view, place, senders, &reading.region, way) {
        return;
    }
    let branch = Branch {
        region: reading.region,
        ending: Ending::Good(change_to_reservation(place.reservation)),
    };
    add_branch(tally, view, place, senders, &branch, way);
}

// Adds the states of every reading.
fn add_readings(
    tally: &mut Tally,
    view: &Possibilities,
    place: Place,
    registration: u8,
    readings: &[Reading],
)
    requires registration { registration ≤ MOST_KEYS }
    ensures { AddsReadings view.now place registration readings.now tally.old tally.new }
{
    for reading in readings {
        add_reading(tally, view, place, registration, reading);
    }
}

// Whether the command returns data that tests look at.
fn is_reading(command: Command) -> bool
    ensures { result ≡ (is_read_keys command || is_read_reservation command) }
{
    matches!(
        command,
        Command::ReadKeys { .. } | Command::ReadReservation { .. }
    )
}

// Adds the states in which the sender has one of the registrations that are alike to this one.
fn add_alike(
    tally: &mut Tally,
    view: &Possibilities,
    place: Place,
    asked: &TestedCommand,
    registration: u8,
    alike: BitSet,
)
    requires registration { registration ≤ length asked.now.keys.now }
    requires alike { AreAlike asked.now registration alike }
    ensures { AddsSenders view.now place asked.now alike tally.old tally.new }
{
    if is_not_admitted(key_at(asked.keys, registration), asked.command) {
        add_refused(tally, view, place, alike);
    } else if is_reading(asked.command) {
        let readings = readings(
            asked.tests,
            asked.command,
            asked.keys,
            place.held,
            place.sender,
            registration,
        );
        add_readings(tally, view, place, registration, &readings);
    } else {
        let purpose = purpose_of(asked.command, asked.keys);
        let standing = standing_of(purpose, registration);
        let arm = way_of(first_arm(asked.tests, Class::Good));
        add_accepted(tally, view, place, purpose, arm, alike, standing);
    }
}

// Whether this one is left, is refused or not, and stands so to the purpose.
fn is_left_so(
    asked: &TestedCommand,
    left: BitSet,
    registration: u8,
    refused: bool,
    purpose: Purpose,
    standing: Standing,
) -> bool
    requires { registration < MOST_REGISTRATIONS }
    ensures left { IsTrue result → has left registration ≡ true }
    ensures refused { IsTrue result → is_not_admitted (key_at asked.now.keys.now registration)
        asked.now.command ≡ refused }
    ensures stands { IsTrue result → standing_of purpose registration ≡ standing }
{
    left.has(registration)
        && standing_of(purpose, registration) == standing
        && is_not_admitted(key_at(asked.keys, registration), asked.command) == refused
}

// Of the registrations that are left those that are alike to this one, so that one look at a reservation serves all of them.
fn alike_to(asked: &TestedCommand, left: BitSet, registration: u8) -> BitSet
    requires registration { registration ≤ length asked.now.keys.now }
    requires left { has left registration ≡ true }
    ensures alike { AreAlike asked.now registration result }
    ensures left { (r : ℕ) → has result r ≡ true → has left r ≡ true }
{
    let mut alike = BitSet::only(registration);
    if is_reading(asked.command) {
        return alike;
    }
    let refused = is_not_admitted(key_at(asked.keys, registration), asked.command);
    let purpose = purpose_of(asked.command, asked.keys);
    let standing = standing_of(purpose, registration);
    for other in 0..MOST_REGISTRATIONS {
        if is_left_so(asked, left, other, refused, purpose, standing) {
            alike = alike.with(other);
        }
    }
    alike
}

/// Adds the states under one reservation in which the sender has one of these registrations.
pub(crate) fn add_senders(
    tally: &mut Tally,
    view: &Possibilities,
    place: Place,
    asked: &TestedCommand,
    senders: BitSet,
)
    ensures { AddsSenders view.now place asked.now senders tally.old tally.new }
{
    let registrations = asked.keys.len() as u8 + 1;
    let mut done = BitSet::none();
    for registration in 0..registrations {
        let left = senders.except(done);
        if left.has(registration) {
            let alike = alike_to(asked, left, registration);
            add_alike(tally, view, place, asked, registration, alike);
            done = done.or(alike);
        }
    }
}

// Adds the states under one reservation to those under all that come before it. Commands that read end alike under
// reservations with the same holders.
fn add_reservation(tally: &mut Tally, view: &Possibilities, place: Place, asked: &TestedCommand)
    ensures { AddsReservation view.now place asked.now tally.old tally.new }
{
    if is_reading(asked.command) {
        if let Some(twin) = twin_of(&place, view) {
            tally.add_twin(twin, place.reservation);
            return;
        }
    }
    let senders = view.registrations[usize::from(place.sender)];
    add_senders(tally, view, place, asked, senders);
}

/// The possible endings of the owner's command, each with the possible states after it.
pub(crate) fn tally(view: &Possibilities, hosts: u8, own: u8, asked: &TestedCommand) -> Tally
    requires hosts { (1 ≤ hosts) × (hosts ≤ MOST_NEXUSES) }
    requires own { own < hosts }
    ensures { IsTallyOf view.now hosts own asked.now result }
{
    let mut tally = Tally::none();
    for reservation in 0..count_of_reservations(hosts) {
        if view.reservations.has(reservation) {
            let place = Place::of(hosts, own, reservation);
            add_reservation(&mut tally, view, place, asked);
        }
    }
    tally
}
