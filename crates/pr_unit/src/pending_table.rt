//! The pending attentions of all hosts, as a table with a place for each.

ghost use Rattle.std.specs.Prelude.{◌≡◌, ◌<◌, ◌≤◌, ◌==◌, not, ℕ, true, IsNone, IfSome, ◌↔◌};
ghost use Rattle.std.specs.FinSet as set;
ghost use Rattle.pr_attention.specs.Attentions.{code_of};
ghost use Rattle.pr_unit.specs.Attentions.{each_with, hosts_below};
ghost use Rattle.pr_unit.specs.Tables.{table_pairs};
ghost use Rattle.pr_unit.specs.UnitStates.{has_attention, pending_after};
ghost use Rattle.pr_unit.specs.inside.Told.{AreBelow, TellsBelow, IsLowestOf, HasNone};

use pr_attention::{Attention, Pending};
use pr_cdb::codes::MOST_NEXUSES;
use pr_registry::{Change, HostSet};

/// Whether the attention is pending for the host.
pub(crate) fn has(pendings: &[Pending; MOST_NEXUSES], host: u8, attention: Attention) -> bool
    requires { host < MOST_NEXUSES }
    ensures { result ≡ set.contains (table_pairs pendings.now) (host, code_of attention) }
{
    let pending = &pendings[usize::from(host)];
    pending.has(attention)
}

/// The attention with the lowest code of those that are pending for the host.
pub(crate) fn lowest(pendings: &[Pending; MOST_NEXUSES], host: u8) -> Option<Attention>
    requires { host < MOST_NEXUSES }
    ensures some { IfSome result (λ attention. IsLowestOf (table_pairs pendings.now) host
        (code_of attention)) }
    ensures none { IsNone result ↔ HasNone (table_pairs pendings.now) host }
{
    let pending = &pendings[usize::from(host)];
    pending.lowest()
}

/// Whether any attention is pending for the host.
pub(crate) fn has_any(pendings: &[Pending; MOST_NEXUSES], host: u8) -> bool
    requires { host < MOST_NEXUSES }
    ensures { result ≡ has_attention (table_pairs pendings.now) host }
{
    Attention::ALL
        .iter()
        .any(|attention| has(pendings, host, *attention))
}

/// Makes the attention pending for the host.
pub(crate) fn add(pendings: &mut [Pending; MOST_NEXUSES], host: u8, attention: Attention)
    requires { host < MOST_NEXUSES }
    ensures { table_pairs pendings.new ≡ set.insert (table_pairs pendings.old)
        (host, code_of attention) }
{
    let pending = &mut pendings[usize::from(host)];
    pending.add(attention);
}

/// Takes the attention away from the host.
pub(crate) fn remove(pendings: &mut [Pending; MOST_NEXUSES], host: u8, attention: Attention)
    requires { host < MOST_NEXUSES }
    ensures { table_pairs pendings.new ≡ set.remove (table_pairs pendings.old)
        (host, code_of attention) }
{
    let pending = &mut pendings[usize::from(host)];
    pending.remove(attention);
}

/// Takes whatever is pending away from the host.
pub(crate) fn silence(pendings: &mut [Pending; MOST_NEXUSES], host: u8)
    requires { host < MOST_NEXUSES }
    ensures { table_pairs pendings.new ≡ set.retain (table_pairs pendings.old)
        (λ p. not (p.0 == host)) }
{
    pendings[usize::from(host)] = Pending::new();
}

/// Makes the attention pending for each of the hosts.
pub(crate) fn tell(pendings: &mut [Pending; MOST_NEXUSES], hosts: &HostSet, attention: Attention)
    requires { AreBelow MOST_NEXUSES hosts.now }
    ensures { table_pairs pendings.new ≡ set.union (table_pairs pendings.old)
        (each_with hosts.now (code_of attention)) }
{
    for host in 0..MOST_NEXUSES as u8 {
        if hosts.has(host) {
            add(pendings, host, attention);
        }
    }
}

/// Makes the attention pending for each of so many hosts.
pub(crate) fn tell_all(pendings: &mut [Pending; MOST_NEXUSES], hosts: u8, attention: Attention)
    requires { hosts ≤ MOST_NEXUSES }
    ensures { table_pairs pendings.new ≡ set.union (table_pairs pendings.old)
        (each_with (hosts_below hosts) (code_of attention)) }
{
    for host in 0..hosts {
        add(pendings, host, attention);
    }
}

/// Makes pending what a change tells.
pub(crate) fn tell_change(pendings: &mut [Pending; MOST_NEXUSES], change: &Change)
    requires { TellsBelow MOST_NEXUSES change.now }
    ensures { table_pairs pendings.new ≡ pending_after (table_pairs pendings.old) change.now }
{
    tell(pendings, &change.told_03, Attention::ReservationsPreempted);
    tell(pendings, &change.told_04, Attention::ReservationsReleased);
    tell(pendings, &change.told_05, Attention::RegistrationsPreempted);
}
