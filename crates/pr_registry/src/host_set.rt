//! Sets of hosts.

ghost use Rattle.std.specs.Prelude.{◌≡◌, ◌<◌, ◌↔◌, IsTrue};
ghost use Rattle.std.specs.FinSet as set;
ghost use Rattle.pr_registry.specs.Hosts.{Hosts, nobody};

use pr_cdb::codes::MOST_NEXUSES;
use std::marker::Model;

// The 16 of this file is how many bits the word has: to serve more hosts than that, it takes a wider type.
const _: () = prove!(MOST_NEXUSES <= 16);

/// A set of hosts, by their numbers.
#[derive(Debug, Drop)]
pub struct HostSet {
    bits: u16,
}

impl Model for HostSet {
    ghost use Rattle.std.specs.Prelude.{◌==◌};
    ghost use Rattle.std.specs.Int.{bit_at};
    ghost use Rattle.std.specs.FinSet.{code};
    ghost use Rattle.std.specs.Coded.{coded_ℕ};
    ghost use Rattle.pr_registry.specs.Hosts.{Hosts};
    ghost use Rattle.pr_registry.specs.inside.HostBits.{hosts_where};

    ghost Value = { Hosts };

    ghost coded = { code coded_ℕ };

    ghost view = { λ s. hosts_where 16 (λ h. bit_at s.bits h == 1) };
}

impl HostSet {
    /// No host.
    #[tactic(auto, unfolding(crate::specs::inside::HostBits::hosts_where))]
    pub(crate) fn new() -> Self
        ensures { result ≡ nobody }
    {
        HostSet { bits: 0 }
    }

    /// Adds a host.
    pub(crate) fn insert(&mut self, host: u8)
        requires { host < 16 }
        ensures { self.new ≡ set.insert self.old host }
    {
        self.bits |= 1 << host;
    }

    /// The hosts of this set but one.
    pub(crate) fn without(&self, host: u8) -> HostSet
        requires { host < 16 }
        ensures { result ≡ set.remove self.now host }
    {
        HostSet {
            bits: self.bits & !(1 << host),
        }
    }

    /// The hosts of this set that are not in the other.
    pub(crate) fn difference(&self, other: &HostSet) -> HostSet
        ensures { result ≡ set.difference self.now other.now }
    {
        HostSet {
            bits: self.bits & !other.bits,
        }
    }

    /// Whether the host is in the set.
    pub fn has(&self, host: u8) -> bool
        ensures { result ≡ set.contains self.now host }
    {
        host < 16 && self.bits >> host & 1 == 1
    }

    /// Whether no host is in the set.
    pub fn is_empty(&self) -> bool
        ensures { IsTrue result ↔ (self.now ≡ nobody) }
    {
        self.bits == 0
    }
}
