//! The attentions that are pending for a host.

ghost use Rattle.std.specs.Prelude.{◌≡◌, ◌↔◌, ◌<◌, not, IsTrue, IsNone, IfSome, IfNone};
ghost use Rattle.std.specs.FinSet as set;
ghost use Rattle.pr_sets.specs.Numbers.{Within};
ghost use Rattle.pr_attention.specs.Attentions.{code_of};
ghost use Rattle.pr_attention.specs.CodeSets.{no_code, has_any, AreAttentions, IsLowest, ReportsLowest};
ghost use Rattle.pr_attention.specs.Flagged.{codes_of};

use crate::Attention;
use crate::flags::{AttentionFlags, EVERY_BIT, flag};
use bitflags::Flags;
use pr_cdb::Sense;
use std::marker::Model;

/// The attentions that are pending for a host, each once.
#[derive(Debug, Drop)]
pub struct Pending {
    flags: AttentionFlags,
}

impl Model for Pending {
    ghost use Rattle.std.specs.Prelude.{◌<◌};
    ghost use Rattle.std.specs.FinSet.{code};
    ghost use Rattle.std.specs.Coded.{coded_ℕ};
    ghost use Rattle.pr_attention.specs.Attentions.{Codes};
    ghost use Rattle.pr_attention.specs.Flagged.{codes_of};

    ghost Value = { Codes };

    ghost coded = { code coded_ℕ };

    ghost view = { λ p. codes_of p.flags.0 };

    ghost invariant = { λ p. p.flags.0 < 16 };
}

impl Pending {
    /// Nothing is pending.
    pub fn new() -> Self
        ensures { result ≡ no_code }
    {
        Pending {
            flags: AttentionFlags::empty(),
        }
    }

    /// Those whose bits are set in the number. A higher bit is of none.
    pub fn of_bits(bits: u8) -> Self
        ensures { result ≡ codes_of bits }
    {
        Pending {
            flags: AttentionFlags::from_bits_retain(bits & EVERY_BIT),
        }
    }

    /// An equal one.
    pub fn copy(&self) -> Self
        ensures value { result ≡ self.now }
        ensures members { AreAttentions self.now }
    {
        Pending { flags: self.flags }
    }

    /// Makes an attention pending. One that is pending already isn't added again.
    pub fn add(&mut self, attention: Attention)
        ensures { self.new ≡ set.insert self.old (code_of attention) }
    {
        self.flags.insert(flag(attention));
    }

    /// Takes an attention away, where it is pending.
    pub fn remove(&mut self, attention: Attention)
        ensures { self.new ≡ set.remove self.old (code_of attention) }
    {
        self.flags.remove(flag(attention));
    }

    /// Whether the attention is pending.
    pub fn has(&self, attention: Attention) -> bool
        ensures value { result ≡ set.contains self.now (code_of attention) }
        ensures members { AreAttentions self.now }
    {
        self.flags.contains(flag(attention))
    }

    /// Whether nothing is pending.
    pub fn is_empty(&self) -> bool
        ensures value { IsTrue result ↔ (self.now ≡ no_code) }
        ensures members { AreAttentions self.now }
        ensures any { result ≡ not (has_any self.now) }
    {
        self.flags.is_empty()
    }

    /// Whether each attention of this set is in the other.
    pub fn is_within(&self, other: &Pending) -> bool
        ensures { IsTrue result ↔ Within self.now other.now }
    {
        other.flags.contains(self.flags)
    }

    /// A number with the bit of each attention of the set.
    pub fn bits(&self) -> u8
        ensures few { result < 16 }
        ensures codes { codes_of result ≡ self.now }
    {
        self.flags.bits()
    }

    /// The attention with the lowest code of those that are pending.
    pub fn lowest(&self) -> Option<Attention>
        ensures some { IfSome result (λ attention. IsLowest self.now (code_of attention)) }
        ensures none { IsNone result ↔ (self.now ≡ no_code) }
        ensures members { AreAttentions self.now }
    {
        let _ = &self.flags;
        Attention::ALL
            .iter()
            .copied()
            .find(|attention| self.has(*attention))
    }

    /// Reports the attention with the lowest code, which alone is pending no more.
    pub fn report(&mut self) -> Option<Sense>
        ensures some { IfSome result (λ sense. ReportsLowest self.old sense self.new) }
        ensures none { IsNone result ↔ (self.old ≡ no_code) }
        ensures unchanged { IfNone result (self.new ≡ self.old) }
    {
        let attention = self.lowest()?;
        self.remove(attention);
        Some(attention.sense())
    }
}

impl PartialEq for Pending {
    ghost use Rattle.std.specs.Prelude.{◌≡◌, ◌↔◌, IsTrue};
    ghost use Rattle.std.specs.Cmp.{partial_equiv_from_equiv};
    ghost use Rattle.pr_attention.specs.SameCodes.{is_same, is_same-IsEquivalence};

    ghost eq = { is_same };

    ghost laws = { partial_equiv_from_equiv is_same-IsEquivalence };

    fn eq(&self, other: &Self) -> bool
        ensures value { result ≡ is_same self.now other.now }
        ensures same { IsTrue result ↔ (self.now ≡ other.now) }
    {
        self.flags == other.flags
    }
}

impl Eq for Pending {
    ghost use Rattle.pr_attention.specs.SameCodes.{is_same-IsEquivalence};

    ghost laws = { is_same-IsEquivalence };
}
