//! Attentions and names without repetition.

ghost use Rattle.std.specs.Prelude.{◌≡◌, ◌==◌, bytes_eq, map};
ghost use Rattle.std.specs.List.{list_any};
ghost use Rattle.pr_attention.specs.Attentions.{code_of};
ghost use Rattle.pr_roles.specs.Fitting.{are_distinct};

use pr_attention::Attention;
use pr_roles::{Word, are_distinct};

/// Whether no two attentions are equal.
pub fn are_codes_distinct(attentions: &[Attention]) -> bool
    ensures { result ≡ are_distinct (λ x y. code_of x == code_of y) attentions.now }
{
    let mut rest = attentions;
    while let Some((first, others)) = rest.split_first() {
        if is_among(others, *first) {
            return false;
        }
        rest = others;
    }
    true
}

fn is_among(others: &[Attention], attention: Attention) -> bool
    ensures { result ≡ list_any (λ other. code_of other == code_of attention) others.now }
{
    others.iter().any(|other| other.code() == attention.code())
}

/// Whether no two names are equal.
pub fn are_names_distinct(names: &[Word]) -> bool
    ensures { result ≡ are_distinct bytes_eq (map (λ name. name.bytes) names.now) }
{
    are_distinct(names)
}
