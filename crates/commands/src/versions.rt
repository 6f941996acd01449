// What decides a field's version and expiry, and whether it is written. A missing field counts as version 0 with no expiry; it is never stale.
ghost use Rattle.std.specs.Prelude.{◌≡◌, [], ◌≤◌};
ghost use Rattle.std.specs.Prelude.{Some};
ghost use Rattle.store.specs.Layout.{version_most};
ghost use Rattle.commands.specs.Effect.{is_stale, next_version, setter_version, next_expiry, barred};
ghost use Rattle.commands.specs.Promises.{entry_for, versioned, expiring};

use crate::{Condition, Lifetime, Versioning};

// Whether VER names another version than the one that is held, or GT one that is not greater. A VER of 0 is compared with nothing, and no VER
// with a held 0.
#[tactic(auto, using(crate::proofs::VersionPlans::match_none), unfolding(crate::specs::Effect::is_stale))]
pub fn is_stale(versioning: Versioning, held: u64) -> bool
    ensures { result ≡ is_stale versioning (Some (versioned held)) }
{
    match versioning {
        Versioning::Match(v) => 1 <= v && (held != 0 && held != v),
        Versioning::Above(v) => v <= held,
        Versioning::Next | Versioning::Exactly(_) => false,
    }
}

// The version of a field that is written.
#[tactic(auto, unfolding(crate::specs::Effect::next_version, wire::specs::Lists::or_else))]
pub fn next_version(versioning: Versioning, held: u64) -> u64
    requires { held ≤ version_most }
    ensures { result ≡ next_version versioning (Some (versioned held)) }
{
    match versioning {
        Versioning::Exactly(v) | Versioning::Above(v) => v,
        Versioning::Next | Versioning::Match(_) => held + 1,
    }
}

// The version of a field whose expiry is set.
#[tactic(auto, unfolding(crate::specs::Effect::setter_version, crate::specs::Effect::next_version, wire::specs::Lists::or_else))]
pub fn setter_version(versioning: Versioning, held: u64) -> u64
    requires { held ≤ version_most }
    ensures { result ≡ setter_version versioning (versioned held) }
{
    match versioning {
        Versioning::Exactly(v) | Versioning::Above(v) => v,
        Versioning::Next => held,
        Versioning::Match(_) => held + 1,
    }
}

// The expiry of a field that is written.
#[tactic(auto, unfolding(crate::specs::Effect::next_expiry, wire::specs::Lists::or_else))]
pub fn next_expiry(lifetime: Lifetime, held: Option<u64>) -> Option<u64>
    ensures { result ≡ next_expiry lifetime (Some (expiring held)) }
{
    match lifetime {
        Lifetime::Until(instant) => Some(instant),
        Lifetime::Clear => None,
        Lifetime::Keep => held,
    }
}

// Whether NX or XX keeps a field from being written.
#[tactic(auto, unfolding(crate::specs::Effect::barred, crate::specs::Promises::entry_for))]
pub fn is_barred(condition: Condition, found: Option<usize>) -> bool
    ensures { result ≡ barred condition (entry_for [] found) }
{
    match condition {
        Condition::Always => false,
        Condition::Missing => found.is_some(),
        Condition::Live => found.is_none(),
    }
}
