// What the options of a command say: each is given by what it says in its group and the number of its operand's word.
ghost use Rattle.std.specs.Prelude.{◌≡◌, ◌≤◌, ◌<◌, option_map};
ghost use Rattle.store.specs.Layout.{time_limit};
ghost use Rattle.commands.specs.Options.{expiry_group, version_group};
ghost use Rattle.commands.specs.Parse.{is_zero, beyond};
ghost use Rattle.commands.specs.ParsePromises.{expiry_given, version_given, given_at};
ghost use Rattle.commands.specs.ParsePromises.{by_number, terms_for, instant_in, timed_for, versioned_for, bound_for, sum_of};

use crate::options::{ExpiryOption, ScannedOptions, VersionGiven};
use crate::refusal::Refusal;
use crate::table::{TimeUnit, VersionOption};
use crate::{Lifetime, Stamping, Sum, Versioning};
use store::layout::{TIME_LIMIT, VERSION_MOST};
use wire::integers::{Signed, read_integer, read_natural};
use wire::words::Words;

// The largest magnitude of a negative number of signed 64 bits.
const LOWEST: u64 = 9223372036854775808;

// The instant in ms that a number says in a unit.
#[tactic(auto, unfolding(crate::specs::ParsePromises::instant_in, crate::specs::TablePromises::unit_meant))]
pub fn instant(unit: TimeUnit, n: u64, time: u64) -> u64
    requires { (n ≤ time_limit) × (time < time_limit) }
    ensures { result ≡ instant_in unit n time }
{
    match unit {
        TimeUnit::SecondsFromNow => time + 1000 * n,
        TimeUnit::Seconds => 1000 * n,
        TimeUnit::MillisecondsFromNow => time + n,
        TimeUnit::Milliseconds => n,
    }
}

// What EX, EXAT, PX, PXAT or KEEPTTL says.
pub fn lifetime(
    words: &Words<'_>,
    given: Option<ExpiryOption>,
    time: u64,
) -> Result<Lifetime, Refusal>
    requires { time < time_limit }
    ensures { result ≡ timed_for time (option_map (expiry_given words.now) given) }
{
    let Some(option) = given else {
        return Ok(Lifetime::Clear);
    };
    let ExpiryOption::Expires(unit, operand) = option else {
        return Ok(Lifetime::Keep);
    };
    let read = read_natural(words.word(operand), TIME_LIMIT);
    let n = read.ok_or(Refusal::NotInteger)?;
    Ok(Lifetime::Until(instant(unit, n, time)))
}

// What VER, ABS or GT says.
pub fn versioning(words: &Words<'_>, given: Option<VersionGiven>) -> Result<Versioning, Refusal>
    ensures { result ≡ versioned_for (option_map (version_given words.now) given) }
{
    let Some(version) = given else {
        return Ok(Versioning::Next);
    };
    let read = read_natural(words.word(version.operand), VERSION_MOST);
    let n = read.ok_or(Refusal::NotInteger)?;
    match version.option {
        VersionOption::Match => Ok(Versioning::Match(n)),
        VersionOption::Exactly => Ok(Versioning::Exactly(n)),
        VersionOption::Above => Ok(Versioning::Above(n)),
    }
}

// Whether a versioning is ABS 0 or GT 0 (17).
#[tactic(auto, unfolding(crate::specs::Parse::is_zero))]
pub fn is_zero(versioning: Versioning) -> bool
    ensures { result ≡ is_zero versioning }
{
    match versioning {
        Versioning::Next | Versioning::Match(_) => false,
        Versioning::Exactly(v) | Versioning::Above(v) => v == 0,
    }
}

// Whether a lifetime ends above the limit (18).
#[tactic(auto, unfolding(crate::specs::Parse::beyond))]
fn is_beyond(lifetime: Lifetime) -> bool
    ensures { result ≡ beyond lifetime }
{
    matches!(lifetime, Lifetime::Until(t) if TIME_LIMIT < t)
}

// What the options of a command say of its version and its expiry.
pub fn read_terms(
    words: &Words<'_>,
    options: ScannedOptions,
    time: u64,
) -> Result<Stamping, Refusal>
    requires { time < time_limit }
    ensures { by_number result ≡ terms_for time (given_at words.now options expiry_group) (given_at words.now options version_group) }
{
    let until = lifetime(words, options.expiry, time)?;
    let version = versioning(words, options.version)?;
    if is_zero(version) {
        return Err(Refusal::InvalidVersion);
    }
    if is_beyond(until) {
        return Err(Refusal::InvalidExpireTime);
    }
    Ok(Stamping {
        versioning: version,
        lifetime: until,
    })
}

// What MIN or MAX says, an end of signed 64 bits where it is not given.
pub fn bound(words: &Words<'_>, given: Option<usize>, unbounded: Signed) -> Option<Signed>
    ensures { result ≡ bound_for unbounded words.now given }
{
    match given {
        Some(operand) => read_integer(words.word(operand)),
        None => Some(unbounded),
    }
}

// What EXHINCRBY adds, and its bounds: word 3, MIN and MAX.
pub fn sum(words: &Words<'_>, options: ScannedOptions) -> Result<Sum, Refusal>
    ensures { result ≡ sum_of words.now options }
{
    let amount = read_integer(words.word(3)).ok_or(Refusal::NotInteger)?;
    let lowest = Signed {
        negative: true,
        magnitude: LOWEST,
    };
    let low = bound(words, options.min, lowest);
    let least = low.ok_or(Refusal::NotInteger)?;
    let highest = Signed {
        negative: false,
        magnitude: LOWEST - 1,
    };
    let high = bound(words, options.max, highest);
    let greatest = high.ok_or(Refusal::NotInteger)?;
    Ok(Sum {
        amount,
        least,
        greatest,
    })
}
