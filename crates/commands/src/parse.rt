// From the words of a command to what it says, or to the lowest of the refusals 10 to 18.
ghost use Rattle.std.specs.Prelude.{◌≡◌, ℕ, ◌<◌, List};
ghost use Rattle.store.specs.Layout.{time_limit};
ghost use Rattle.commands.specs.Parse as P;
ghost use Rattle.commands.specs.TablePromises.{unit_meant, form_meant};
ghost use Rattle.commands.specs.ParsePromises.{Divided, parse_rest, meant};

use crate::counts::{count_fits, too_long};
use crate::options::scan;
use crate::refusal::Refusal;
use crate::table::{CommandRow, Form, OptionGroup, TimeUnit, command_named};
use crate::{Condition, FieldDeed, KeyDeed, Parsed, operands};
use store::layout::{TIME_LIMIT, VERSION_MOST};
use wire::integers::read_natural;
use wire::words::Words;

// EXHSET from its options on: checks 15 to 18.
fn parse_set(words: &Words<'_>, time: u64) -> Result<Parsed, Refusal>
    requires { time < time_limit }
    ensures { meant words.now result ≡ parse_rest time P.Form.set_form words.now }
{
    let options = scan(
        words,
        4,
        &[
            OptionGroup::Expiry,
            OptionGroup::Condition,
            OptionGroup::Version,
        ],
    )?;
    let terms = operands::read_terms(words, options, time)?;
    let condition = options.condition.unwrap_or(Condition::Always);
    Ok(Parsed::OnField(FieldDeed::Assign(condition, terms)))
}

// EXHINCRBY from its options on.
fn parse_increment(words: &Words<'_>, time: u64) -> Result<Parsed, Refusal>
    requires { time < time_limit }
    ensures { meant words.now result ≡ parse_rest time P.Form.increment_form words.now }
{
    let options = scan(
        words,
        4,
        &[
            OptionGroup::Expiry,
            OptionGroup::Version,
            OptionGroup::Min,
            OptionGroup::Max,
        ],
    )?;
    let sum = operands::sum(words, options)?;
    let terms = operands::read_terms(words, options, time)?;
    Ok(Parsed::OnField(FieldDeed::Increment(sum, terms)))
}

// EXHEXPIRE, EXHEXPIREAT, EXHPEXPIRE and EXHPEXPIREAT from their options on, by their units.
fn parse_expire(words: &Words<'_>, unit: TimeUnit, time: u64) -> Result<Parsed, Refusal>
    requires { time < time_limit }
    ensures { meant words.now result ≡ parse_rest time (P.Form.expire_form (unit_meant unit)) words.now }
{
    let options = scan(words, 4, &[OptionGroup::Version])?;
    let n = read_natural(words.word(3), TIME_LIMIT).ok_or(Refusal::NotInteger)?;
    let versioning = operands::versioning(words, options.version)?;
    if operands::is_zero(versioning) {
        return Err(Refusal::InvalidVersion);
    }
    let instant = operands::instant(unit, n, time);
    if TIME_LIMIT < instant {
        return Err(Refusal::InvalidExpireTime);
    }
    Ok(Parsed::OnField(FieldDeed::Expire(instant, versioning)))
}

// EXHSETVER from its number on.
fn parse_renumber(words: &Words<'_>) -> Result<Parsed, Refusal>
    ensures { (time : ℕ) → meant words.now result ≡ parse_rest time P.Form.renumber_form words.now }
{
    let n = read_natural(words.word(3), VERSION_MOST).ok_or(Refusal::NotInteger)?;
    Ok(Parsed::OnField(FieldDeed::Renumber(n)))
}

// EXHLEN from its options on.
fn parse_count(words: &Words<'_>) -> Result<Parsed, Refusal>
    ensures { (time : ℕ) → meant words.now result ≡ parse_rest time P.Form.count_form words.now }
{
    let options = scan(words, 2, &[OptionGroup::NoExp])?;
    if options.no_exp {
        return Ok(Parsed::OnKey(KeyDeed::CountLive));
    }
    Ok(Parsed::OnKey(KeyDeed::CountHeld))
}

// A command of a row from its options on: checks 15 to 18.
#[tactic(auto, using(crate::proofs::ParseFamilies::fixed_forms), unfolding(crate::specs::TablePromises::form_meant))]
fn parse_row(words: &Words<'_>, row: CommandRow, time: u64) -> Result<Parsed, Refusal>
    requires { time < time_limit }
    ensures { meant words.now result ≡ parse_rest time (form_meant row.form) words.now }
{
    match row.form {
        Form::Set => parse_set(words, time),
        Form::SetMany => Ok(Parsed::OnKey(KeyDeed::SetMany)),
        Form::Increment => parse_increment(words, time),
        Form::Expire(unit) => parse_expire(words, unit, time),
        Form::Persist => Ok(Parsed::OnField(FieldDeed::Persist)),
        Form::Renumber => parse_renumber(words),
        Form::Ask(question) => Ok(Parsed::OnField(FieldDeed::Ask(question))),
        Form::GetMany(question) => Ok(Parsed::OnKey(KeyDeed::GetMany(question))),
        Form::Delete => Ok(Parsed::OnKey(KeyDeed::Delete)),
        Form::Count => parse_count(words),
        Form::List(listing) => Ok(Parsed::OnKey(KeyDeed::List(listing))),
    }
}

// What a command says, or the lowest of the refusals 10 to 18; no words at all are that its bytes are damaged.
pub fn parse(words: &Words<'_>, clock: u64, time: u64) -> Result<Parsed, Refusal>
    requires { clock < time_limit → time < time_limit }
    ensures { (s : List ℕ) → Divided s words.now → meant words.now result ≡ P.parse time clock s }
{
    if words.len() == 0 {
        return Err(Refusal::Protocol);
    }
    if TIME_LIMIT <= clock {
        return Err(Refusal::ClockOutOfRange);
    }
    let row = command_named(words.word(0)).ok_or(Refusal::UnknownCommand)?;
    if !count_fits(row, words.len()) {
        return Err(Refusal::WrongArgumentCount);
    }
    if too_long(words, row) {
        return Err(Refusal::TooLong);
    }
    parse_row(words, row, time)
}
