// The options of a command: which were given, and where their operands stand.
ghost use Rattle.std.specs.Prelude.{◌≡◌, ◌<◌, List, is_some, length, map};
ghost use Rattle.wire.specs.Words.{Word};
ghost use Rattle.commands.specs.Options.{group};
ghost use Rattle.commands.specs.TablePromises.{kind_meant, group_number};
ghost use Rattle.commands.specs.ParsePromises.{FoundBy, WithOption, Scanned, given_at};

use crate::Condition;
use crate::refusal::Refusal;
use crate::table::{
    OptionGroup, OptionKind, TimeUnit, VersionOption, group, option_named, takes_operand,
};
use wire::words::{Words, next_word};

// EX, EXAT, PX or PXAT as its unit, with the number of its operand's word, or KEEPTTL.
#[derive(Clone, Copy)]
pub enum ExpiryOption {
    Expires(TimeUnit, usize),
    KeepTtl,
}

// VER, ABS or GT, with the number of its operand's word.
#[derive(Clone, Copy)]
pub struct VersionGiven {
    pub option: VersionOption,
    pub operand: usize,
}

// The options that were given, by group; of MIN and MAX the number of the operand's word.
#[derive(Clone, Copy)]
pub struct ScannedOptions {
    pub expiry: Option<ExpiryOption>,
    pub condition: Option<Condition>,
    pub version: Option<VersionGiven>,
    pub min: Option<usize>,
    pub max: Option<usize>,
    pub no_exp: bool,
}

// The option at a word of a command, and the number of its last word, its operand if it takes one.
#[derive(Clone, Copy)]
struct PlacedOption {
    kind: OptionKind,
    last: usize,
}

// The option at a word, of one of the groups that the command takes. It is refused where it is unknown or its operand is missing.
fn option_at(words: &Words<'_>, i: usize, allowed: &[OptionGroup]) -> Result<PlacedOption, Refusal>
    requires { i < length words.now }
    ensures { FoundBy words.now (map group_number allowed.now) i result }
{
    let kind = option_named(words.word(i)).ok_or(Refusal::Syntax)?;
    if !allowed.contains(&group(kind)) {
        return Err(Refusal::Syntax);
    }
    if !takes_operand(kind) {
        return Ok(PlacedOption { kind, last: i });
    }
    let Some(last) = next_word(words.len(), i + 1) else {
        return Err(Refusal::Syntax);
    };
    Ok(PlacedOption { kind, last })
}

// Whether an option of the same group was given.
#[tactic(auto, using(crate::proofs::OptionScanning::given_rules), unfolding(crate::proofs::OptionScanning::placing))]
fn is_given(options: ScannedOptions, kind: OptionKind) -> bool
    ensures { (ws : List Word) → result ≡ is_some (given_at ws options (group (kind_meant kind))) }
{
    match kind {
        OptionKind::Expires(_) | OptionKind::KeepTtl => options.expiry.is_some(),
        OptionKind::Only(_) => options.condition.is_some(),
        OptionKind::Versioned(_) => options.version.is_some(),
        OptionKind::Min => options.min.is_some(),
        OptionKind::Max => options.max.is_some(),
        OptionKind::NoExp => options.no_exp,
    }
}

// One option more, the number of its last word with it.
#[tactic(auto, unfolding(crate::proofs::OptionScanning::placing))]
fn give(options: &mut ScannedOptions, kind: OptionKind, last: usize)
    ensures { WithOption options.old kind last options.new }
{
    match kind {
        OptionKind::Expires(unit) => options.expiry = Some(ExpiryOption::Expires(unit, last)),
        OptionKind::KeepTtl => options.expiry = Some(ExpiryOption::KeepTtl),
        OptionKind::Only(condition) => options.condition = Some(condition),
        OptionKind::Versioned(option) => {
            options.version = Some(VersionGiven {
                option,
                operand: last,
            })
        },
        OptionKind::Min => options.min = Some(last),
        OptionKind::Max => options.max = Some(last),
        OptionKind::NoExp => options.no_exp = true,
    }
}

// The options among the words from a word on. They are refused where one is unknown, repeated or conflicting, or its operand is missing.
pub fn scan(
    words: &Words<'_>,
    from: usize,
    allowed: &[OptionGroup],
) -> Result<ScannedOptions, Refusal>
    ensures { Scanned words.now (map group_number allowed.now) from result }
{
    let mut options = ScannedOptions {
        expiry: None,
        condition: None,
        version: None,
        min: None,
        max: None,
        no_exp: false,
    };
    let mut i = from;
    while i < words.len() {
        let found = option_at(words, i, allowed)?;
        if is_given(options, found.kind) {
            return Err(Refusal::Syntax);
        }
        give(&mut options, found.kind, found.last);
        i = found.last + 1;
    }
    Ok(options)
}
